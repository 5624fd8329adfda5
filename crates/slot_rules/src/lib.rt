// The slot record, and what the rules say of it: types, definitions and theorems, no code but the numbers of the refusals.
#![tactic(auto)]

ghost use Rattle.std.specs.Prelude.{◌≡◌};
ghost use Rattle.slot_rules.specs.Answers.{number};

// A slot of the record. Its place there is its letter, a to d.
#[derive(Clone, Copy, Debug, PartialEq, Eq)]
pub struct Slot {
    pub used: bool,
    pub unbootable: bool,
    pub successful: bool,
    pub corrupted: bool,
    pub tries: u8,
}

// Four slots of fixed place, which of them is current, and how many are startable: in use and neither
// unbootable nor corrupted.
#[derive(Clone, Copy, Debug, PartialEq, Eq)]
pub struct Record {
    pub slots: [Slot; 4],
    pub current: u8,
    pub startable: u8,
}

// What an operation does where it is not refused: the slot to start, Recovery, or a change made.
#[derive(Clone, Copy, Debug, PartialEq, Eq)]
pub enum Outcome {
    Starts(u8),
    Recovery,
    Done,
}

// Why an operation is refused, each by its number: an invalid record or a number of slots that is not 1 to 4;
// a slot past d or not in use; a slot to confirm that is unbootable or corrupted.
#[derive(Clone, Copy, Debug, PartialEq, Eq)]
pub enum Refusal {
    Invalid = 31,
    NotInUse = 32,
    Unsound = 33,
}

impl Refusal {
    // The number of a refusal.
    pub fn number(self) -> u32
        ensures { result ≡ number self }
    {
        self as u32
    }
}

// An answer, and the record after it, which comes back beside a refusal too.
#[derive(Clone, Copy)]
pub struct Changed {
    pub answer: Result<Outcome, Refusal>,
    pub after: Record,
}

// An operation, with the slot that it is about.
#[derive(Clone, Copy, Debug, PartialEq, Eq)]
pub enum Op {
    Start,
    SetActive(u8),
    Modified(u8),
    Corrupted(u8),
    Confirm,
}
