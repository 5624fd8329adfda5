// The starter as definitions and theorems, and the types that the code over it shares. No code but the refusals' numbers,
// and how an image's own refusal is handed on.
#![tactic(auto)]

ghost use Rattle.std.specs.Prelude.{◌≡◌};
ghost use Rattle.starter_rules.specs.declared.StartRefusal.TheVariants.{Image};
ghost use Rattle.starter_rules.specs.Starter.{refusal_number};

use boot_rules::Layout;
use slot_rules::Record;

// What the starter does where it refuses nothing: the started slot, the layout of its image and the length of its line; or
// Recovery, which is an answer of its own and no want of one.
#[derive(Clone, Copy)]
pub enum Outcome {
    Starts(u8, Layout, usize),
    Recovery,
}

// Why nothing starts: Start's own refusal, the image's own, a misc that is not 32 bytes, or a line that is too long.
#[derive(Clone, Copy, Debug, PartialEq, Eq)]
pub enum StartRefusal {
    Slots(slot_rules::Refusal),
    Image(boot_rules::Refusal),
    Misc,
    Line,
}

impl From<boot_rules::Refusal> for StartRefusal {
    ghost from_gives = { λ own refusal. refusal ≡ Image own };

    fn from(own: boot_rules::Refusal) -> StartRefusal {
        StartRefusal::Image(own)
    }
}

impl StartRefusal {
    // The number of a refusal.
    pub fn number(self) -> u32
        ensures { result ≡ refusal_number self }
    {
        match self {
            StartRefusal::Slots(own) => own.number(),
            StartRefusal::Image(own) => own.number(),
            StartRefusal::Misc => 51,
            StartRefusal::Line => 52,
        }
    }
}

// An answer, and the record after it, which comes back beside a refusal too.
#[derive(Clone, Copy)]
pub struct Started {
    pub answer: Result<Outcome, StartRefusal>,
    pub after: Record,
}
