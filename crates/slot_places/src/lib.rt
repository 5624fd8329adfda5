// The record's four places: the slot at each, whether it is in use, whether all are valid, how many are
// startable, and a new record.
#![tactic(auto)]

ghost use Rattle.std.specs.Prelude.{◌≡◌};
ghost use Rattle.slot_rules.specs.Records.{slot_at, slots_valid, startable_in, valid, is_in_use, new_record};
ghost use Rattle.slot_rules.specs.Answers.{count_answer_of};
ghost use Rattle.slot_rules.specs.Operations.{startable_of};

use slot_one::{count_of, is_slot_valid, new_slot};
use slot_rules::{Record, Refusal, Slot};

// The slot at a place; past d, one that is not used.
pub fn slot_at(r: Record, place: u8) -> Slot
    ensures { result ≡ slot_at r place }
{
    match r.slots.get(usize::from(place)) {
        Some(s) => *s,
        None => new_slot(false, 0),
    }
}

// Whether each of the four slots is valid.
#[tactic(auto, unfolding(slot_rules::specs::Records::slots_valid))]
fn are_slots_valid(r: Record) -> bool
    ensures { result ≡ slots_valid r }
{
    r.slots.iter().all(|s| is_slot_valid(*s))
}

// How many of the four slots are startable, by their flags.
#[tactic(auto, unfolding(slot_rules::specs::Records::startable_in))]
fn startable_in(r: Record) -> u8
    ensures { result ≡ startable_in r }
{
    r.slots.iter().map(|s| count_of(*s)).sum()
}

// Whether the place is not past d and in use.
pub fn is_in_use(r: Record, place: u8) -> bool
    ensures { result ≡ is_in_use r place }
{
    (place < 4) & slot_at(r, place).used
}

// Whether the record is valid.
#[tactic(auto, unfolding(slot_rules::specs::Records::valid))]
pub fn is_valid(r: Record) -> bool
    ensures { result ≡ valid r }
{
    is_in_use(r, r.current) & are_slots_valid(r) & (r.startable == startable_in(r))
}

// How many slots are startable, as the record keeps it; 31 where it is invalid.
#[tactic(auto, using(slot_rules::proofs::Laws::count_told, slot_rules::proofs::Laws::count_invalid))]
pub fn startable_slots(r: Record) -> Result<u8, Refusal>
    ensures { count_answer_of result ≡ startable_of r }
{
    if is_valid(r) {
        Ok(r.startable)
    } else {
        Err(Refusal::Invalid)
    }
}

// The record for n slots, 0 to 4: the first n in use and so startable, a current, flags clear, and these
// tries in all four places.
pub fn new_record(n: u8, tries: u8) -> Record
    ensures { result ≡ new_record n tries }
{
    Record {
        slots: std::array::from_fn(|k| new_slot(k < usize::from(n), tries)),
        current: 0,
        startable: n,
    }
}
