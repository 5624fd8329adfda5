// The slot record's operations, each taking a record by value and handing one back beside its answer.
// slot_rules has the rules: specs/OneSlot.antt what is said of one slot, specs/Records.antt the record,
// specs/Answers.antt the answers, specs/Operations.antt the operations.
#![tactic(auto)]

ghost use Rattle.std.specs.Prelude.{◌≡◌, true, ℕ};
ghost use Rattle.rules.specs.Answer.{refused};
ghost use Rattle.slot_rules.specs.Records.{is_in_use, valid, replaced};
ghost use Rattle.slot_rules.specs.Answers.{number, deed_of, change_of, beside, change};
ghost use Rattle.slot_rules.specs.Operations.{fresh_of, first_other, found, take_over, start_of, on_slot, set_active_of, modified_of, corrupted_of, confirm_of};

use slot_one::{
    activate, can_confirm, can_start, can_take_over, count_of, damage, make_successful, mark,
    modify, spend,
};
use slot_places::{is_in_use, is_valid, new_record, slot_at};
use slot_rules::{Changed, Outcome, Record, Refusal, Slot};

// A refusal, beside the record that it hands back.
pub fn refuse(refusal: Refusal, r: Record) -> Changed
    ensures { change_of result ≡ beside (refused (number refusal) 0) r }
{
    Changed {
        answer: Err(refusal),
        after: r,
    }
}

// What is done, beside the record that it leaves.
fn accept(outcome: Outcome, r: Record) -> Changed
    ensures { change_of result ≡ change (deed_of outcome) r }
{
    Changed {
        answer: Ok(outcome),
        after: r,
    }
}

// A fresh record for 1 to 4 slots.
#[tactic(auto, unfolding(slot_rules::specs::Operations::fresh_of))]
pub fn fresh(n: u8) -> Changed
    ensures { change_of result ≡ fresh_of n }
{
    if (1 <= n) & (n <= 4) {
        accept(Outcome::Done, new_record(n, 3))
    } else {
        refuse(Refusal::Invalid, new_record(0, 0))
    }
}

// The valid record r with s at a place in use; the count steps by what stood there and what s is.
#[tactic(auto, using(slot_rules::proofs::Places::count_few, slot_rules::proofs::Places::count_held, slot_rules::proofs::OneSlot::count_most))]
fn replace(r: Record, place: u8, s: Slot) -> Record
    requires { (valid r ≡ true) × (is_in_use r place ≡ true) }
    ensures { result ≡ replaced r place s }
{
    let mut n = r;
    n.slots[usize::from(place)] = s;
    n.startable = r.startable + count_of(s) - count_of(slot_at(r, place));
    n
}

// The first slot in letter order, other than the current one, that can take over.
fn first_other(r: Record) -> Option<u8>
    ensures { result ≡ found (first_other r) }
{
    (0..4).find(|k| (*k != r.current) & can_take_over(slot_at(r, *k)))
}

// What Start does with a current slot that may not start: m is the record in which it is marked, and k what the search found.
fn take_over(m: Record, k: Option<u8>) -> Changed
    ensures { (n : ℕ) → k ≡ found n → change_of result ≡ take_over m n }
{
    match k {
        Some(slot) => accept(Outcome::Starts(slot), Record { current: slot, ..m }),
        None => accept(Outcome::Recovery, m),
    }
}

// Starts the current slot if it may start, and otherwise marks it and starts the first other that may.
#[tactic(auto, using(slot_rules::proofs::Laws::valid_in_use), unfolding(slot_rules::specs::Operations::start_of))]
pub fn start(r: Record) -> Changed
    ensures { change_of result ≡ start_of r }
{
    if !is_valid(r) {
        return refuse(Refusal::Invalid, r);
    }
    let s = slot_at(r, r.current);
    if can_start(s) {
        let n = replace(r, r.current, spend(s));
        return accept(Outcome::Starts(r.current), n);
    }
    let n = replace(r, r.current, mark(s));
    let k = first_other(r);
    take_over(n, k)
}

// The shape of every operation on a slot: 31, 32, or the slot becomes t, and m is current.
#[tactic(auto, unfolding(slot_rules::specs::Operations::on_slot))]
fn on_slot(r: Record, slot: u8, t: Slot, m: u8) -> Changed
    ensures { change_of result ≡ on_slot r slot t m }
{
    match (is_valid(r), is_in_use(r, slot)) {
        (false, _) => refuse(Refusal::Invalid, r),
        (true, false) => refuse(Refusal::NotInUse, r),
        (true, true) => {
            let n = replace(r, slot, t);
            accept(Outcome::Done, Record { current: m, ..n })
        }
    }
}

// Makes a slot current, with all flags clear and three tries.
pub fn set_active(r: Record, slot: u8) -> Changed
    ensures { change_of result ≡ set_active_of r slot }
{
    on_slot(r, slot, activate(slot_at(r, slot)), slot)
}

// Notes that a partition of a slot was modified: successful and corrupted clear, three tries, unbootable as before.
pub fn partition_modified(r: Record, slot: u8) -> Changed
    ensures { change_of result ≡ modified_of r slot }
{
    on_slot(r, slot, modify(slot_at(r, slot)), r.current)
}

// Notes that a slot's system was found corrupted; nothing else changes.
pub fn slot_corrupted(r: Record, slot: u8) -> Changed
    ensures { change_of result ≡ corrupted_of r slot }
{
    on_slot(r, slot, damage(slot_at(r, slot)), r.current)
}

// Makes the current slot successful, unless it is unbootable or corrupted. The system calls this, never the loader.
#[tactic(auto, using(slot_rules::proofs::Laws::valid_in_use), unfolding(slot_rules::specs::Operations::confirm_of))]
pub fn confirm(r: Record) -> Changed
    ensures { change_of result ≡ confirm_of r }
{
    if !is_valid(r) {
        return refuse(Refusal::Invalid, r);
    }
    let s = slot_at(r, r.current);
    if !can_confirm(s) {
        return refuse(Refusal::Unsound, r);
    }
    accept(Outcome::Done, replace(r, r.current, make_successful(s)))
}
