// The operations on the bytes of a slot record, for any number of a slot, and the count that is read from
// them. specs/OnBytes.antt says what each answers and leaves.
#![tactic(auto)]

ghost use Rattle.std.specs.Prelude.{◌≡◌};
ghost use Rattle.slot_rules.specs.Answers.{number, change_of, count_answer_of};
ghost use Rattle.slot_on_bytes.specs.OnBytes.{reply_of, on_bytes, fresh_bytes, bytes_refusal, tally_of, bytes_startable, clipped};

use slot_bytes::{RECORD, is_record, record_bytes, record_of};
use slot_rules::{Changed, Op, Outcome, Refusal};

// What an operation on bytes answers and leaves: 0 or the refusal's number, kind and started slot,
// and the record's bytes afterwards. Numbers, since C gets them as they stand here.
#[derive(Clone, Copy)]
pub struct Reply {
    pub number: u32,
    pub answer: [u64; 2],
    pub bytes: [u8; RECORD],
}

// How many slots are startable: 0 and the count, or the refusal's number and 0. Numbers for C too.
#[derive(Clone, Copy)]
pub struct Tally {
    pub number: u32,
    pub startable: u64,
}

// A change of a record, as numbers and as what becomes of the bytes b: a refusal leaves them.
#[tactic(auto, unfolding(crate::specs::OnBytes::reply_of))]
fn reply_of(b: [u8; RECORD], c: Changed) -> Reply
    ensures { result ≡ reply_of b (change_of c) }
{
    let bytes = record_bytes(c.after);
    match c.answer {
        Ok(Outcome::Starts(k)) => Reply {
            number: 0,
            answer: [1, u64::from(k)],
            bytes,
        },
        Ok(Outcome::Recovery) => Reply {
            number: 0,
            answer: [2, 0],
            bytes,
        },
        Ok(Outcome::Done) => Reply {
            number: 0,
            answer: [0, 0],
            bytes,
        },
        Err(refusal) => Reply {
            number: refusal.number(),
            answer: [3, 0],
            bytes: b,
        },
    }
}

// An operation on bytes; bytes that are no record are refused with 31.
#[tactic(auto, using(crate::proofs::OnBytes::on_record, crate::proofs::OnBytes::on_none))]
pub fn operate(bytes: [u8; RECORD], op: Op) -> Reply
    ensures { result ≡ on_bytes op bytes }
{
    let r = record_of(bytes);
    if !is_record(bytes) {
        return reply_of(bytes, slot_record::refuse(Refusal::Invalid, r));
    }
    reply_of(bytes, slot_lent::operate(r, op))
}

// A number in a byte: the greatest where it does not fit.
fn clip(n: u32) -> u8
    ensures { result ≡ clipped n }
{
    u8::try_from(n).unwrap_or(255)
}

// A fresh record in the place of bytes, for any number of slots.
#[tactic(auto, using(crate::proofs::OnBytes::fresh_clipped))]
pub fn fresh(bytes: [u8; RECORD], slots: u32) -> Reply
    ensures { result ≡ fresh_bytes slots bytes }
{
    reply_of(bytes, slot_record::fresh(clip(slots)))
}

// Set active on bytes, for any number of a slot.
#[tactic(auto, using(crate::proofs::OnBytes::active_clipped))]
pub fn set_active(bytes: [u8; RECORD], slot: u32) -> Reply
    ensures { result ≡ on_bytes (Op.SetActive slot) bytes }
{
    operate(bytes, Op::SetActive(clip(slot)))
}

// Partition modified on bytes, for any number of a slot.
#[tactic(auto, using(crate::proofs::OnBytes::modified_clipped))]
pub fn partition_modified(bytes: [u8; RECORD], slot: u32) -> Reply
    ensures { result ≡ on_bytes (Op.Modified slot) bytes }
{
    operate(bytes, Op::Modified(clip(slot)))
}

// Corrupted on bytes, for any number of a slot.
#[tactic(auto, using(crate::proofs::OnBytes::corrupted_clipped))]
pub fn slot_corrupted(bytes: [u8; RECORD], slot: u32) -> Reply
    ensures { result ≡ on_bytes (Op.Corrupted slot) bytes }
{
    operate(bytes, Op::Corrupted(clip(slot)))
}

// 0 where bytes are a valid record, else 31.
#[tactic(auto, unfolding(crate::specs::OnBytes::bytes_refusal))]
pub fn bytes_refusal(bytes: [u8; RECORD]) -> u32
    ensures { result ≡ bytes_refusal bytes }
{
    let r = record_of(bytes);
    if is_record(bytes) & slot_places::is_valid(r) {
        return 0;
    }
    Refusal::Invalid.number()
}

// What the count's reader answers, as numbers.
fn tally_of(c: Result<u8, Refusal>) -> Tally
    ensures { result ≡ tally_of (count_answer_of c) }
{
    match c {
        Ok(count) => Tally {
            number: 0,
            startable: u64::from(count),
        },
        Err(invalid) => Tally {
            number: invalid.number(),
            startable: 0,
        },
    }
}

// How many slots of the record in bytes are startable; 31 where they are no valid record.
#[tactic(auto, using(crate::proofs::OnBytes::counted_record, crate::proofs::OnBytes::counted_none))]
pub fn startable(bytes: [u8; RECORD]) -> Tally
    ensures { result ≡ bytes_startable bytes }
{
    let r = record_of(bytes);
    if !is_record(bytes) {
        return tally_of(Err(Refusal::Invalid));
    }
    tally_of(slot_places::startable_slots(r))
}
