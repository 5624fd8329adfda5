// The slot record as 22 bytes, written and read. specs/Record.antt has the layout.
#![tactic(auto)]

ghost use Rattle.std.specs.Prelude.{◌≡◌, ◌<◌, ◌≤◌, ◌*◌};
ghost use Rattle.std.proofs.lemmas.List.Edits.{sets};
ghost use Rattle.slot_rules.specs.Records.{slot_at};
ghost use Rattle.slot_bytes.specs.Record.{flag, slot_bytes, record_bytes, slot_from, record_of, are_flags, is_record};

use slot_rules::{Record, Slot};

// The bytes of a record.
pub const RECORD: usize = 22;

// A flag as a number: 1 where it is set.
pub fn flag_byte(f: bool) -> u8
    ensures { result ≡ flag f }
{
    u8::from(f)
}

// The bytes b with those of the slot at place k in theirs.
fn put_slot(b: [u8; RECORD], r: Record, k: usize) -> [u8; RECORD]
    requires { k < 4 }
    ensures { result ≡ sets b (k * 5) (slot_bytes (slot_at r k)) }
{
    let s = r.slots[k];
    let i = k * 5;
    let mut n = b;
    n[i] = flag_byte(s.used);
    n[i + 1] = flag_byte(s.unbootable);
    n[i + 2] = flag_byte(s.successful);
    n[i + 3] = flag_byte(s.corrupted);
    n[i + 4] = s.tries;
    n
}

// A record's bytes.
#[tactic(auto, using(crate::proofs::Bytes::whole))]
pub fn record_bytes(r: Record) -> [u8; RECORD]
    ensures { result ≡ record_bytes r }
{
    let mut b = [0; RECORD];
    for k in 0..4 {
        b = put_slot(b, r, k);
    }
    b[20] = r.current;
    b[21] = r.startable;
    b
}

// The slot that the five bytes from i on say.
fn slot_from(b: [u8; RECORD], i: usize) -> Slot
    requires { i ≤ 15 }
    ensures { result ≡ slot_from b i }
{
    Slot {
        used: b[i] == 1,
        unbootable: b[i + 1] == 1,
        successful: b[i + 2] == 1,
        corrupted: b[i + 3] == 1,
        tries: b[i + 4],
    }
}

// The record that bytes say.
#[tactic(auto, unfolding(crate::specs::Record::record_of))]
pub fn record_of(b: [u8; RECORD]) -> Record
    ensures { result ≡ record_of b }
{
    // Four calls: of array::from_fn and of map, the proof of what they make did not close.
    Record {
        slots: [
            slot_from(b, 0),
            slot_from(b, 5),
            slot_from(b, 10),
            slot_from(b, 15),
        ],
        current: b[20],
        startable: b[21],
    }
}

// Whether the four bytes from i on are flags, each 0 or 1.
fn are_flags(b: [u8; RECORD], i: usize) -> bool
    requires { i ≤ 15 }
    ensures { result ≡ are_flags b i }
{
    (b[i] <= 1) & (b[i + 1] <= 1) & (b[i + 2] <= 1) & (b[i + 3] <= 1)
}

// Whether bytes are a record: each flag byte is 0 or 1.
pub fn is_record(b: [u8; RECORD]) -> bool
    ensures { result ≡ is_record b }
{
    (0..4).all(|k| are_flags(b, k * 5))
}
