// The starter over the bytes of a lent record, with its answer as numbers in a lent array.
#![tactic(auto)]

ghost use Rattle.std.specs.Prelude.{◌≡◌, map};
ghost use Rattle.rules.specs.Answer.{accepted, number_of};
ghost use Rattle.starter_rules.specs.Starter.{starts, answer_of};
ghost use Rattle.tarpaulark_starter.specs.OnBytes.{start_numbers, start_bytes};

use boot_rules::Layout;
use slot_bytes::{RECORD, is_record, record_bytes, record_of};
use slot_rules::Refusal;
use starter_rules::{Outcome, StartRefusal, Started};
use tarpaulark_numbers::layout_answer;

// The number that an answer returns.
fn start_number(answer: Result<Outcome, StartRefusal>) -> u32
    ensures { result ≡ number_of (answer_of answer) }
{
    match answer {
        Ok(_) => 0,
        Err(refusal) => refusal.number(),
    }
}

// A slot that starts: its number, the length of its line, and the layout of its image.
fn booted_answer(slot: u8, layout: Layout, len: usize) -> [u64; 20]
    ensures { result ≡ start_numbers (accepted (starts slot layout len)) }
{
    // Spelled out: a copy of the 17 numbers may become a call of the C library's memcpy, which a loader may lack.
    let l = layout_answer(layout);
    [
        1,
        slot as u64,
        len as u64,
        l[0],
        l[1],
        l[2],
        l[3],
        l[4],
        l[5],
        l[6],
        l[7],
        l[8],
        l[9],
        l[10],
        l[11],
        l[12],
        l[13],
        l[14],
        l[15],
        l[16],
    ]
}

// What the starter answers, as numbers.
fn start_answer(answer: Result<Outcome, StartRefusal>) -> [u64; 20]
    ensures { result ≡ start_numbers (answer_of answer) }
{
    match answer {
        Ok(Outcome::Starts(slot, layout, len)) => booted_answer(slot, layout, len),
        Ok(Outcome::Recovery) => [2, 0, 0, 0, 0, 0, 0, 0, 0, 0, 0, 0, 0, 0, 0, 0, 0, 0, 0, 0],
        Err(_) => [3, 0, 0, 0, 0, 0, 0, 0, 0, 0, 0, 0, 0, 0, 0, 0, 0, 0, 0, 0],
    }
}

// Starts a slot with its image and line, by the record in lent bytes; bytes that are no record are refused with 31.
pub fn start(
    bytes: &mut [u8; RECORD],
    images: &[&[u8]; 4],
    misc: &[u8],
    loader: &[u8],
    space: &mut [u8],
    out: &mut [u64; 20],
) -> u32
    ensures { record { number = result; answer = out.new; bytes = bytes.new; space = space.new } ≡ start_bytes bytes.old (map (λ image. image.now) images.now) misc.now loader.now space.old }
{
    let given = *bytes;
    if is_record(given) {
        let Started { answer, after } = starter::start(
            record_of(given),
            images,
            misc,
            loader,
            space,
        );
        *bytes = record_bytes(after);
        *out = start_answer(answer);
        return start_number(answer);
    }
    let refused = Err(StartRefusal::Slots(Refusal::Invalid));
    *out = start_answer(refused);
    start_number(refused)
}
