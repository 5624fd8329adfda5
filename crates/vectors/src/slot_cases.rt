// The slot record: every operation on the bytes of a record.
use crate::support::{Cases, Sum};
use std::io;
use std::io::Write;

// The bytes of a record.
const RECORD: usize = 22;

// How many records a block has at most.
const BLOCK: usize = 64;

// How many values an operation has.
const VALUES: usize = 25;

// An operation on a record, in the order of their numbers.
#[derive(Clone, Copy)]
enum Operation {
    Fresh,
    Start,
    SetActive,
    Modified,
    Confirm,
    Corrupted,
    Startable,
}

impl From<u8> for Operation {
    fn from(number: u8) -> Operation {
        match number {
            0 => Operation::Fresh,
            1 => Operation::Start,
            2 => Operation::SetActive,
            3 => Operation::Modified,
            4 => Operation::Confirm,
            5 => Operation::Corrupted,
            _ => Operation::Startable,
        }
    }
}

// The values of an operation, a byte each: number, kind, slot or count, and the record after.
fn gathered(number: u32, kind: &[u64; 2], record: &[u8; RECORD]) -> [u8; VALUES] {
    let mut all = [0u8; VALUES];
    fields_write::copy(&mut all, 3, record);
    all[0] = (number % 256) as u8;
    all[1] = (kind[0] % 256) as u8;
    all[2] = (kind[1] % 256) as u8;
    all
}

// The refusal's number of the count's reader; the count goes into the place of the started slot.
fn startable(record: &[u8; RECORD], kind: &mut [u64; 2]) -> u32 {
    let mut count = [0u64; 1];
    let number = tarpaulark::tarpaulark_slots_startable(record, &mut count);
    kind[1] = count[0];
    number
}

// What an operation on a record answers and leaves.
fn outcome(operation: Operation, argument: u8, before: &[u8; RECORD]) -> [u8; VALUES] {
    let argument = argument as u32;
    let mut record = *before;
    let mut kind = [0u64; 2];
    let number = match operation {
        Operation::Fresh => tarpaulark::tarpaulark_slots_fresh(argument, &mut record, &mut kind),
        Operation::Start => tarpaulark::tarpaulark_slots_start(&mut record, &mut kind),
        Operation::SetActive => {
            tarpaulark::tarpaulark_slots_set_active(&mut record, argument, &mut kind)
        }
        Operation::Modified => {
            tarpaulark::tarpaulark_slots_modified(&mut record, argument, &mut kind)
        }
        Operation::Confirm => tarpaulark::tarpaulark_slots_confirm(&mut record, &mut kind),
        Operation::Corrupted => {
            tarpaulark::tarpaulark_slots_corrupted(&mut record, argument, &mut kind)
        }
        Operation::Startable => startable(&record, &mut kind),
    };
    gathered(number, &kind, &record)
}

// Prints the values of the next case.
pub(crate) fn case(line: &mut impl Write, cases: &mut Cases<'_>) -> io::Result<()> {
    let [operation, argument]: [u8; 2] = cases.array();
    for n in outcome(Operation::from(operation), argument, &cases.array()) {
        write!(line, " {n}")?;
    }
    Ok(())
}

// Goes on with the values of the seven operations, each with the arguments 0 to 4, on the record.
fn add_outcomes(sum: &mut Sum, record: &[u8; RECORD]) {
    for operation in 0u8..7 {
        for argument in 0u8..5 {
            sum.add(&outcome(Operation::from(operation), argument, record));
        }
    }
}

// Prints the checksum over the next records, up to a block of them.
pub(crate) fn block(line: &mut impl Write, cases: &mut Cases<'_>) -> io::Result<()> {
    let mut sum = Sum::new();
    for _ in 0..BLOCK {
        if cases.is_empty() {
            break;
        }
        add_outcomes(&mut sum, &cases.array());
    }
    write!(line, " {}", sum.finish())
}
