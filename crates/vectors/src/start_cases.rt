// The starter: a record, four images, misc, the loader's line and some space.
use crate::support::{Cases, Sum, answer, fill};
use std::io::Write;
use std::{array, io};

// The bytes of a record.
const RECORD: usize = 22;

// The most bytes that are lent.
const ROOM: usize = 8192;

// How many numbers are answered.
const ANSWER: usize = 20;

// Prints the values of the next case.
pub(crate) fn case(to: &mut impl Write, cases: &mut Cases<'_>) -> io::Result<()> {
    let mut record: [u8; RECORD] = cases.array();
    let lengths: [usize; 6] = array::from_fn(|_| cases.size());
    let lent = cases.size();
    let [a, b, c, d, misc, line] = lengths.map(|len| cases.take(len));
    let mut room = [0u8; ROOM];
    let space = &mut room[..lent.min(ROOM)];
    fill(space, 11, |byte: u8| byte.wrapping_add(5));
    let mut out = [0u64; ANSWER];
    let number = tarpaulark::tarpaulark_start(&mut record, a, b, c, d, misc, line, space, &mut out);
    let (told, layout) = out.split_at(3);
    let mut sum = Sum::new();
    for n in layout {
        sum.add(&n.to_le_bytes());
    }
    sum.add(&record);
    sum.add(space);
    answer(to, number, told)?;
    write!(to, " {}", sum.finish())
}
