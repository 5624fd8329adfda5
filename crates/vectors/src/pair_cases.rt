// Pairs of images, each with some space: compared, and joined. One checksum for each block of so many pairs.
use crate::support::{Cases, Sum, fill};
use std::io;
use std::io::Write;

// The most numbers that are lent.
const SPACE: usize = 96;

// The most bytes that are lent.
const ROOM: usize = 8192;

// Two images, and how many numbers or bytes are lent.
#[derive(Clone, Copy)]
struct Pair<'a> {
    first: &'a [u8],
    second: &'a [u8],
    lent: usize,
}

impl<'a> Pair<'a> {
    // Takes the next case.
    fn take(cases: &mut Cases<'a>) -> Pair<'a> {
        let first = cases.size();
        let second = cases.size();
        let lent = cases.size();
        Pair {
            first: cases.take(first),
            second: cases.take(second),
            lent,
        }
    }
}

// Goes on with an answer: the number of the refusal, and the low 4 bytes of the numbers beside it.
fn add_answer(sum: &mut Sum, number: u32, out: &[u64; 3]) {
    sum.add(&number.to_le_bytes());
    for n in out {
        sum.add(&n.to_le_bytes()[..4]);
    }
}

// Goes on with the values of a case that is compared.
fn compare(sum: &mut Sum, pair: Pair<'_>) {
    let mut space = [0u32; SPACE];
    let runs = &mut space[..pair.lent.min(SPACE)];
    fill(runs, 11, |n: u32| n.wrapping_add(5));
    let mut out = [0u64; 3];
    let number = tarpaulark::tarpaulark_compare(pair.first, pair.second, runs, &mut out);
    add_answer(sum, number, &out);
    for n in runs.iter() {
        sum.add(&n.to_le_bytes());
    }
}

// Goes on with the values of a case that is joined into so many bytes, and answers the length of the joined image, 0 where
// the joining was refused.
fn join_into(sum: &mut Sum, pair: Pair<'_>, room: usize) -> usize {
    let mut space = [0u8; ROOM];
    let image = &mut space[..room.min(ROOM)];
    fill(image, 7, |byte: u8| byte.wrapping_add(3));
    let mut out = [0u64; 3];
    let number = tarpaulark::tarpaulark_join(pair.first, pair.second, image, &mut out);
    add_answer(sum, number, &out);
    sum.add(image);
    out[2] as usize
}

// Goes on with the values of a case that is joined: into the bytes that it names, and where that gives an image, into one
// byte too few.
fn join(sum: &mut Sum, pair: Pair<'_>) {
    let made = join_into(sum, pair, pair.lent);
    if let Some(short) = made.checked_sub(1) {
        join_into(sum, pair, short);
    }
}

// Prints the checksum over the next cases, up to so many, each gone on with by a function.
fn block<F: Fn(&mut Sum, Pair<'_>)>(
    line: &mut impl Write,
    cases: &mut Cases<'_>,
    most: u32,
    each: F,
) -> io::Result<()>
    requires { F.IsAlwaysCallable each }
{
    let mut sum = Sum::new();
    for _ in 0..most {
        if cases.is_empty() {
            break;
        }
        each(&mut sum, Pair::take(cases));
    }
    write!(line, " {}", sum.finish())
}

// Prints the checksum over the next cases, compared.
pub(crate) fn compared(line: &mut impl Write, cases: &mut Cases<'_>) -> io::Result<()> {
    block(line, cases, 16, compare)
}

// Prints the checksum over the next cases, joined.
pub(crate) fn joined(line: &mut impl Write, cases: &mut Cases<'_>) -> io::Result<()> {
    block(line, cases, 32, join)
}
