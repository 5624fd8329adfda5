// The answers as numbers: 0 or the refusal's number, and an array with place and counts.
#![tactic(auto)]

ghost use Rattle.std.specs.Prelude.{◌≡◌};
ghost use Rattle.rules.specs.Answer.{number_of};
ghost use Rattle.sparse_rules.specs.Chunks.{chunk};
ghost use Rattle.sparse_rules.specs.Answers.{answer_of, reading_of};
ghost use Rattle.sparse_blocks_rules.specs.Pairs as pairs;
ghost use Rattle.tarpaulark_numbers.specs.Numbers.{verdict_numbers, count_numbers, pair_numbers, kind_number, chunk_numbers, header_numbers, section_of, found_numbers, offered_numbers};

use boot_rules::{Layout, Section};
use slot_bytes::flag_byte;
use sparse_blocks_rules::{PairRefusal, Paired};
use sparse_rules::{Chunk, ChunkRead, Cursor, Header, Kind, Refusal, Verdict};

// The number that an answer returns: 0, or its refusal's.
pub fn number_of<T>(answer: &Result<T, Refusal>) -> u32
    ensures { result ≡ number_of (answer_of answer.now) }
{
    match answer {
        Ok(_) => 0,
        Err(f) => f.number,
    }
}

// A verdict's place, and its counts of blocks: written, don't care, unknown.
pub fn verdict_answer(v: Verdict) -> [u64; 4]
    ensures { result ≡ verdict_numbers (answer_of v) }
{
    match v {
        Ok(c) => [0, c.written as u64, c.dont_care as u64, c.unknown as u64],
        Err(f) => [f.place, 0, 0, 0],
    }
}

// A header's fields.
pub fn header_answer(h: Header) -> [u64; 6]
    ensures { result ≡ header_numbers h }
{
    [
        h.block as u64,
        h.total as u64,
        h.chunks as u64,
        h.checksum as u64,
        h.start as u64,
        h.head as u64,
    ]
}

// A kind as a number. Kept by hand: they are C's numbers, of which the crate of Kind knows nothing.
fn kind_number(k: Kind) -> u64
    ensures { result ≡ kind_number k }
{
    match k {
        Kind::Raw => 0,
        Kind::Fill => 1,
        Kind::DontCare => 2,
        Kind::Unknown => 3,
    }
}

// A chunk's kind, blocks and data, and the next chunk's offset and first block, after place 0.
fn read_answer(k: Chunk, next: Cursor) -> [u64; 6]
    ensures { result ≡ chunk_numbers (chunk k next) }
{
    let kind = k.kind;
    let number = kind_number(kind);
    [
        0,
        number,
        k.blocks as u64,
        k.body as u64,
        next.at as u64,
        next.first as u64,
    ]
}

// What the chunk reader answers: for a refusal its place, and else 0.
pub fn chunk_answer(r: ChunkRead) -> [u64; 6]
    ensures { result ≡ chunk_numbers (reading_of r) }
{
    match r {
        Ok((k, next)) => read_answer(k, next),
        Err(f) => [f.place, 0, 0, 0, 0, 0],
    }
}

// The place of an answer that counts, and its count: the cut form's blocks stored, or the length of the writer's image.
pub fn count_answer(answer: Result<u64, Refusal>) -> [u64; 2]
    ensures { result ≡ count_numbers (answer_of answer) }
{
    match answer {
        Ok(n) => [0, n],
        Err(f) => [f.place, 0],
    }
}

// The number that an answer about two images returns.
pub fn paired_number(p: Paired) -> u32
    ensures { result ≡ number_of (pairs.answer_of p) }
{
    match p {
        Ok(_) => 0,
        Err(PairRefusal::First(f) | PairRefusal::Second(f)) => f.number,
        Err(PairRefusal::Geometry) => 17,
        Err(PairRefusal::Space) => 18,
    }
}

// The place of an answer about two images, the image that its refusal is of, and how many runs or the joined image's length.
pub fn paired_answer(p: Paired) -> [u64; 3]
    ensures { result ≡ pair_numbers (pairs.image_of p) (pairs.answer_of p) }
{
    match p {
        Ok(n) => [0, 0, n as u64],
        Err(PairRefusal::First(f)) => [f.place, 1, 0],
        Err(PairRefusal::Second(f)) => [f.place, 2, 0],
        Err(PairRefusal::Geometry | PairRefusal::Space) => [0, 0, 0],
    }
}

// A section: whether it is present, its position and its size.
fn section_answer(room: Option<Section>) -> [u64; 3]
    ensures { result ≡ section_of room }
{
    match room {
        Some(s) => [1, s.position, s.size as u64],
        None => [0, 0, 0],
    }
}

// A layout: its version, the five sections that are offered, and whether a retired one is present.
pub fn layout_answer(l: Layout) -> [u64; 17]
    ensures { result ≡ found_numbers l }
{
    let a = section_answer(l.kernel);
    let b = section_answer(l.ramdisk);
    let c = section_answer(l.recovery);
    let d = section_answer(l.dtb);
    let e = section_answer(l.signature);
    let retired = flag_byte(l.retired);
    [
        l.version as u64,
        a[0],
        a[1],
        a[2],
        b[0],
        b[1],
        b[2],
        c[0],
        c[1],
        c[2],
        d[0],
        d[1],
        d[2],
        e[0],
        e[1],
        e[2],
        retired as u64,
    ]
}

// What the finder of sections answers: all 0 for a refusal, which has no layout.
pub fn located_answer(found: Option<Layout>) -> [u64; 17]
    ensures { result ≡ offered_numbers found }
{
    match found {
        Some(l) => layout_answer(l),
        None => [0; 17],
    }
}
