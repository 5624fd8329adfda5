// The reader of an image's blocks: it stands in a chunk that has a block left, or at the end. Blocks are passed in numbers,
// and none is made.
#![tactic(auto)]

ghost use Rattle.std.specs.Prelude.{◌≡◌};
ghost use Rattle.sparse_rules.specs.Counts.{writes};
ghost use Rattle.sparse_blocks_rules.specs.Blocks.{pace};
ghost use Rattle.sparse_blocks_rules.specs.Reading.{nothing, less, passed_by, opened};

use sparse_blocks_rules::Reader;
use sparse_rules::{Chunk, Cursor, Kind};

// Whether the blocks of a kind of chunk are written.
pub fn writes(kind: Kind) -> bool
    ensures { result ≡ writes kind }
{
    matches!(kind, Kind::Raw | Kind::Fill)
}

// How many bytes on the data of a chunk's next block stand.
fn pace(block: u32, kind: Kind) -> u32
    ensures { result ≡ pace block kind }
{
    match kind {
        Kind::Raw => block,
        Kind::Fill | Kind::DontCare | Kind::Unknown => 0,
    }
}

// A chunk without blocks.
fn nothing() -> Chunk
    ensures { result ≡ nothing }
{
    Chunk {
        kind: Kind::DontCare,
        blocks: 0,
        body: 0,
    }
}

// A chunk less its first n blocks, in an image of so many bytes.
fn less(len: usize, block: u32, chunk: Chunk, n: u32) -> Chunk
    ensures { result ≡ less len block chunk n }
{
    let kind = chunk.kind;
    let bytes = n as usize * pace(block, kind) as usize;
    let body = chunk.body.saturating_add(bytes).min(len);
    let blocks = chunk.blocks.saturating_sub(n);
    Chunk { kind, blocks, body }
}

// Past n blocks, on to a chunk that has a block left, or to the last. A chunk that is refused ends the image.
pub fn pass(image: &[u8], reader: Reader, n: u32) -> Reader
    ensures { result ≡ passed_by image.now reader n }
{
    let header = reader.header;
    let mut cursor = reader.cursor;
    let mut left = reader.left;
    let mut chunk = reader.chunk;
    let mut over = n;
    // Kept by hand: the loop ends before the last chunk where blocks are left, and the reader keeps how many chunks come.
    while (chunk.blocks <= over) & (0 < left) {
        let Ok((k, next)) = sparse_read::read_chunk(image, header, cursor) else {
            return Reader {
                header,
                cursor,
                left: 0,
                chunk: nothing(),
            };
        };
        over = over - chunk.blocks;
        chunk = k;
        cursor = next;
        left = left - 1;
    }
    Reader {
        header,
        cursor,
        left,
        chunk: less(image.len(), header.block, chunk, over),
    }
}

// Past n blocks, where the reader stands. Where its chunk has more of them, the chunk alone changes.
#[inline(always)]
fn pass_on(image: &[u8], reader: &mut Reader, n: u32)
    ensures { reader.new ≡ passed_by image.now reader.old n }
{
    if n < reader.chunk.blocks {
        reader.chunk = less(image.len(), reader.header.block, reader.chunk, n);
        return;
    }
    *reader = pass(image, *reader, n);
}

// At the first block of an image.
pub fn open(image: &[u8]) -> Reader
    ensures { result ≡ opened image.now }
{
    let header = sparse_read::read_header(image);
    let start = Reader {
        header,
        cursor: Cursor {
            at: header.start as usize,
            first: 0,
        },
        left: header.chunks,
        chunk: nothing(),
    };
    pass(image, start, 0)
}

// Two images side by side: their bytes, and where each is read.
#[derive(Clone, Copy)]
pub struct Pair<'a> {
    pub first: &'a [u8],
    pub second: &'a [u8],
    pub a: Reader,
    pub b: Reader,
}

impl<'a> Pair<'a> {
    // At the first block of each.
    pub fn open(first: &'a [u8], second: &'a [u8]) -> Pair<'a>
        ensures images { (result.first.now ≡ first.now) × (result.second.now ≡ second.now) }
        ensures readers { (result.a ≡ opened first.now) × (result.b ≡ opened second.now) }
    {
        Pair {
            first,
            second,
            a: open(first),
            b: open(second),
        }
    }

    // Past n blocks of each. Inlined, so that a loop over a pair keeps it in registers and makes no copy of it.
    #[inline(always)]
    pub fn pass(&mut self, n: u32)
        ensures images { (self.new.first.now ≡ self.old.first.now) × (self.new.second.now ≡ self.old.second.now) }
        ensures readers { (self.new.a ≡ passed_by self.old.first.now self.old.a n) × (self.new.b ≡ passed_by self.old.second.now self.old.b n) }
    {
        pass_on(self.first, &mut self.a, n);
        pass_on(self.second, &mut self.b, n);
    }
}
