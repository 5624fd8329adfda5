// Two sparse images made one, in two passes over their blocks side by side: the first measures the image, so that a refusal
// stores nothing; the second puts its chunks and works out its checksum, and the header comes after them. Where the next blocks
// are fill or don't care, a step is all that two chunks have in common, however many they are; where they are raw, it is a run
// that the scan of flat data finds.
#![tactic(auto)]

mod front;
mod growing;
mod put;

ghost use Rattle.std.specs.Prelude.{◌≡◌, ◌≤◌, length};
ghost use Rattle.std.proofs.lemmas.List.Edits.{sets};
ghost use Rattle.crc32_rules.specs.Crc.{crc_from, all_ones};
ghost use Rattle.sparse_blocks_rules.specs.Blocks.{needed};
ghost use Rattle.sparse_blocks_rules.specs.Pairs.{answer_of, image_of, refused_image, Matched};
ghost use Rattle.sparse_join_rules.specs.Join.{join, answer, output};
ghost use Rattle.sparse_join_rules.specs.Image.{joined_bytes, joined_runs, joined_chunks};

use front::front;
use growing::{begun, ended, lengthened, settled, sum_turned, turned_to};
use put::put_front;
use sparse_blocks::Pair;
use sparse_blocks_rules::{PairRefusal, Paired};
use sparse_join_rules::Growing;

// The length of the joined image and its number of chunks, found before a byte of it is stored. It is no call of `put_chunks`
// with an output of no bytes, which would work out the checksum twice.
fn measure(first: &[u8], second: &[u8]) -> Growing
    requires { Matched first.now second.now × (needed first.now ≤ 2147483648) }
    ensures { (result.at ≡ length (join first.now second.now))
        × (result.chunks ≡ length (joined_runs first.now second.now)) }
{
    let mut pair = Pair::open(first, second);
    let mut growing = begun();
    // Kept by hand, here and below: an iterator over what is in front would hold this pair, and its `next` would be this body.
    while 0 < pair.a.chunk.blocks {
        let f = front(pair);
        growing = lengthened(turned_to(growing, f.kind, pair.a.header.block), f.blocks);
        pair.pass(f.blocks);
    }
    ended(growing, None, pair.a.header.block)
}

// The chunks of the joined image, after the file header, and the checksum's state after their bytes.
fn put_chunks(out: &mut [u8], first: &[u8], second: &[u8]) -> u32
    requires { Matched first.now second.now × (needed first.now ≤ 2147483648)
        × (length (join first.now second.now) ≤ length out.old) }
    ensures { (result ≡ crc_from all_ones (joined_bytes first.now second.now))
        × (out.new ≡ sets out.old 28 (joined_chunks first.now second.now)) }
{
    let mut pair = Pair::open(first, second);
    let mut growing = begun();
    let mut state = crc32::start();
    while 0 < pair.a.chunk.blocks {
        let f = front(pair);
        let turned = turned_to(growing, f.kind, pair.a.header.block);
        let summed = sum_turned(growing, f.kind, pair.a.header.block, state);
        state = put_front(out, turned, pair, f.blocks, summed);
        growing = lengthened(turned, f.blocks);
        pair.pass(f.blocks);
    }
    settled(growing, pair.a.header.block, state)
}

// Writes the image that has the effect of the first followed by the second into `out`, and answers its length. A refusal
// leaves `out` as it was.
pub fn join(first: &[u8], second: &[u8], out: &mut [u8]) -> Paired
    ensures answer { answer_of result ≡ answer first.now second.now (length out.old) }
    ensures image { image_of result ≡ refused_image first.now second.now }
    ensures contents { out.new ≡ output first.now second.now out.old }
{
    sparse_match::matched(first, second)?;
    let header = sparse_read::read_header(first);
    if 2147483648 < sparse_read::bytes_of(header.total, header.block) {
        return Err(PairRefusal::Geometry);
    }
    let m = measure(first, second);
    if out.len() < m.at {
        return Err(PairRefusal::Space);
    }
    let state = put_chunks(out, first, second);
    let sum = crc32::finish(state);
    sparse_put_header::put_header(out, header.block, header.total, m.chunks, sum);
    Ok(m.at)
}
