// What changed between two sparse images: the longest runs of blocks that neither writes, that only one of them writes, that
// both write alike, and that both write differently. Where both images write and one is raw, a step is one block; else it is all
// blocks that two chunks have in common, however many they are. With little room the blocks are gone over twice.
#![tactic(auto)]

mod front;
mod growing;

ghost use Rattle.std.specs.Prelude.{◌≡◌, ◌*◌, leb, length};
ghost use Rattle.sparse_blocks_rules.specs.Pairs.{answer_of, image_of, refused_image, Matched};
ghost use Rattle.sparse_diff_rules.specs.Diff.{diff, answer, listed};
ghost use Rattle.sparse_diff_rules.specs.Laid.{laid};

use front::front;
use growing::{grow, put_run};
use sparse_blocks::Pair;
use sparse_blocks_rules::{PairRefusal, Paired};
use sparse_diff_rules::{Change, Growing};

// Lists the runs of two images that match, and answers how many there are. Those that have no room are counted and not put.
fn list(first: &[u8], second: &[u8], space: &mut [u32]) -> usize
    requires { Matched first.now second.now }
    ensures answer { result ≡ length (diff first.now second.now) }
    ensures contents { space.new ≡ laid space.old 0 0 (diff first.now second.now) }
{
    let mut pair = Pair::open(first, second);
    let mut growing = Growing {
        runs: 0,
        first: 0,
        blocks: 0,
        kind: Change::Neither,
    };
    // Kept by hand: an iterator over what is in front would hold this pair, and its `next` would be this body.
    while 0 < pair.a.chunk.blocks {
        let f = front(pair);
        growing = grow(space, growing, f);
        pair.pass(f.blocks);
    }
    put_run(space, growing)
}

// Whether the runs of two images that match have room. Where there is room for a run of each block they need not be counted.
fn fits(first: &[u8], second: &[u8], room: usize) -> bool
    requires { Matched first.now second.now }
    ensures { result ≡ leb (3 * length (diff first.now second.now)) room }
{
    let blocks = sparse_read::read_header(first).total as usize;
    if 3 * blocks <= room {
        return true;
    }
    let mut none = [0u32; 0];
    let runs = list(first, second, &mut none);
    3 * runs <= room
}

// What changed from the first image to the second: the runs go into the space, three numbers each, and the answer is how
// many. A refusal leaves the space as it was.
pub fn compare(first: &[u8], second: &[u8], space: &mut [u32]) -> Paired
    ensures answer { answer_of result ≡ answer first.now second.now (length space.old) }
    ensures image { image_of result ≡ refused_image first.now second.now }
    ensures contents { space.new ≡ listed first.now second.now space.old }
{
    sparse_match::matched(first, second)?;
    if fits(first, second, space.len()) {
        return Ok(list(first, second, space));
    }
    Err(PairRefusal::Space)
}
