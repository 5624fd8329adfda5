// The next blocks of two images, joined: the second's where it writes them, and else the first's. As many are taken at a time
// as both chunks have and are of one kind.
ghost use Rattle.std.specs.Prelude.{◌≤◌, ◌<◌};
ghost use Rattle.sparse_rules.specs.Facts.{Summable};
ghost use Rattle.sparse_blocks_rules.specs.Beside.{Beside};
ghost use Rattle.sparse_join_rules.specs.Ahead.{FirstAlike, JoinedAlike};

use sparse_blocks::{Pair, writes};
use sparse_blocks_rules::Piece;
use sparse_rules::{Chunk, Kind};
use sparse_write_rules::Stored;

// The first of n blocks of a chunk that are of one kind. The data of a raw chunk are scanned as flat ones are.
#[tactic(auto, using(sparse_join_rules::proofs::Fronts::first_kept))]
fn first_alike(image: &[u8], chunk: Chunk, block: u32, n: u32) -> Piece<Option<Stored>>
    requires { Summable image.now block chunk × (4 ≤ block) × (0 < n) × (n ≤ chunk.blocks) }
    ensures { FirstAlike image.now block chunk n result.kind result.blocks }
{
    let kind = chunk.kind;
    let body = chunk.body;
    match kind {
        Kind::Raw => {
            let end = body + n as usize * block as usize;
            let data = &image[body..end];
            let first = sparse_scan::first_kind(data, block);
            let run = sparse_scan::first_run(data, block, 0, first);
            Piece {
                kind: first,
                blocks: run.blocks as u32,
            }
        }
        Kind::Fill => {
            let word = fields_read::read32(image, body);
            Piece {
                kind: Some(Stored::Fill(word as u64)),
                blocks: n,
            }
        }
        Kind::DontCare | Kind::Unknown => Piece {
            kind: None,
            blocks: n,
        },
    }
}

// The next blocks, joined. Inlined, so that the pair is not copied for a call.
#[inline(always)]
pub(crate) fn front(p: Pair<'_>) -> Piece<Option<Stored>>
    requires { Beside p.first.now p.second.now p.a p.b × (0 < p.a.chunk.blocks) }
    ensures { JoinedAlike p.entry.first.now p.entry.second.now p.entry.a p.entry.b result.kind result.blocks }
{
    let x = p.a.chunk;
    let y = p.b.chunk;
    let other = y.kind;
    let n = x.blocks.min(y.blocks);
    if writes(other) {
        return first_alike(p.second, y, p.b.header.block, n);
    }
    first_alike(p.first, x, p.a.header.block, n)
}
