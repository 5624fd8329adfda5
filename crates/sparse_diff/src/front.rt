// The first blocks that two images have left, as many as have one kind of change and can be told at once.
ghost use Rattle.std.specs.Prelude.{◌≡◌, true, cond, ◌<◌};
ghost use Rattle.sparse_rules.specs.Counts.{writes};
ghost use Rattle.sparse_blocks_rules.specs.Beside.{Beside, InFront};
ghost use Rattle.sparse_diff_rules.specs.Diff.{change, kind_number};

use sparse_blocks::{Pair, writes};
use sparse_blocks_rules::Piece;
use sparse_diff_rules::Change;
use sparse_same::{is_raw, same_block};

// The kind of blocks that both images write.
fn both(same: bool) -> Change
    ensures { kind_number result ≡ cond same 3 4 }
{
    if same {
        Change::Equal
    } else {
        Change::Different
    }
}

// The first blocks, where both images write them: one where either is raw, since the next may be other bytes, and else all
// that both chunks have.
#[inline(always)]
fn written(p: Pair<'_>) -> Piece<Change>
    requires { Beside p.first.now p.second.now p.a p.b × (0 < p.a.chunk.blocks)
        × (writes p.a.chunk.kind ≡ true) × (writes p.b.chunk.kind ≡ true) }
    ensures { InFront change p.entry.first.now p.entry.second.now p.entry.a p.entry.b (kind_number result.kind) result.blocks }
{
    let x = p.a.chunk;
    let y = p.b.chunk;
    let one = x.kind;
    let other = y.kind;
    let kind = both(same_block(p.first, x, p.second, y, p.a.header.block));
    if is_raw(one) | is_raw(other) {
        return Piece { kind, blocks: 1 };
    }
    Piece {
        kind,
        blocks: x.blocks.min(y.blocks),
    }
}

// The first blocks, and their kind of change. Inlined, as `written` is, so that the pair is not copied for a call.
#[inline(always)]
pub(crate) fn front(p: Pair<'_>) -> Piece<Change>
    requires { Beside p.first.now p.second.now p.a p.b × (0 < p.a.chunk.blocks) }
    ensures { InFront change p.entry.first.now p.entry.second.now p.entry.a p.entry.b (kind_number result.kind) result.blocks }
{
    let one = p.a.chunk.kind;
    let other = p.b.chunk.kind;
    let blocks = p.a.chunk.blocks.min(p.b.chunk.blocks);
    let kind = match (writes(one), writes(other)) {
        (true, true) => return written(p),
        (true, false) => Change::OnlyFirst,
        (false, true) => Change::OnlySecond,
        (false, false) => Change::Neither,
    };
    Piece { kind, blocks }
}
