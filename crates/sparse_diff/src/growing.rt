// A list of runs as it grows: blocks of the last run's kind lengthen it, others begin the next.
ghost use Rattle.std.specs.Prelude.{◌≡◌, [], ◌∷◌, ◌+◌, ◌*◌, ◌<◌, length};
ghost use Rattle.fields_rules.specs.Number.{placed};
ghost use Rattle.sparse_write_rules.specs.Runs.{closed};
ghost use Rattle.sparse_diff_rules.specs.Diff.{kind_number};
ghost use Rattle.sparse_diff_rules.specs.Laid.{laid, Grown};

use sparse_blocks_rules::Piece;
use sparse_diff_rules::{Change, Growing};

// A kind's number in the list.
fn kind_number(kind: Change) -> u32
    ensures { result ≡ kind_number kind }
{
    match kind {
        Change::Neither => 0,
        Change::OnlyFirst => 1,
        Change::OnlySecond => 2,
        Change::Equal => 3,
        Change::Different => 4,
    }
}

// Three numbers at a place, where they have room. They are stored one by one: no copy may become a call of memcpy.
fn put(space: &mut [u32], at: usize, first: u32, blocks: u32, kind: u32)
    ensures { space.new ≡ placed space.old at (first ∷ blocks ∷ kind ∷ []) }
{
    if fields_read::within(space.len(), at, 3) {
        space[at] = first;
        space[at + 1] = blocks;
        space[at + 2] = kind;
    }
}

// Puts the run that grows, where it has a block; answers how many runs there are then.
pub(crate) fn put_run(space: &mut [u32], list: Growing) -> usize
    requires { list.runs < 4294967296 }
    ensures answer { result ≡ list.runs + length (closed (kind_number list.kind) list.blocks) }
    ensures contents { space.new ≡ laid space.old list.runs list.first (closed (kind_number list.kind) list.blocks) }
{
    if list.blocks == 0 {
        return list.runs;
    }
    put(
        space,
        3 * list.runs,
        list.first,
        list.blocks,
        kind_number(list.kind),
    );
    list.runs + 1
}

// The list with some blocks more.
pub(crate) fn grow(space: &mut [u32], list: Growing, f: Piece<Change>) -> Growing
    requires { (list.runs < 4294967296) × (list.first + list.blocks + f.blocks < 4294967296) × (0 < f.blocks) }
    ensures { Grown space.old list (kind_number f.kind) f.blocks space.new result }
{
    if f.kind == list.kind {
        return Growing {
            blocks: list.blocks + f.blocks,
            ..list
        };
    }
    let runs = put_run(space, list);
    Growing {
        runs,
        first: list.first + list.blocks,
        blocks: f.blocks,
        kind: f.kind,
    }
}
