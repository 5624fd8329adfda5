// The image as it grows: blocks of the last chunk's kind lengthen it, others begin the next.
ghost use Rattle.std.specs.Prelude.{◌≡◌, ◌+◌, ◌*◌, ◌≤◌, ◌<◌};
ghost use Rattle.sparse_join_rules.specs.Grows.{begun, ended_for, turned_to, lengthened, settled_by, sum_turned};

use sparse_join_rules::Growing;
use sparse_write_rules::Stored;

// Before the first block. The header's place is left free.
pub(crate) fn begun() -> Growing
    ensures { result ≡ begun }
{
    Growing {
        at: 28,
        chunks: 0,
        kind: None,
        blocks: 0,
    }
}

// After the last chunk: one of a kind that has no block yet.
pub(crate) fn ended(g: Growing, kind: Option<Stored>, block: u32) -> Growing
    requires { (g.blocks * block ≤ 2147483648) × (g.at < 1099511627776) × (g.chunks < 4294967295) }
    ensures { result ≡ ended_for block g kind }
{
    if g.blocks == 0 {
        return Growing { kind, ..g };
    }
    let len = sparse_read::bytes_of(g.blocks, block);
    let size = sparse_put::chunk_size(g.kind, len as u32);
    Growing {
        at: g.at + size as usize,
        chunks: g.chunks + 1,
        kind,
        blocks: 0,
    }
}

// Where blocks of a kind go: into the last chunk where it is of that kind, and else into one after it.
#[tactic(auto, using(sparse_write_rules::proofs::KindOf::told))]
pub(crate) fn turned_to(g: Growing, kind: Option<Stored>, block: u32) -> Growing
    requires { (g.blocks * block ≤ 2147483648) × (g.at < 1099511627776) × (g.chunks < 4294967295) }
    ensures { result ≡ turned_to block g kind }
{
    if kind == g.kind {
        g
    } else {
        ended(g, kind, block)
    }
}

// With n blocks more in the last chunk.
pub(crate) fn lengthened(g: Growing, n: u32) -> Growing
    requires { g.blocks + n < 4294967296 }
    ensures { result ≡ lengthened g n }
{
    Growing {
        blocks: g.blocks + n,
        ..g
    }
}

// The checksum's state once the blocks of the last chunk are taken. Raw ones have been, as they were put.
pub(crate) fn settled(g: Growing, block: u32, state: u32) -> u32
    ensures { result ≡ settled_by block g state }
{
    let len = sparse_read::bytes_of(g.blocks, block);
    match g.kind {
        None => crc32::update_zeros(state, len),
        Some(Stored::Raw) => state,
        Some(Stored::Fill(word)) => crc32::update_word(state, (word % 4294967296) as u32, len / 4),
    }
}

// The checksum's state where blocks of a kind go: a last chunk of another kind has ended.
#[tactic(auto, using(sparse_write_rules::proofs::KindOf::told))]
pub(crate) fn sum_turned(g: Growing, kind: Option<Stored>, block: u32, state: u32) -> u32
    ensures { result ≡ sum_turned block g kind state }
{
    if kind != g.kind {
        settled(g, block, state)
    } else {
        state
    }
}
