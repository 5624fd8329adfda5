// What one chunk stores on a lent partition, and how many of its blocks. Where the partition ends
// before the chunk's stretch does, only the bytes that it has are stored.
#![tactic(auto)]

ghost use Rattle.std.specs.Prelude.{◌≡◌, cond, min};
ghost use Rattle.sparse_rules.specs.Cells.{cells_by};
ghost use Rattle.sparse_rules.specs.Counts.{writes};
ghost use Rattle.sparse_store_rules.specs.Store.{laid};

use sparse_rules::{Chunk, Kind};
use sparse_store_bytes::{put_fill, put_raw};

// How many blocks of a chunk are stored, where so many are still to be: none of a chunk that is skipped.
pub fn taken(chunk: Chunk, left: u64) -> u64
    ensures { result ≡ min left (cond (writes chunk.kind) chunk.blocks 0) }
{
    match chunk.kind {
        Kind::Raw | Kind::Fill => left.min(chunk.blocks as u64),
        Kind::DontCare | Kind::Unknown => 0,
    }
}

// The first bytes of a chunk, from a byte of the partition on: only their own stretch is handed on.
pub fn store_chunk(image: &[u8], partition: &mut [u8], chunk: Chunk, from: usize, bytes: usize)
    ensures { partition.new ≡ laid from (cells_by image.now chunk.kind chunk.body bytes) partition.old }
{
    let size = partition.len();
    if size < from {
        return;
    }
    let end = from + bytes.min(size - from);
    match chunk.kind {
        Kind::Raw => put_raw(&mut partition[from..end], image, chunk.body),
        Kind::Fill => put_fill(&mut partition[from..end], image, chunk.body),
        Kind::DontCare | Kind::Unknown => {}
    }
}
