// The sparse format, piece by piece: the chunk reader, and the functions of the file header and of kinds with it.
#![tactic(auto)]

ghost use Rattle.std.specs.Prelude.{◌≡◌, ◌+◌, length};
ghost use Rattle.fields_rules.specs.Number.{number_at};
ghost use Rattle.sparse_rules.specs.Chunks.{reading};
ghost use Rattle.sparse_rules.specs.Answers.{reading_of};

pub use sparse_header::{block_right, bytes_of, checked_header, read_header, refusal, sizes_right};
pub use sparse_kind::{kind_of, size_right};
use sparse_rules::{Chunk, ChunkRead, Cursor, Header};

// The four bytes so many past a place: a place past the largest usize is past the end too, and reads as 0.
fn field(image: &[u8], at: usize, offset: usize) -> u32
    ensures { result ≡ number_at image.now (at + offset) 4 }
{
    if at < image.len() {
        if offset < image.len() - at {
            return fields_read::read32(image, at + offset);
        }
    }
    0
}

// The chunk at a cursor with the cursor after it, or the refusal with its place; at every header and cursor, so the three
// are no struct with an invariant, and callers read the cursor between two chunks.
pub fn read_chunk(image: &[u8], header: Header, cursor: Cursor) -> ChunkRead
    ensures { reading_of result ≡ reading image.now (length image.now) header cursor }
{
    let at = cursor.at;
    let len = image.len();
    let head = header.head as usize;
    if len < at {
        return Err(refusal(7, at));
    }
    if len - at < head {
        return Err(refusal(7, at));
    }
    let kind = kind_of(fields_read::read16(image, at));
    let blocks = field(image, at, 4);
    let size = field(image, at, 8);
    if !size_right(header, kind, blocks, size) {
        return Err(refusal(8, at));
    }
    let bytes = size as usize;
    if len - at < bytes {
        return Err(refusal(7, at));
    }
    let end = cursor.first as u64 + blocks as u64;
    if (header.total as u64) < end {
        return Err(refusal(9, at));
    }
    let chunk = Chunk {
        kind,
        blocks,
        body: at + head,
    };
    let next = Cursor {
        at: at + bytes,
        first: end as u32,
    };
    Ok((chunk, next))
}
