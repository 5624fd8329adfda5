// The bytes of the file header and of a chunk header: kept until their known fields have come, then tested.
ghost use Rattle.std.specs.Prelude.{◌≡◌, ◌+◌, ◌-◌, ◌^◌, ◌≤◌, ◌<◌, length};
ghost use Rattle.std.proofs.lemmas.List.Edits.{sets};
ghost use Rattle.sparse_stream_rules.specs.State.{head_of, moved, keeping};
ghost use Rattle.sparse_stream_rules.specs.Steps.{ready, headed, chunk_number, chunk_read, chunk_taken, gathered};

use sparse_kind::count_on;
use sparse_rules::Cursor;
use sparse_stream_rules::{Come, Kept, Pass, Walk};
use sparse_stream_state::{blocks_now, header_of, kind_now, size_now};
use sparse_stream_sum::sum_head;
use sparse_stream_tests::{chunk_number, header_number, refuse, settle};

// A state that keeps these bytes, and has taken so many more.
fn keep(x: Pass, kept: Kept, n: usize) -> Pass
    requires { x.come.bytes + n < 2 ^ 64 }
    ensures { result ≡ moved (keeping x kept) n x.come.sum }
{
    let come = Come {
        bytes: x.come.bytes + n,
        sum: x.come.sum,
    };
    Pass { kept, come, ..x }
}

// The state whose file header's known fields have come: the first chunk is awaited.
fn await_chunks(x: Pass) -> Pass
    ensures { result ≡ ready x }
{
    let header = header_of(x);
    let next = Cursor {
        at: header.start as usize,
        ..x.walk.next
    };
    let walk = Walk {
        next,
        left: header.chunks,
        ..x.walk
    };
    Pass { walk, ..x }
}

// A byte of the file header's known fields.
pub(crate) fn take_header(x: Pass, b: u8) -> Pass
    requires { x.come.bytes < 28 }
    ensures { result ≡ headed x b }
{
    let at = x.come.bytes;
    let mut kept = x.kept;
    kept.file[at] = b;
    let file = kept.file;
    let number = header_number(&file, at + 1, x.told.length, x.told.room);
    let y = keep(x, kept, 1);
    if number == 0 {
        if at + 1 == 28 {
            return settle(await_chunks(y));
        }
        return y;
    }
    refuse(y, number, 0)
}

// Past the size and the blocks of a chunk that is not refused, of so many total blocks.
fn pass_chunk(x: Pass, total: u32) -> Pass
    requires { (chunk_number x ≡ 0) × (total ≡ (head_of x).total) }
    ensures { result ≡ chunk_read x }
{
    let kind = kind_now(x);
    let blocks = blocks_now(x);
    let size = size_now(x);
    let next = Cursor {
        at: x.walk.next.at + size as usize,
        first: x.walk.next.first + blocks,
    };
    let walk = Walk {
        next,
        left: x.walk.left.saturating_sub(1),
        counts: count_on(x.walk.counts, kind, blocks),
    };
    let come = Come {
        bytes: x.come.bytes,
        sum: sum_head(x, kind),
    };
    Pass { walk, come, ..x }
}

// The chunk whose header has come.
fn take_chunk(x: Pass) -> Pass
    ensures { result ≡ chunk_taken x }
{
    let number = chunk_number(x);
    if number == 0 {
        return settle(pass_chunk(x, header_of(x).total));
    }
    refuse(x, number, x.walk.next.at as u64)
}

// A byte of a chunk header's known fields.
pub(crate) fn gather(x: Pass, b: u8) -> Pass
    requires { (x.walk.next.at ≤ x.come.bytes) × (x.come.bytes - x.walk.next.at < 12) × (x.come.bytes < x.told.length) }
    ensures { result ≡ gathered x b }
{
    let i = x.come.bytes - x.walk.next.at;
    let mut kept = x.kept;
    kept.chunk[i] = b;
    let y = keep(x, kept, 1);
    if i == 11 {
        return take_chunk(y);
    }
    y
}

// The known fields of a chunk header, all twelve bytes at once.
pub(crate) fn take_head(x: Pass, bytes: &[u8]) -> Pass
    requires { (x.come.bytes + 12 ≤ x.told.length) × (length bytes.now ≡ 12) }
    ensures { result ≡ chunk_taken (moved (keeping x (record { file = x.kept.file; chunk = sets x.kept.chunk 0 bytes.now; word = x.kept.word })) 12 x.come.sum) }
{
    let mut chunk = x.kept.chunk;
    fields_write::copy(&mut chunk, 0, bytes);
    let kept = Kept { chunk, ..x.kept };
    take_chunk(keep(x, kept, 12))
}
