// Sparse images written from flat bytes, in two passes over runs of blocks: the first measures the
// image, so that a refusal stores nothing; the second puts its chunks, and the header after them.
// The flat data are read three times at most: scanned twice, and copied where they are raw. The
// checksum is worked out over raw data where they were put, and over a long fill run from its word.
#![tactic(auto)]

mod put;

ghost use Rattle.std.specs.Prelude.{◌≡◌, ◌+◌, ◌≤◌, length};
ghost use Rattle.std.proofs.lemmas.List.Edits.{sets};
ghost use Rattle.crc32_rules.specs.Crc.{crc_from, all_ones};
ghost use Rattle.sparse_write_rules.specs.Write.{answer_of, answer, output};
ghost use Rattle.sparse_write.specs.Flat.{Writable, flat_runs, flat_chunks};

use put::put_chunk;
use sparse_put::chunk_size;
use sparse_read::{block_right, refusal};
use sparse_scan::{first_kind, first_run};
use sparse_write_rules::Written;

// An image's length, and its number of chunks.
#[derive(Clone, Copy)]
struct Extent {
    bytes: usize,
    chunks: u32,
}

// The extent of the image, found before a byte of it is stored.
fn measure(flat: &[u8], block: u32) -> Extent
    requires { Writable flat.now block }
    ensures { (result.bytes ≡ 28 + length (flat_chunks flat.now block))
        × (result.chunks ≡ length (flat_runs flat.now block)) }
{
    let mut bytes: usize = 28;
    let mut count: u32 = 0;
    // Places go on by hand, here and below: only the scan knows how long a run is.
    let mut at: usize = 0;
    let mut kind = first_kind(flat, block);
    while let Some(stored) = kind {
        let run = first_run(flat, block, at, Some(stored));
        bytes = bytes + chunk_size(Some(stored), run.len as u32) as usize;
        count = count + 1;
        at = at + run.len;
        kind = run.next;
    }
    Extent {
        bytes,
        chunks: count,
    }
}

// The chunks of the image, after the file header, and the checksum's state after their bytes.
fn put_chunks(out: &mut [u8], flat: &[u8], block: u32) -> u32
    requires { (28 + length (flat_chunks flat.now block) ≤ length out.old) × Writable flat.now block }
    ensures { (result ≡ crc_from all_ones flat.now)
        × (out.new ≡ sets out.old 28 (flat_chunks flat.now block)) }
{
    let mut state = crc32::start();
    let mut pos: usize = 28;
    let mut at: usize = 0;
    let mut kind = first_kind(flat, block);
    while let Some(stored) = kind {
        let run = first_run(flat, block, at, Some(stored));
        let end = at + run.len;
        state = put_chunk(out, pos, &flat[at..end], stored, run.blocks as u32, state);
        pos = pos + chunk_size(Some(stored), run.len as u32) as usize;
        at = end;
        kind = run.next;
    }
    state
}

// Writes the sparse image of flat data at a block size into `out`, and answers its length.
pub fn write(flat: &[u8], block_size: u32, out: &mut [u8]) -> Written
    ensures { (answer_of result ≡ answer flat.now block_size (length out.old))
        × (out.new ≡ output flat.now block_size out.old) }
{
    if !block_right(block_size) {
        return Err(refusal(5, 0));
    }
    let block = block_size as usize;
    if (2147483648 < flat.len()) | (flat.len() % block != 0) {
        return Err(refusal(13, 0));
    }
    let n = flat.len() / block;
    let m = measure(flat, block_size);
    if out.len() < m.bytes {
        return Err(refusal(12, 0));
    }
    let state = put_chunks(out, flat, block_size);
    sparse_put_header::put_header(out, block_size, n as u32, m.chunks, crc32::finish(state));
    Ok(m.bytes)
}
