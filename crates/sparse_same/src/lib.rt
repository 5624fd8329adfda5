// Blocks of two images compared where they stand. A fill block is its 4 bytes repeated, and is never made: bytes repeat every
// 4 exactly where each is as the one 4 before it.
#![tactic(auto)]

ghost use Rattle.std.specs.Prelude.{◌≡◌, length};
ghost use Rattle.sparse_blocks_rules.specs.Same.{alike, same_bytes_at, repeats_word, is_raw, same_block};

use sparse_rules::{Chunk, Kind};

// From this length on slices' `==`, which leaves at the first group of bytes that differs, costs no more than a loop.
const LONG: usize = 512;

// Whether two slices of one length hold the same bytes. No branch depends on a byte, so many are compared at a time.
fn equal_short(first: &[u8], second: &[u8]) -> bool
    requires { length second.now ≡ length first.now }
    ensures { result ≡ alike first.now second.now }
{
    let mut same = true;
    for i in 0..first.len() {
        same = same & (first[i] == second[i]);
    }
    same
}

// Whether two slices of one length hold the same bytes.
fn equal(first: &[u8], second: &[u8]) -> bool
    requires { length second.now ≡ length first.now }
    ensures { result ≡ alike first.now second.now }
{
    if first.len() < LONG {
        return equal_short(first, second);
    }
    first == second
}

// Whether two images have n bytes each from a place on, and these are the same.
fn same_bytes(first: &[u8], i: usize, second: &[u8], j: usize, n: usize) -> bool
    ensures { result ≡ same_bytes_at first.now i second.now j n }
{
    if fields_read::within(first.len(), i, n) {
        if fields_read::within(second.len(), j, n) {
            return equal(&first[i..i + n], &second[j..j + n]);
        }
    }
    false
}

// Whether the bytes of a block are 4 bytes of another image repeated.
#[inline(always)]
fn repeats_word(raw: &[u8], i: usize, fill: &[u8], j: usize, block: usize) -> bool
    ensures { result ≡ repeats_word raw.now i fill.now j block }
{
    if same_bytes(raw, i, fill, j, 4) {
        return same_bytes(raw, i + 4, raw, i, block.saturating_sub(4));
    }
    false
}

// Whether the blocks of a kind of chunk have their data one after the other.
pub fn is_raw(kind: Kind) -> bool
    ensures { result ≡ is_raw kind }
{
    matches!(kind, Kind::Raw)
}

// Whether the first blocks of two chunks that write, of a block size, hold the same bytes.
#[inline(always)]
pub fn same_block(first: &[u8], x: Chunk, second: &[u8], y: Chunk, block: u32) -> bool
    ensures { result ≡ same_block first.now x second.now y block }
{
    let size = block as usize;
    let one = x.kind;
    let other = y.kind;
    if is_raw(one) {
        if is_raw(other) {
            return same_bytes(first, x.body, second, y.body, size);
        }
        return repeats_word(first, x.body, second, y.body, size);
    }
    if is_raw(other) {
        return repeats_word(second, y.body, first, x.body, size);
    }
    same_bytes(first, x.body, second, y.body, 4)
}
