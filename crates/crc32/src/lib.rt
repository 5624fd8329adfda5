// CRC-32 of IEEE 802.3 (reflected, start and final inversion all ones), carried on from a state:
// over a slice, over zero bytes, over a word repeated.
//
// `finish(update(start(), bytes))` is the checksum of bytes; calls of `update`, `update_zeros` and
// `update_word` in a row give the state over the pieces one after the other. A run of n zero bytes
// or of n words costs O(log n) steps for every n, so 2^48 bytes take microseconds.
#![tactic(auto)]

ghost use Rattle.std.specs.Prelude.{◌≡◌};
ghost use Rattle.std.specs.Int.Bits.{bit_xor};
ghost use Rattle.crc32_rules.specs.Crc.{crc32, all_ones};

pub use crc32_lanes::update;
pub use crc32_runs::{update_word, update_zeros};

// The state before the first byte.
pub fn start() -> u32
    ensures { result ≡ all_ones }
{
    0xFFFFFFFF
}

// The checksum of the bytes that led to a state.
pub fn finish(state: u32) -> u32
    ensures { result ≡ bit_xor state all_ones }
{
    state ^ 0xFFFFFFFF
}

// The checksum of a slice.
#[tactic(auto, unfolding(crc32_rules::specs::Crc::crc32))]
pub fn checksum(src: &[u8]) -> u32
    ensures { result ≡ crc32 src.now }
{
    finish(update(start(), src))
}
