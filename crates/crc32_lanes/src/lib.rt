// The state after the bytes of a slice: byte after byte where they are few, else the four quarters side by side.
//
// Each step waits for the one before it, so four lanes together go nearly four times as fast as one. Joining them
// takes what a quarter's zero bytes make of one; a fifth lane works it out beside the four, in time that they wait.
#![tactic(auto)]

mod step;

ghost use Rattle.std.specs.Prelude.{◌≡◌, List, ℕ, ◌%◌, length, replicate};
ghost use Rattle.crc32_rules.specs.Crc.{crc_from};
ghost use Rattle.crc32_rules.specs.Power.{unit};

use crc32_runs::carry;
use step::byte;

// One, as a reflected polynomial: the highest bit.
const ONE: u32 = 0x80000000;

// From this length on, four lanes and the joins cost less than one lane.
const LONG: usize = 32;

// The state after the bytes of a slice, byte after byte.
#[tactic(auto, unfolding(crc32_rules::specs::Crc::crc_from))]
fn serial(state: u32, src: &[u8]) -> u32
    ensures { result ≡ crc_from state src.now }
{
    src.iter().fold(state, |s, &x| byte(s, x))
}

// The state after two pieces: `a` after the first, and `b` after the second, from 0. The power stands for
// as many zero bytes as the second has.
fn join(a: u32, b: u32, power: u32) -> u32
    ensures { (xs : List ℕ) → power ≡ crc_from unit (replicate (length xs) 0) → b ≡ crc_from 0 xs → result ≡ crc_from a xs }
{
    carry(a, power) ^ b
}

// The state after the four quarters of a slice. The first lane goes on from the state, each of the others begins at 0;
// the fifth goes over zero bytes, from one.
fn quarters(state: u32, src: &[u8]) -> u32
    requires { length src.now % 4 ≡ 0 }
    ensures { result ≡ crc_from state src.now }
{
    let part = src.len() / 4;
    let mut lanes = [state, 0, 0, 0];
    let mut zeros = ONE;
    // Kept by index: a turn takes a byte of each quarter, which zipped iterators would give as pairs of pairs.
    for i in 0..part {
        lanes = [
            byte(lanes[0], src[i]),
            byte(lanes[1], src[part + i]),
            byte(lanes[2], src[2 * part + i]),
            byte(lanes[3], src[3 * part + i]),
        ];
        zeros = byte(zeros, 0);
    }
    let two = join(lanes[0], lanes[1], zeros);
    let three = join(two, lanes[2], zeros);
    join(three, lanes[3], zeros)
}

// The state after the bytes of a slice.
pub fn update(state: u32, src: &[u8]) -> u32
    ensures { result ≡ crc_from state src.now }
{
    if src.len() < LONG {
        return serial(state, src);
    }
    let (long, rest) = src.split_at(src.len() - src.len() % 4);
    let s = quarters(state, long);
    serial(s, rest)
}
