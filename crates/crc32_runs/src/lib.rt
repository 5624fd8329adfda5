// CRC-32 over runs: n zero bytes, or n times a word, from a state, in O(log n) steps.
//
// n steps of the state are its product by the n-th power of x, and the powers come by squaring. A word leaves one state
// as it is, its fixed point; over the word, the difference of a state from it goes on as over four zero bytes.
#![tactic(auto)]

ghost use Rattle.std.specs.Prelude.{◌≡◌, ℕ, ◌*◌, ◌/◌, ◌%◌, ◌^◌, replicate};
ghost use Rattle.std.specs.Int.Bits.{bit_xor};
ghost use Rattle.crc32_rules.specs.Crc.{bit, steps, crc_from};
ghost use Rattle.fields_rules.specs.Number.{bytes};
ghost use Rattle.crc32_rules.specs.Power.{unit, times, repeated, fixed_point};

// x to the power 8 and to the power 32, as reflected polynomials: a byte's steps, a word's steps.
const BYTE: u32 = 0x00800000;

const WORD: u32 = 0xEDB88320;

// The fixed point of one; that of a word is the word times this.
const FIXED: u32 = 0x39A38F74;

// One bit a step. The mask is all ones where the lowest bit is 1, so that nothing branches on it.
#[tactic(auto, using(crc32_rules::proofs::Linear::bit_masked))]
fn one(state: u32) -> u32
    ensures { result ≡ bit state }
{
    (state / 2) ^ (state % 2 * 0xFFFFFFFF & 0xEDB88320)
}

// `a` where the highest bit of `b` is 1, and 0 elsewhere.
#[tactic(auto, using(crc32_rules::proofs::Linear::times_lt))]
fn term(b: u32, a: u32) -> u32
    ensures { result ≡ b / 2 ^ 31 * a }
{
    b / 0x80000000 * a
}

// The bits below the highest, one place up.
fn up(b: u32) -> u32
    ensures { result ≡ b % 2 ^ 31 * 2 }
{
    b % 0x80000000 * 2
}

// The product of two reflected polynomials modulo the polynomial, two bits of `b` a turn.
fn product(b: u32, a: u32) -> u32
    ensures { result ≡ times b a }
{
    let mut acc = 0;
    let mut left = b;
    let mut power = a;
    for i in 0u32..16 {
        let next = one(power);
        acc = acc ^ term(left, power) ^ term(up(left), next);
        power = one(next);
        left = up(up(left));
    }
    acc
}

// n times: the difference of the state from the word's fixed point is multiplied by `power`. Where that is x to the
// power e, these are n times e one-bit steps.
fn run(state: u32, word: u32, power: u32, n: u64) -> u32
    ensures { (e : ℕ) → power ≡ steps e unit → result ≡ bit_xor (steps (n * e) (bit_xor state (fixed_point word))) (fixed_point word) }
{
    let fixed = product(word, FIXED);
    let mut s = state ^ fixed;
    let mut p = power;
    let mut m = n;
    // Kept a `while`: the count is halved, not counted through.
    while m > 0 {
        if m % 2 == 1 {
            s = product(s, p);
        }
        m /= 2;
        if m > 0 {
            p = product(p, p);
        }
    }
    s ^ fixed
}

// The state after n zero bytes, for which nothing is worked out where there are none. The fixed point of the word 0 is 0.
pub fn update_zeros(state: u32, n: u64) -> u32
    ensures { result ≡ crc_from state (replicate n 0) }
{
    if n == 0 {
        return state;
    }
    run(state, 0, BYTE, n)
}

// The state after n times the four bytes of a word, low byte first.
pub fn update_word(state: u32, word: u32, n: u64) -> u32
    ensures { result ≡ crc_from state (repeated n (bytes 4 word)) }
{
    run(state, word, WORD, n)
}

// The state after as many zero bytes as a power stands for; the power is what they make of one.
#[tactic(auto, using(crc32_rules::proofs::Runs::zeros_times))]
pub fn carry(state: u32, power: u32) -> u32
    ensures { (n : ℕ) → power ≡ crc_from unit (replicate n 0) → result ≡ crc_from state (replicate n 0) }
{
    product(state, power)
}
