// Numbers of two, four and eight bytes read from a slice of bytes, low byte first.
//
// Every read is total: a byte past the end counts as 0, at every position up to the largest usize.
#![tactic(auto)]

ghost use Rattle.std.specs.Prelude.{◌≡◌, ◌+◌, leb, drop};
ghost use Rattle.fields_rules.specs.Number.{number_at};

use std::array;

// Whether n elements from `at` on lie within a slice of so many.
pub fn within(len: usize, at: usize, n: usize) -> bool
    ensures { result ≡ leb (at + n) len }
{
    n <= len && at <= len - n
}

// The bytes from `at` on, none where that is past the end.
fn rest(s: &[u8], at: usize) -> &[u8]
    ensures { result.now ≡ drop at s.now }
{
    s.get(at..).unwrap_or(&[])
}

// The N bytes at `at`, 0 for each past the end. One test and a single load where the slice has them all: a slice of N bytes
// has its first chunk without another.
fn bytes_at<const N: usize>(s: &[u8], at: usize) -> [u8; N]
    ensures { number_at result 0 N ≡ number_at s.now at N }
{
    if within(s.len(), at, N) {
        if let Some(chunk) = s[at..at + N].first_chunk() {
            return *chunk;
        }
    }
    let left = rest(s, at);
    array::from_fn(|i| left.get(i).copied().unwrap_or(0))
}

// The two bytes at `at`.
#[tactic(auto, unfolding(fields_rules::specs::Number::number_at))]
pub fn read16(s: &[u8], at: usize) -> u16
    ensures { result ≡ number_at s.now at 2 }
{
    u16::from_le_bytes(bytes_at(s, at))
}

// The four bytes at `at`.
#[tactic(auto, unfolding(fields_rules::specs::Number::number_at))]
pub fn read32(s: &[u8], at: usize) -> u32
    ensures { result ≡ number_at s.now at 4 }
{
    u32::from_le_bytes(bytes_at(s, at))
}

// The eight bytes at `at`.
#[tactic(auto, unfolding(fields_rules::specs::Number::number_at))]
pub fn read64(s: &[u8], at: usize) -> u64
    ensures { result ≡ number_at s.now at 8 }
{
    u64::from_le_bytes(bytes_at(s, at))
}
