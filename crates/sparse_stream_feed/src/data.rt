// The bytes of a chunk's data: counted in the checksum, those of a fill word kept until it is whole.
ghost use Rattle.std.specs.Prelude.{◌≡◌, ◌+◌, ◌≤◌, ◌<◌, length};
ghost use Rattle.sparse_stream_rules.specs.State.{head_of, gap, moved};
ghost use Rattle.sparse_stream_rules.specs.Steps.{sum_on, word_kept, worded};
ghost use Rattle.sparse_stream_feed.specs.Stretch.{word_taken};

use sparse_stream_rules::{Come, Kept, Pass};
use sparse_stream_sum::{sum_fill, sum_raw};

// The fill word with one byte more.
pub(crate) fn keep_word(x: Pass, b: u8) -> Pass
    requires { (x.come.bytes < x.walk.next.at) × (gap x ≤ 4) }
    ensures { result ≡ word_kept x b }
{
    let i = 4 - (x.walk.next.at - x.come.bytes);
    let mut kept = x.kept;
    kept.word[i] = b;
    Pass { kept, ..x }
}

// A state that has taken so many bytes more, with the checksum's state.
pub(crate) fn advance(x: Pass, n: usize, sum: u32) -> Pass
    requires { x.come.bytes + n ≤ x.told.length }
    ensures { result ≡ moved x n sum }
{
    let come = Come {
        bytes: x.come.bytes + n,
        sum,
    };
    Pass { come, ..x }
}

// A byte of a fill word.
pub(crate) fn take_word(x: Pass, b: u8) -> Pass
    requires { (x.come.bytes < x.walk.next.at) × (gap x ≤ 4) × (x.come.bytes < x.told.length) }
    ensures { result ≡ worded x b }
{
    let y = keep_word(x, b);
    if x.walk.next.at - x.come.bytes == 1 {
        return advance(y, 1, sum_fill(y));
    }
    advance(y, 1, x.come.sum)
}

// A fill word, all four bytes at once.
pub(crate) fn take_fill(x: Pass, bytes: &[u8]) -> Pass
    requires { (x.come.bytes + 4 ≤ x.told.length) × (length bytes.now ≡ 4) }
    ensures { result ≡ word_taken x bytes.now }
{
    let mut word = x.kept.word;
    fields_write::copy(&mut word, 0, bytes);
    let kept = Kept { word, ..x.kept };
    let y = Pass { kept, ..x };
    advance(y, 4, sum_fill(y))
}

// Raw data.
pub(crate) fn take_raw(x: Pass, bytes: &[u8]) -> Pass
    requires { x.come.bytes + length bytes.now ≤ x.told.length }
    ensures { result ≡ moved x (length bytes.now) (sum_on (head_of x) x.come.sum bytes.now) }
{
    advance(x, bytes.len(), sum_raw(x, bytes))
}
