// The checksum's state as the data of chunks come. Where the file header states no checksum, none is worked out.
#![tactic(auto)]

ghost use Rattle.std.specs.Prelude.{◌≡◌, true, false};
ghost use Rattle.sparse_rules.specs.Counts.{writes};
ghost use Rattle.sparse_rules.specs.Judge.{sum_stated};
ghost use Rattle.sparse_stream_rules.specs.State.{head_of, span_now};
ghost use Rattle.sparse_stream_rules.specs.Steps.{sum_on, skip_sum, fill_sum};

use sparse_rules::Kind;
use sparse_stream_rules::Pass;
use sparse_stream_state::{header_of, span_now};

// Whether the file header states a checksum.
fn is_stated(x: Pass) -> bool
    ensures { result ≡ sum_stated (head_of x).checksum }
{
    header_of(x).checksum != 0
}

// The state after raw data.
pub fn sum_raw(x: Pass, bytes: &[u8]) -> u32
    ensures { result ≡ sum_on (head_of x) x.come.sum bytes.now }
{
    if is_stated(x) {
        return crc32::update(x.come.sum, bytes);
    }
    x.come.sum
}

// The state after a fill chunk, whose word has come.
pub fn sum_fill(x: Pass) -> u32
    ensures { result ≡ fill_sum true x }
{
    if is_stated(x) {
        let word = x.kept.word;
        return crc32::update_word(x.come.sum, fields_read::read32(&word, 0), span_now(x) / 4);
    }
    x.come.sum
}

// The state after blocks that are skipped, which count as zeros.
fn sum_skipped(x: Pass) -> u32
    ensures { result ≡ skip_sum false (head_of x) (span_now x) x.come.sum }
{
    if is_stated(x) {
        return crc32::update_zeros(x.come.sum, span_now(x));
    }
    x.come.sum
}

// The state after the header of a kind of chunk.
pub fn sum_head(x: Pass, kind: Kind) -> u32
    ensures { result ≡ skip_sum (writes kind) (head_of x) (span_now x) x.come.sum }
{
    match kind {
        Kind::Raw | Kind::Fill => x.come.sum,
        Kind::DontCare | Kind::Unknown => sum_skipped(x),
    }
}
