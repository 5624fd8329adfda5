// What bytes that come store on a lent partition: raw data as far as they came, a fill chunk whole once its word is there.
#![tactic(auto)]

ghost use Rattle.std.specs.Prelude.{◌≡◌};
ghost use Rattle.sparse_stream_rules.specs.State.{gap};
ghost use Rattle.sparse_stream_rules.specs.Laid.{fill_laid};
ghost use Rattle.sparse_stream_rules.specs.Steps.{word_kept};
ghost use Rattle.sparse_stream_lay.specs.Laid.{fill_by, stretch_laid};

use sparse_rules::{Chunk, Kind};
use sparse_store_chunk::store_chunk;
use sparse_stream_rules::Pass;
use sparse_stream_state::{end_now, gap_now, is_in_data, kind_now, span_now};

// A fill chunk, whole, by its word.
fn lay_fill(x: Pass, word: &[u8], partition: &mut [u8])
    ensures { partition.new ≡ fill_by x word.now partition.old }
{
    let span = span_now(x) as usize;
    let from = (end_now(x) as usize).saturating_sub(span);
    let chunk = Chunk {
        kind: Kind::Fill,
        blocks: 0,
        body: 0,
    };
    store_chunk(word, partition, chunk, from, span);
}

// A fill chunk, whose word this byte completes.
fn lay_last(x: Pass, b: u8, partition: &mut [u8])
    requires { gap x ≡ 1 }
    ensures { partition.new ≡ fill_laid (word_kept x b) partition.old }
{
    let mut word = x.kept.word;
    word[3] = b;
    lay_fill(x, &word, partition);
}

// What a stretch of bytes stores.
pub fn lay(x: Pass, bytes: &[u8], partition: &mut [u8])
    ensures { partition.new ≡ stretch_laid x bytes.now partition.old }
{
    let n = bytes.len();
    if n == 0 {
        return;
    }
    if !is_in_data(x) {
        return;
    }
    let gap = gap_now(x);
    let kind = kind_now(x);
    match kind {
        Kind::Raw => {
            let chunk = Chunk {
                kind: Kind::Raw,
                blocks: 0,
                body: 0,
            };
            let from = (end_now(x) as usize).saturating_sub(gap);
            store_chunk(bytes, partition, chunk, from, n);
        }
        Kind::Fill => {
            if (n == 4) & (gap == 4) {
                lay_fill(x, bytes, partition);
            } else if gap == 1 {
                lay_last(x, bytes[0], partition);
            }
        }
        Kind::DontCare | Kind::Unknown => {}
    }
}
