// A sparse image that arrives in pieces: a judging pass, and a storing pass. A pass is told the lengths of the image and of
// the partition, is fed pieces, and is finished; only finishing accepts. Its state goes in and comes out by value, and any
// state at all may be handed in.
#![tactic(auto)]

ghost use Rattle.std.specs.Prelude.{◌≡◌, ◌+◌, ltb, length};
ghost use Rattle.sparse_rules.specs.Answers.{answer_of};
ghost use Rattle.sparse_stream_rules.specs.States.{begun, answer_now};
ghost use Rattle.sparse_stream_rules.specs.Passes.{judge_call, store_call, store_leaves, judge_at_end, store_at_end};

use sparse_rules::{Counts, Cursor, Refusal, Verdict};
use sparse_stream_feed::feed;
use sparse_stream_rules::{Come, Kept, Pass, Told, Walk};
use sparse_stream_tests::{opening, refuse};

// A call that finishes a pass: the pass afterwards, and its verdict.
#[derive(Clone, Copy)]
pub struct Finished {
    pub pass: Pass,
    pub verdict: Verdict,
}

// A pass over an image of so many bytes, for a partition of so many bytes. It refuses nothing.
pub fn begin(length: usize, partition_len: u64) -> Pass
    ensures { result ≡ begun length partition_len }
{
    let told = Told {
        length,
        room: partition_len,
    };
    let refusal = Refusal {
        number: 0,
        place: 0,
    };
    let come = Come {
        bytes: 0,
        sum: 0xFFFFFFFF,
    };
    let next = Cursor { at: 0, first: 0 };
    let counts = Counts {
        written: 0,
        dont_care: 0,
        unknown: 0,
    };
    let walk = Walk {
        next,
        left: 0,
        counts,
    };
    let kept = Kept {
        file: [0; 28],
        chunk: [0; 12],
        word: [0; 4],
    };
    Pass {
        told,
        refusal,
        come,
        walk,
        kept,
    }
}

// Whether so many bytes are more than announced.
fn is_over(x: Pass, n: usize) -> bool
    ensures { result ≡ ltb x.told.length (x.come.bytes + n) }
{
    if x.told.length < x.come.bytes {
        return true;
    }
    x.told.length - x.come.bytes < n
}

// A piece for the judging pass.
pub fn judge_piece(x: Pass, piece: &[u8]) -> Pass
    ensures { result ≡ judge_call x piece.now }
{
    if 0 < x.refusal.number {
        return x;
    }
    if is_over(x, piece.len()) {
        return refuse(x, 14, 0);
    }
    let mut none = [0u8; 1];
    feed(opening(x), piece, &mut none[..0])
}

// A piece for the storing pass, which is lent the partition.
pub fn store_piece(x: Pass, piece: &[u8], partition: &mut [u8]) -> Pass
    ensures answer { result ≡ store_call x (length partition.old) piece.now }
    ensures contents { partition.new ≡ store_leaves x piece.now partition.old }
{
    if 0 < x.refusal.number {
        return x;
    }
    if partition.len() as u64 != x.told.room {
        return refuse(x, 16, 0);
    }
    if is_over(x, piece.len()) {
        return refuse(x, 14, 0);
    }
    feed(opening(x), piece, partition)
}

// What the state of a pass that is finished answers.
fn verdict(x: Pass) -> Verdict
    ensures { answer_of result ≡ answer_now x }
{
    if 0 < x.refusal.number {
        return Err(x.refusal);
    }
    Ok(x.walk.counts)
}

// The state of a pass that is finished.
fn finish(x: Pass) -> Pass
    ensures { result ≡ judge_at_end x }
{
    if 0 < x.refusal.number {
        return x;
    }
    if x.come.bytes < x.told.length {
        return refuse(x, 15, 0);
    }
    opening(x)
}

// Finishes the judging pass.
pub fn judge_finish(x: Pass) -> Finished
    ensures { (result.pass ≡ judge_at_end x) × (answer_of result.verdict ≡ answer_now result.pass) }
{
    let y = finish(x);
    let v = verdict(y);
    Finished {
        pass: y,
        verdict: v,
    }
}

// Finishes the storing pass, which is lent the partition once more.
pub fn store_finish(x: Pass, partition: &[u8]) -> Finished
    ensures { (result.pass ≡ store_at_end x (length partition.now)) × (answer_of result.verdict ≡ answer_now result.pass) }
{
    let y = finish_lent(x, partition.len() as u64);
    let v = verdict(y);
    Finished {
        pass: y,
        verdict: v,
    }
}

// The state of a pass that is finished where so many bytes are lent.
fn finish_lent(x: Pass, lent: u64) -> Pass
    ensures { result ≡ store_at_end x lent }
{
    if 0 < x.refusal.number {
        return x;
    }
    if lent != x.told.room {
        return refuse(x, 16, 0);
    }
    finish(x)
}
