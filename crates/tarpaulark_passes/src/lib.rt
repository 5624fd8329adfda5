// The passes over a state in lent bytes, with answers as numbers: 0 or the number of the refusal, and an array.
// Any bytes at all are a state.
#![tactic(auto)]

ghost use Rattle.std.specs.Prelude.{◌≡◌, length};
ghost use Rattle.sparse_rules.specs.Answers.{answer_of};
ghost use Rattle.sparse_stream_rules.specs.States.{begun, answer_now};
ghost use Rattle.sparse_stream_rules.specs.Passes.{judge_call, store_call, store_leaves, judge_at_end, store_at_end};
ghost use Rattle.sparse_stream_bytes.specs.Layout.{pass_of};
ghost use Rattle.tarpaulark_passes.specs.Handed.{Held, Handed, HandedAnswer};

use sparse_stream::Finished;
use sparse_stream_bytes::{pass_bytes, pass_of};
use sparse_stream_rules::Pass;
use tarpaulark_numbers::{number_of, verdict_answer};

// Hands over what a call with a piece made of the pass.
fn hand_over(x: Pass, bytes: &mut [u8; 112], out: &mut [u64; 1]) -> u32
    ensures { Handed x result out.new bytes.new }
{
    *bytes = pass_bytes(x);
    if 0 < x.refusal.number {
        *out = [x.refusal.place];
    } else {
        *out = [0];
    }
    x.refusal.number
}

// Hands over what a call that finishes made of the pass. Kept beside hand_over: the two share one line, and answer by two
// definitions.
fn hand_over_answer(f: Finished, bytes: &mut [u8; 112], out: &mut [u64; 4]) -> u32
    requires { answer_of f.verdict ≡ answer_now f.pass }
    ensures { HandedAnswer f.pass result out.new bytes.new }
{
    let pass = f.pass;
    let verdict = f.verdict;
    *bytes = pass_bytes(pass);
    *out = verdict_answer(verdict);
    number_of(&verdict)
}

// Begins a pass over an image of so many bytes, for a partition of so many bytes.
pub fn begin(length: u64, partition_len: u64, bytes: &mut [u8; 112])
    ensures { Held (begun length partition_len) bytes.new }
{
    *bytes = pass_bytes(sparse_stream::begin(length as usize, partition_len));
}

// A piece for the judging pass.
pub fn judge_piece(bytes: &mut [u8; 112], piece: &[u8], out: &mut [u64; 1]) -> u32
    ensures { Handed (judge_call (pass_of bytes.old) piece.now) result out.new bytes.new }
{
    let made = sparse_stream::judge_piece(pass_of(*bytes), piece);
    hand_over(made, bytes, out)
}

// Finishes the judging pass.
pub fn judge_finish(bytes: &mut [u8; 112], out: &mut [u64; 4]) -> u32
    ensures { HandedAnswer (judge_at_end (pass_of bytes.old)) result out.new bytes.new }
{
    let made = sparse_stream::judge_finish(pass_of(*bytes));
    hand_over_answer(made, bytes, out)
}

// A piece for the storing pass, which is lent the partition.
pub fn store_piece(
    bytes: &mut [u8; 112],
    piece: &[u8],
    partition: &mut [u8],
    out: &mut [u64; 1],
) -> u32
    ensures answer { Handed (store_call (pass_of bytes.old) (length partition.old) piece.now) result out.new bytes.new }
    ensures contents { partition.new ≡ store_leaves (pass_of bytes.old) piece.now partition.old }
{
    let made = sparse_stream::store_piece(pass_of(*bytes), piece, partition);
    hand_over(made, bytes, out)
}

// Finishes the storing pass, which is lent the partition once more.
pub fn store_finish(bytes: &mut [u8; 112], partition: &[u8], out: &mut [u64; 4]) -> u32
    ensures { HandedAnswer (store_at_end (pass_of bytes.old) (length partition.now)) result out.new bytes.new }
{
    let made = sparse_stream::store_finish(pass_of(*bytes), partition);
    hand_over_answer(made, bytes, out)
}
