// Bytes fed to a pass, a stretch at a time: bytes that are passed over and raw data as far as the piece has them, a chunk
// header or a fill word at once where it lies whole in the piece, and all others one by one. The piece is never copied.
#![tactic(auto)]

mod data;
mod heads;

ghost use Rattle.std.specs.Prelude.{◌≡◌, cond, ◌+◌, ◌≤◌, leb, length};
ghost use Rattle.sparse_stream_rules.specs.Steps.{fed};
ghost use Rattle.sparse_stream_rules.specs.Laid.{stores};
ghost use Rattle.sparse_stream_feed.specs.Stretch.{at_once, stretch, Turn};

use data::{advance, take_fill, take_raw, take_word};
use heads::{gather, take_head, take_header};
use sparse_rules::Kind;
use sparse_stream_lay::lay;
use sparse_stream_rules::Pass;
use sparse_stream_state::{data_bytes, is_stuck, kind_now};
use sparse_stream_tests::settle;

// How many bytes of so many are taken where n are wanted at once: these, if they begin here and lie whole among them.
fn at_once(here: bool, n: usize, rest: usize) -> usize
    ensures { result ≡ at_once here n rest }
{
    if here & (n <= rest) { n } else { 1 }
}

// How many bytes of so many the next turn takes.
fn next_stretch(x: Pass, rest: usize) -> usize
    ensures { result ≡ stretch x rest }
{
    if x.come.bytes < 28 {
        return 1;
    }
    if x.come.bytes < x.walk.next.at {
        let gap = x.walk.next.at - x.come.bytes;
        let kind = kind_now(x);
        let data = data_bytes(kind, x);
        if data < gap {
            return usize::min(gap - data, rest);
        }
        match kind {
            Kind::Raw => return usize::min(gap, rest),
            Kind::Fill => return at_once(gap == 4, 4, rest),
            Kind::DontCare | Kind::Unknown => return 1,
        }
    }
    at_once(x.come.bytes == x.walk.next.at, 12, rest)
}

// A turn: the bytes of a stretch.
fn turn(x: Pass, bytes: &[u8]) -> Pass
    requires { Turn x bytes.now × (x.come.bytes + length bytes.now ≤ x.told.length) }
    ensures { result ≡ fed x bytes.now }
{
    let n = bytes.len();
    if x.come.bytes < 28 {
        return take_header(x, bytes[0]);
    }
    if x.come.bytes < x.walk.next.at {
        let kind = kind_now(x);
        if data_bytes(kind, x) < x.walk.next.at - x.come.bytes {
            return settle(advance(x, n, x.come.sum));
        }
        match kind {
            Kind::Raw => return settle(take_raw(x, bytes)),
            Kind::Fill => {
                if n == 4 {
                    return settle(take_fill(x, bytes));
                }
                return settle(take_word(x, bytes[0]));
            }
            Kind::DontCare | Kind::Unknown => return settle(advance(x, n, x.come.sum)),
        }
    }
    if n == 12 {
        return take_head(x, bytes);
    }
    gather(x, bytes[0])
}

// A piece that is no more than announced, a stretch at a time.
fn feed_all(x: Pass, piece: &[u8], partition: &mut [u8]) -> Pass
    requires { x.come.bytes + length piece.now ≤ x.told.length }
    ensures answer { result ≡ fed x piece.now }
    ensures contents { partition.new ≡ stores x piece.now partition.old }
{
    let mut y = x;
    let mut left = piece;
    while !left.is_empty() {
        if is_stuck(y) {
            return y;
        }
        let (bytes, after) = left.split_at(next_stretch(y, left.len()));
        lay(y, bytes, partition);
        y = turn(y, bytes);
        left = after;
    }
    y
}

// A piece fed to a pass; one that is more than announced is not taken.
pub fn feed(x: Pass, piece: &[u8], partition: &mut [u8]) -> Pass
    ensures answer { result ≡ cond (leb (x.come.bytes + length piece.now) x.told.length) (fed x piece.now) x }
    ensures contents { partition.new
        ≡ cond (leb (x.come.bytes + length piece.now) x.told.length) (stores x piece.now partition.old) partition.old }
{
    if x.told.length < x.come.bytes {
        return x;
    }
    if x.told.length - x.come.bytes < piece.len() {
        return x;
    }
    feed_all(x, piece, partition)
}
