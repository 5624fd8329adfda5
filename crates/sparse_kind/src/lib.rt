// The kinds of chunks: what a chunk's type says of it, the total size that each kind must have, and where its blocks count.
#![tactic(auto)]

ghost use Rattle.std.specs.Prelude.{◌≡◌};
ghost use Rattle.sparse_rules.specs.Chunks.{kind_of, size_right};
ghost use Rattle.sparse_rules.specs.Counts.{counted_on};

use sparse_header::bytes_of;
use sparse_rules::{Counts, Header, Kind};

// What a chunk's type says of it. No `From`, which would have to stand beside Kind, in a crate without code.
#[tactic(auto, unfolding(sparse_rules::specs::Chunks::kind_of))]
pub fn kind_of(t: u16) -> Kind
    ensures { result ≡ kind_of t }
{
    match t {
        0xCAC1 => Kind::Raw,
        0xCAC2 => Kind::Fill,
        0xCAC3 => Kind::DontCare,
        _ => Kind::Unknown,
    }
}

// Whether a chunk's total size is right for its kind, at every header.
#[tactic(auto, unfolding(sparse_rules::specs::Chunks::size_right))]
pub fn size_right(header: Header, kind: Kind, blocks: u32, size: u32) -> bool
    ensures { result ≡ size_right header kind blocks size }
{
    let head = header.head as u64;
    let given = size as u64;
    match kind {
        Kind::Raw => given == head + bytes_of(blocks, header.block),
        Kind::Fill => given == head + 4,
        Kind::DontCare => given == head,
        Kind::Unknown => (head <= given) & (given % 4 == 0),
    }
}

// The counts with so many blocks more, of a chunk of this kind. A count that passes 32 bits begins again at 0; none of an
// image that is accepted does.
#[tactic(auto, unfolding(sparse_rules::specs::Counts::counted_on))]
pub fn count_on(counts: Counts, kind: Kind, blocks: u32) -> Counts
    ensures { result ≡ counted_on counts kind blocks }
{
    let mut more = counts;
    match kind {
        Kind::Raw | Kind::Fill => more.written = counts.written.wrapping_add(blocks),
        Kind::DontCare => more.dont_care = counts.dont_care.wrapping_add(blocks),
        Kind::Unknown => more.unknown = counts.unknown.wrapping_add(blocks),
    }
    more
}
