// What the state of a pass says: the header of the chunk that came last, its blocks, and where they lie.
#![tactic(auto)]

ghost use Rattle.std.specs.Prelude.{◌≡◌};
ghost use Rattle.sparse_stream_rules.specs.State.{head_of, kind_now, blocks_now, size_now, span_now, end_now, gap, data_by, stuck, in_data};

use sparse_rules::{Header, Kind};
use sparse_stream_rules::Pass;

// The file header, by its bytes that have come.
pub fn header_of(x: Pass) -> Header
    ensures { result ≡ head_of x }
{
    let file = x.kept.file;
    sparse_read::read_header(&file)
}

// The kind of the chunk whose header came last.
pub fn kind_now(x: Pass) -> Kind
    ensures { result ≡ kind_now x }
{
    let chunk = x.kept.chunk;
    sparse_read::kind_of(fields_read::read16(&chunk, 0))
}

// Its size in blocks.
pub fn blocks_now(x: Pass) -> u32
    ensures { result ≡ blocks_now x }
{
    let chunk = x.kept.chunk;
    fields_read::read32(&chunk, 4)
}

// Its total size in bytes.
pub fn size_now(x: Pass) -> u32
    ensures { result ≡ size_now x }
{
    let chunk = x.kept.chunk;
    fields_read::read32(&chunk, 8)
}

// The bytes of its blocks.
pub fn span_now(x: Pass) -> u64
    ensures { result ≡ span_now x }
{
    sparse_read::bytes_of(blocks_now(x), header_of(x).block)
}

// Where the blocks of the chunks that were read end in the partition.
pub fn end_now(x: Pass) -> u64
    ensures { result ≡ end_now x }
{
    sparse_read::bytes_of(x.walk.next.first, header_of(x).block)
}

// The bytes of the chunk that are still to come.
pub fn gap_now(x: Pass) -> usize
    ensures { result ≡ gap x }
{
    x.walk.next.at.saturating_sub(x.come.bytes)
}

// How many bytes of data a kind of chunk ends with.
pub fn data_bytes(kind: Kind, x: Pass) -> usize
    ensures { result ≡ data_by kind x }
{
    match kind {
        Kind::Raw => usize::min(span_now(x) as usize, end_now(x) as usize),
        Kind::Fill => 4,
        Kind::DontCare | Kind::Unknown => 0,
    }
}

// Whether a state takes no more bytes.
pub fn is_stuck(x: Pass) -> bool
    ensures { result ≡ stuck x }
{
    (0 < x.refusal.number)
        | ((28 <= x.come.bytes) & (12 <= x.come.bytes.saturating_sub(x.walk.next.at)))
}

// Whether the next byte is one of a chunk's data.
pub fn is_in_data(x: Pass) -> bool
    ensures { result ≡ in_data x }
{
    if is_stuck(x) {
        return false;
    }
    let kind = kind_now(x);
    (28 <= x.come.bytes) & (x.come.bytes < x.walk.next.at) & (gap_now(x) <= data_bytes(kind, x))
}
