// The lister's lines, each put into a lent buffer.
#![tactic(auto)]

ghost use Rattle.text.specs.Texts.{Puts};
ghost use Rattle.text_rules.specs.Words.{labelled};
ghost use Rattle.sparse_list_rules.specs.Lines.{kind_word, refused_line, header_line, chunk_line, last_line};

use sparse_rules::{Chunk, Counts, Header, Kind, Refusal};
use text::Text;

// The line of a refusal.
pub fn put_refused(out: &mut Text, refusal: Refusal)
    ensures { Puts out.old (refused_line refusal.number refusal.place) out.new }
{
    out.put_labelled(b"refused ", refusal.number as u64);
    out.put_line(b" at ", refusal.place);
}

// The first line of an accepted image.
pub fn put_header(out: &mut Text, header: Header)
    ensures { Puts out.old (header_line header) out.new }
{
    out.put_labelled(b"block ", header.block as u64);
    out.put_labelled(b" total ", header.total as u64);
    out.put_line(b" chunks ", header.chunks as u64);
}

// What a chunk is called, and a number after it.
fn put_kind(out: &mut Text, kind: Kind, n: u64)
    ensures { Puts out.old (labelled (kind_word kind) n) out.new }
{
    match kind {
        Kind::Raw => out.put_labelled(b" raw ", n),
        Kind::Fill => out.put_labelled(b" fill ", n),
        Kind::DontCare => out.put_labelled(b" skip ", n),
        Kind::Unknown => out.put_labelled(b" unknown ", n),
    }
}

// The line of a chunk whose first block is given.
pub fn put_chunk(out: &mut Text, first: u32, chunk: Chunk)
    ensures { Puts out.old (chunk_line first chunk) out.new }
{
    out.put_number(first as u64);
    put_kind(out, chunk.kind, chunk.blocks as u64);
    out.put(b"\n");
}

// The last line of an accepted image.
pub fn put_last(out: &mut Text, counts: Counts)
    ensures { Puts out.old (last_line counts) out.new }
{
    out.put_labelled(b"ok written ", counts.written as u64);
    out.put_labelled(b" skipped ", counts.dont_care as u64);
    out.put_line(b" unknown ", counts.unknown as u64);
}
