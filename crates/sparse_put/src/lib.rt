// The beginning of a chunk, put at its place of an output, and how long a chunk is. A part that does not fit whole changes
// nothing. A chunk of which nothing is stored is don't care. Of a fill chunk's word the low four bytes count.
#![tactic(auto)]

ghost use Rattle.std.specs.Prelude.{◌≡◌};
ghost use Rattle.fields_rules.specs.Number.{placed};
ghost use Rattle.sparse_write_rules.specs.Kinds.{fill};
ghost use Rattle.sparse_write_rules.specs.KindOf.{kind_of};
ghost use Rattle.sparse_write_rules.specs.Encode.{chunk_size, chunk_header};
ghost use Rattle.sparse_write_rules.specs.Parts.{chunk_top};

use sparse_write_rules::Stored;

// The total size of a chunk of a kind over n bytes of blocks, its header of 12 included.
pub fn chunk_size(kind: Option<Stored>, n: u32) -> u64
    ensures { result ≡ chunk_size (kind_of kind) n }
{
    match kind {
        None => 12,
        Some(Stored::Raw) => 12 + n as u64,
        Some(Stored::Fill(_)) => 16,
    }
}

// A chunk header of 12 bytes: type, size in blocks, total size in bytes.
fn put_head(out: &mut [u8], at: usize, code: u16, blocks: u32, total: u32)
    ensures { out.new ≡ placed out.old at (chunk_header code blocks total) }
{
    if fields_write::room(out.len(), at, 12) < 12 {
        return;
    }
    fields_write::write16(out, at, code);
    fields_write::write16(out, at + 2, 0);
    fields_write::write32(out, at + 4, blocks);
    fields_write::write32(out, at + 8, total);
}

// The header of a fill chunk, and its word.
fn put_fill(out: &mut [u8], at: usize, word: u32, blocks: u32, total: u32)
    ensures { out.new ≡ placed out.old at (chunk_top (fill word) blocks total) }
{
    if fields_write::room(out.len(), at, 16) < 16 {
        return;
    }
    put_head(out, at, 0xCAC2, blocks, total);
    fields_write::write32(out, at + 12, word);
}

// The beginning of a chunk of a kind, by its blocks and its total size: its header, and the word of a fill chunk.
#[tactic(auto, using(sparse_write_rules::proofs::Putting::top_kept, sparse_write_rules::proofs::Putting::top_raw, sparse_write_rules::proofs::Putting::top_fill))]
pub fn put_top(out: &mut [u8], at: usize, kind: Option<Stored>, blocks: u32, total: u32)
    ensures { out.new ≡ placed out.old at (chunk_top (kind_of kind) blocks total) }
{
    match kind {
        None => put_head(out, at, 0xCAC3, blocks, total),
        Some(Stored::Raw) => put_head(out, at, 0xCAC1, blocks, total),
        Some(Stored::Fill(word)) => put_fill(out, at, (word % 4294967296) as u32, blocks, total),
    }
}
