// Blocks put into the last chunk of the image, and the checksum's state over raw ones; others wait until their chunk ends.
ghost use Rattle.std.specs.Prelude.{◌≡◌, ◌+◌, ◌*◌, ◌≤◌, ◌<◌, length, take, drop};
ghost use Rattle.std.proofs.lemmas.List.Edits.{sets};
ghost use Rattle.crc32_rules.specs.Crc.{crc_from};
ghost use Rattle.sparse_rules.specs.declared.Kind.TheVariants.{Raw};
ghost use Rattle.sparse_rules.specs.Cells.{cells_of, zeroed};
ghost use Rattle.sparse_rules.specs.Facts.{Summable};
ghost use Rattle.sparse_write_rules.specs.Kinds.{raw};
ghost use Rattle.sparse_write_rules.specs.KindOf.{kind_of};
ghost use Rattle.sparse_write_rules.specs.Encode.{chunk_size};
ghost use Rattle.sparse_write_rules.specs.Parts.{chunk_rest};
ghost use Rattle.sparse_write_rules.specs.Blocks.{block_cells};
ghost use Rattle.sparse_blocks_rules.specs.Beside.{Beside};
ghost use Rattle.sparse_join_rules.specs.Ahead.{joined_ahead, JoinedAlike};
ghost use Rattle.sparse_join_rules.specs.Grows.{put_into};

use sparse_blocks::{Pair, writes};
use sparse_join_rules::Growing;
use sparse_rules::Chunk;
use sparse_write_rules::Stored;

// Data of an image put at a place, and the checksum's state after them, where the blocks are raw. Others have none.
fn put_data(
    out: &mut [u8],
    at: usize,
    kind: Option<Stored>,
    image: &[u8],
    body: usize,
    len: usize,
    state: u32,
) -> u32
    requires { kind_of kind ≡ raw → body + len ≤ length image.now }
    ensures { (result ≡ crc_from state (chunk_rest (kind_of kind) (take len (drop body image.now))))
        × (out.new ≡ sets out.old at (chunk_rest (kind_of kind) (take len (drop body image.now)))) }
{
    if kind == Some(Stored::Raw) {
        let end = body + len;
        let data = &image[body..end];
        fields_write::copy(out, at, data);
        return crc32::update(state, data);
    }
    state
}

// The blocks of a chunk of an image put into the last chunk of the output, which is of their kind, and the checksum's state.
fn put_piece(out: &mut [u8], g: Growing, image: &[u8], block: u32, chunk: Chunk, state: u32) -> u32
    requires { Summable image.now block chunk
        × ((g.blocks + chunk.blocks) * block ≤ 2147483648)
        × (g.blocks + chunk.blocks < 4294967296)
        × (g.at + chunk_size (kind_of g.kind) ((g.blocks + chunk.blocks) * block) ≤ length out.old)
        × (kind_of g.kind ≡ raw → chunk.kind ≡ Raw) }
    ensures { (result ≡ crc_from state (chunk_rest (kind_of g.kind) (zeroed (cells_of image.now block chunk))))
        × (out.new ≡ put_into out.old block g chunk.blocks (zeroed (cells_of image.now block chunk))) }
{
    let before = g.blocks as usize * block as usize;
    let len = chunk.blocks as usize * block as usize;
    let size = sparse_put::chunk_size(g.kind, (before + len) as u32);
    sparse_put::put_top(out, g.at, g.kind, g.blocks + chunk.blocks, size as u32);
    let from = g.at + 12 + before;
    put_data(out, from, g.kind, image, chunk.body, len, state)
}

// The next n blocks of two images, joined, put into the last chunk of the output, and the checksum's state.
#[inline(always)]
pub(crate) fn put_front(out: &mut [u8], g: Growing, p: Pair<'_>, n: u32, state: u32) -> u32
    requires { Beside p.first.now p.second.now p.a p.b
        × JoinedAlike p.first.now p.second.now p.a p.b g.kind n
        × ((g.blocks + n) * p.a.header.block ≤ 2147483648)
        × (g.blocks + n < 4294967296)
        × (g.at + chunk_size (kind_of g.kind) ((g.blocks + n) * p.a.header.block) ≤ length out.old) }
    ensures { let pair = p.entry in let ahead = joined_ahead pair.first.now pair.second.now pair.a pair.b n in
        (result ≡ crc_from state (chunk_rest (kind_of g.kind) (zeroed (block_cells pair.a.header.block ahead))))
        × (out.new ≡ put_into out.old pair.a.header.block g n (zeroed (block_cells pair.a.header.block ahead))) }
{
    let x = p.a.chunk;
    let y = p.b.chunk;
    let other = y.kind;
    if writes(other) {
        let chunk = Chunk { blocks: n, ..y };
        return put_piece(out, g, p.second, p.b.header.block, chunk, state);
    }
    let chunk = Chunk { blocks: n, ..x };
    put_piece(out, g, p.first, p.a.header.block, chunk, state)
}
