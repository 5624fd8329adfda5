// A chunk put at its place of the output, and the checksum's state over the bytes that it stands for.
ghost use Rattle.std.specs.Prelude.{◌≡◌, Some, ◌+◌, ◌/◌, ◌≤◌, length};
ghost use Rattle.std.proofs.lemmas.List.Edits.{sets};
ghost use Rattle.fields_rules.specs.Number.{bytes};
ghost use Rattle.crc32_rules.specs.Crc.{crc_from};
ghost use Rattle.crc32_rules.specs.Power.{repeated};
ghost use Rattle.sparse_write_rules.specs.Encode.{chunk_size, chunk};
ghost use Rattle.sparse_write_rules.specs.KindOf.{kind_of, OfKind};

use sparse_write_rules::Stored;

// From this length on, a run of one word costs less than its bytes one after the other.
const LONG: usize = 128;

// Raw data put at a place, and the state after them, read where they were put.
fn put_data(out: &mut [u8], from: usize, src: &[u8], state: u32) -> u32
    requires { from + length src.now ≤ length out.old }
    ensures { (result ≡ crc_from state src.now) × (out.new ≡ sets out.old from src.now) }
{
    let end = from + src.len();
    fields_write::copy(out, from, src);
    crc32::update(state, &out[from..end])
}

// The state after blocks filled with a word.
fn sum_fill(state: u32, src: &[u8], word: u32) -> u32
    requires { src.now ≡ repeated (length src.now / 4) (bytes 4 word) }
    ensures { result ≡ crc_from state src.now }
{
    if src.len() < LONG {
        crc32::update(state, src)
    } else {
        crc32::update_word(state, word, (src.len() / 4) as u64)
    }
}

// The chunk of so many blocks of a kind, and the state after their bytes.
pub(crate) fn put_chunk(
    out: &mut [u8],
    pos: usize,
    src: &[u8],
    stored: Stored,
    blocks: u32,
    state: u32,
) -> u32
    requires { (pos + chunk_size (kind_of (Some stored)) (length src.now) ≤ length out.old)
        × (length src.now ≤ 2147483648)
        × OfKind (kind_of (Some stored)) src.now }
    ensures { (result ≡ crc_from state src.now)
        × (out.new ≡ sets out.old pos (chunk (kind_of (Some stored)) blocks src.now)) }
{
    let total = sparse_put::chunk_size(Some(stored), src.len() as u32);
    sparse_put::put_top(out, pos, Some(stored), blocks, total as u32);
    match stored {
        Stored::Raw => put_data(out, pos + 12, src, state),
        Stored::Fill(word) => sum_fill(state, src, (word % 4294967296) as u32),
    }
}
