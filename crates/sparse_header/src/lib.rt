// The file header: its fields, and the tests that it must pass.
#![tactic(auto)]

ghost use Rattle.std.specs.Prelude.{◌≡◌, ◌&&◌, ◌*◌, leb, length};
ghost use Rattle.rules.specs.First.{first};
ghost use Rattle.rules.specs.Answer.{accepted, unless};
ghost use Rattle.sparse_rules.specs.Header.{header_of, header_size_right, block_size_right, header_tests};
ghost use Rattle.sparse_rules.specs.Answers.{answer_of};

use fields_read::{read16, read32};
use sparse_rules::{Header, Refusal};

// A refusal at a place of the image.
pub fn refusal(number: u32, at: usize) -> Refusal
    ensures { result ≡ record { number = number; place = at } }
{
    Refusal {
        number,
        place: at as u64,
    }
}

// Blocks of so many bytes each, in 64 bits.
pub fn bytes_of(blocks: u32, block: u32) -> u64
    ensures { result ≡ blocks * block }
{
    blocks as u64 * block as u64
}

// The fields by which the chunks are read.
pub fn read_header(image: &[u8]) -> Header
    ensures { result ≡ header_of image.now }
{
    Header {
        block: read32(image, 12),
        total: read32(image, 16),
        chunks: read32(image, 20),
        checksum: read32(image, 24),
        start: read16(image, 8) as u32,
        head: read16(image, 10) as u32,
    }
}

// A header size: so large at least, and a multiple of 4.
fn header_size(least: u32, n: u32) -> bool
    ensures { result ≡ header_size_right least n }
{
    (least <= n) & (n % 4 == 0)
}

// Whether both header sizes keep their rule, and the file header lies inside an input of so many bytes.
pub fn sizes_right(start: u32, head: u32, len: usize) -> bool
    ensures { result ≡ (header_size_right 28 start && header_size_right 12 head && leb start len) }
{
    header_size(28, start) & header_size(12, head) & (start as usize <= len)
}

// Whether a block size is a multiple of 4 from 4 to 65,536.
pub fn block_right(block: u32) -> bool
    ensures { result ≡ block_size_right block }
{
    (4 <= block) & (block <= 65536) & (block % 4 == 0)
}

// The header of an image, for a partition with so much room, or the first of refusals 1 to 6 that applies, at place 0.
pub fn checked_header(image: &[u8], room: u64) -> Result<Header, Refusal>
    ensures { answer_of result ≡ unless (first (header_tests image.now (length image.now) room)) 0 (accepted (header_of image.now)) }
{
    if image.len() < 28 {
        return Err(refusal(1, 0));
    }
    if read32(image, 0) != 0xED26FF3A {
        return Err(refusal(2, 0));
    }
    if read16(image, 4) != 1 {
        return Err(refusal(3, 0));
    }
    let header = read_header(image);
    if !sizes_right(header.start, header.head, image.len()) {
        return Err(refusal(4, 0));
    }
    if !block_right(header.block) {
        return Err(refusal(5, 0));
    }
    if room < bytes_of(header.total, header.block) {
        return Err(refusal(6, 0));
    }
    Ok(header)
}
