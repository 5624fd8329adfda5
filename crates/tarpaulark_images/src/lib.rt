// An image judged, read, stored and written, with answers as numbers: 0 or the number of the refusal, and a lent array.
#![tactic(auto)]

ghost use Rattle.std.specs.Prelude.{◌≡◌, length};
ghost use Rattle.rules.specs.First.{first};
ghost use Rattle.rules.specs.Answer.{number_of};
ghost use Rattle.sparse_rules.specs.Header.{header_of, header_tests};
ghost use Rattle.sparse_rules.specs.Answers.{answer};
ghost use Rattle.sparse_store_rules.specs.Answers.{cut_answer};
ghost use Rattle.sparse_store_rules.specs.Store.{store, store_up_to};
ghost use Rattle.sparse_write_rules.specs.Write as writer;
ghost use Rattle.tarpaulark_numbers.specs.Numbers.{verdict_numbers, count_numbers, chunk_in, chunk_numbers, header_numbers_by};

use sparse_rules::Cursor;
use tarpaulark_numbers::{chunk_answer, count_answer, header_answer, number_of, verdict_answer};

// Judges an image for a partition of so many bytes.
pub fn judge(image: &[u8], partition_len: u64, out: &mut [u64; 4]) -> u32
    ensures { (result ≡ number_of (answer image.now (length image.now) partition_len))
        × (out.new ≡ verdict_numbers (answer image.now (length image.now) partition_len)) }
{
    let verdict = sparse_judge::judge(image, partition_len);
    *out = verdict_answer(verdict);
    number_of(&verdict)
}

// Reads the file header of an image, for a partition of so many bytes. The array is all 0 for a refusal.
pub fn header(image: &[u8], partition_len: u64, out: &mut [u64; 6]) -> u32
    ensures { (result ≡ first (header_tests image.now (length image.now) partition_len))
        × (out.new ≡ header_numbers_by result (header_of image.now)) }
{
    match sparse_read::checked_header(image, partition_len) {
        Ok(header) => {
            *out = header_answer(header);
            0
        }
        Err(refusal) => {
            *out = [0; 6];
            refusal.number
        }
    }
}

// Reads the chunk at an offset of an image, whose first block is given, by the image's own header.
pub fn chunk(image: &[u8], at: u64, first: u32, out: &mut [u64; 6]) -> u32
    ensures { (result ≡ number_of (chunk_in image.now at first))
        × (out.new ≡ chunk_numbers (chunk_in image.now at first)) }
{
    let header = sparse_read::read_header(image);
    let cursor = Cursor {
        at: at as usize,
        first,
    };
    let read = sparse_read::read_chunk(image, header, cursor);
    *out = chunk_answer(read);
    number_of(&read)
}

// Stores an image on a partition.
pub fn store(image: &[u8], partition: &mut [u8], out: &mut [u64; 4]) -> u32
    ensures { (result ≡ number_of (answer image.now (length image.now) (length partition.old)))
        × (out.new ≡ verdict_numbers (answer image.now (length image.now) (length partition.old)))
        × (partition.new ≡ store image.now partition.old) }
{
    let verdict = sparse_store::store(image, partition);
    *out = verdict_answer(verdict);
    number_of(&verdict)
}

// Stores an image up to a limit of stored blocks.
pub fn store_limited(image: &[u8], partition: &mut [u8], limit: u64, out: &mut [u64; 2]) -> u32
    ensures { (result ≡ number_of (cut_answer limit image.now (length partition.old)))
        × (out.new ≡ count_numbers (cut_answer limit image.now (length partition.old)))
        × (partition.new ≡ store_up_to limit image.now partition.old) }
{
    let stored = sparse_store::store_limited(image, partition, limit);
    *out = count_answer(stored);
    number_of(&stored)
}

// Writes the sparse image of flat bytes.
pub fn write(flat: &[u8], block_size: u32, image: &mut [u8], out: &mut [u64; 2]) -> u32
    ensures { (result ≡ number_of (writer.answer flat.now block_size (length image.old)))
        × (out.new ≡ count_numbers (writer.answer flat.now block_size (length image.old)))
        × (image.new ≡ writer.output flat.now block_size image.old) }
{
    let written = sparse_write::write(flat, block_size, image).map(|len| len as u64);
    *out = count_answer(written);
    number_of(&written)
}
