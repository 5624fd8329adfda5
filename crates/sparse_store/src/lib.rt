// Storing a sparse image on a lent partition: whole, or up to a limit of stored blocks.
#![tactic(auto)]

ghost use Rattle.std.specs.Prelude.{◌≡◌, length, Ok};
ghost use Rattle.sparse_rules.specs.Answers.{answer, answer_of};
ghost use Rattle.sparse_store_rules.specs.Store.{store, store_up_to};
ghost use Rattle.sparse_store_rules.specs.Answers.{cut_answer, cut_answer_of};
ghost use Rattle.sparse_store.specs.Storable.{Storable};

use sparse_rules::{Cursor, Verdict};
use sparse_store_chunk::{store_chunk, taken};
use sparse_store_rules::Stored;

// The first blocks of an accepted image, in order, so many as it is known to have; answers how many.
fn store_blocks(image: &[u8], partition: &mut [u8], count: u64) -> Stored
    requires { Storable image.now (length partition.old) count }
    ensures answer { result ≡ Ok count }
    ensures contents { partition.new ≡ store_up_to count image.now partition.old }
{
    let header = sparse_read::read_header(image);
    let block = header.block as usize;
    let mut cursor = Cursor {
        at: header.start as usize,
        first: 0,
    };
    let mut left = count;
    // Kept by hand: it counts stored blocks, not chunks, and ends with the last of them.
    while 0 < left {
        let (chunk, next) = sparse_read::read_chunk(image, header, cursor)?;
        let take = taken(chunk, left);
        let from = cursor.first as usize * block;
        let bytes = take as usize * block;
        left = left - take;
        cursor = next;
        store_chunk(image, partition, chunk, from, bytes);
    }
    Ok(count)
}

// The cut form: judges the whole image, then stores its first blocks, in order, up to the limit or
// all that it writes; answers how many. A refusal leaves the partition as it was.
pub fn store_limited(image: &[u8], partition: &mut [u8], limit: u64) -> Stored
    ensures answer { cut_answer_of result ≡ cut_answer limit image.now (length partition.old) }
    ensures contents { partition.new ≡ store_up_to limit image.now partition.old }
{
    let counts = sparse_judge::judge(image, partition.len() as u64)?;
    let count = limit.min(counts.written as u64);
    store_blocks(image, partition, count)
}

// The plain store: the cut form with a limit of all blocks that the image writes; answers as the
// judge does, or with what the reader last said where that is a refusal.
pub fn store(image: &[u8], partition: &mut [u8]) -> Verdict
    ensures answer { answer_of result ≡ answer image.now (length image.now) (length partition.old) }
    ensures contents { partition.new ≡ store image.now partition.old }
{
    let found = sparse_judge::judge(image, partition.len() as u64)?;
    store_blocks(image, partition, found.written as u64)?;
    Ok(found)
}
