// The second walk: the checksum of an image whose structure holds. Where none is stated it is not made.
ghost use Rattle.std.specs.Prelude.{◌≡◌, List, ◌≤◌, ◌%◌, length};
ghost use Rattle.sparse_rules.specs.declared.Chunk.{Chunk};
ghost use Rattle.sparse_rules.specs.Header.{header_of};
ghost use Rattle.rules.specs.First.{first};
ghost use Rattle.rules.specs.Answer.{accepted, unless};
ghost use Rattle.sparse_rules.specs.Judge.{sum_tests, structure};
ghost use Rattle.sparse_rules.specs.Answers.{answer_of};

use crate::sum::{Sum, settled, sum_chunk};
use sparse_read::{read_chunk, refusal};
use sparse_rules::{Counts, Cursor, Header, Verdict};

// The answer to an image whose structure holds, with these counts of blocks: accepted where it states
// no checksum or the true one, and else refused.
pub(crate) fn checked(image: &[u8], header: Header, counts: Counts) -> Verdict
    requires { (header ≡ header_of image.now) × (header.block ≤ 65536) × (header.block % 4 ≡ 0) }
    ensures { (ks : List Chunk) → structure image.now (length image.now) ≡ accepted ks
        → answer_of result ≡ unless (first (sum_tests image.now ks)) 24 (accepted counts) }
{
    if header.checksum == 0 {
        return Ok(counts);
    }
    let mut cursor = Cursor {
        at: header.start as usize,
        first: 0,
    };
    let mut sum = Sum {
        state: crc32::start(),
        zeros: 0,
    };
    for _turn in 0..header.chunks {
        let (chunk, next) = read_chunk(image, header, cursor)?;
        sum = sum_chunk(sum, image, header.block, chunk);
        cursor = next;
    }
    if crc32::finish(settled(sum)) != header.checksum {
        return Err(refusal(11, 24));
    }
    Ok(counts)
}
