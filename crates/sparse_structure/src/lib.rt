// The structure of an image, by its chunk headers alone: the judge's first walk.
#![tactic(auto)]

ghost use Rattle.std.specs.Prelude.{◌≡◌, length};
ghost use Rattle.sparse_rules.specs.Walk.{walk, origin};
ghost use Rattle.sparse_rules.specs.Answers.{answer_of, answer_for};

use sparse_kind::count_on;
use sparse_read::{read_chunk, refusal};
use sparse_rules::{Counts, Cursor, Header, Verdict};

// The counts of blocks of an image whose structure holds, or its first refusal from 7 to 10.
pub fn structure(image: &[u8], header: Header) -> Verdict
    ensures { answer_of result ≡ answer_for (walk image.now (length image.now) header header.chunks (origin header)) }
{
    let mut cursor = Cursor {
        at: header.start as usize,
        first: 0,
    };
    let mut counts = Counts {
        written: 0,
        dont_care: 0,
        unknown: 0,
    };
    for _turn in 0..header.chunks {
        let (chunk, next) = read_chunk(image, header, cursor)?;
        counts = count_on(counts, chunk.kind, chunk.blocks);
        cursor = next;
    }
    if cursor.first < header.total {
        return Err(refusal(9, cursor.at));
    }
    if cursor.at < image.len() {
        return Err(refusal(10, cursor.at));
    }
    Ok(counts)
}
