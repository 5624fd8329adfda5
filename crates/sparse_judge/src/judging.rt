// The judge: header, then structure, then checksum.
ghost use Rattle.std.specs.Prelude.{◌≡◌, length};
ghost use Rattle.sparse_rules.specs.Answers.{answer_of, answer};

use crate::checked::checked;
use sparse_read::checked_header;
use sparse_rules::Verdict;
use sparse_structure::structure;

// Whether an image is accepted for a partition of so many bytes, with its counts of blocks, or its
// first refusal with its place. Raw data are read last, each byte once, and not at all where no
// checksum is stated.
pub fn judge(image: &[u8], partition_len: u64) -> Verdict
    ensures { answer_of result ≡ answer image.now (length image.now) partition_len }
{
    let header = checked_header(image, partition_len)?;
    let counts = structure(image, header)?;
    checked(image, header, counts)
}
