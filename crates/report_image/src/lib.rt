// The report of one image.
#![tactic(auto)]

ghost use Rattle.std.specs.Prelude.{◌≡◌, [], ◌∷◌, ◌+◌, ◌*◌, replicate};
ghost use Rattle.rules.specs.Answer.{refused};
ghost use Rattle.sparse_rules.specs.Cells.{tab};
ghost use Rattle.report_rules.specs.Images.{refused_by};
ghost use Rattle.report_rules.specs.Reports.{report_of};

use report_rules::Report;
use sparse_rules::{Counts, Header};

// The report of an accepted image with this header and these counts of blocks.
fn accepted(header: Header, counts: Counts) -> Report
    ensures { result ≡ record { accepted = 1; blocks = counts.written; bytes = counts.written * header.block; skipped = counts.dont_care + counts.unknown; largest = header.total * header.block; refused = replicate 11 0 } }
{
    Report {
        accepted: 1,
        blocks: u64::from(counts.written),
        bytes: sparse_read::bytes_of(counts.written, header.block),
        skipped: u64::from(counts.dont_care) + u64::from(counts.unknown),
        largest: sparse_read::bytes_of(header.total, header.block),
        refused: [0; 11],
    }
}

// The counts of one refusal: 1 under its number, from 1 to 11, and 0 under all others.
fn refused_once(number: u32) -> [u64; 11]
    ensures { result ≡ tab (λ n. refused_by n (refused number 0)) 1 11 }
{
    let mut counts = [0; 11];
    if (1..=11).contains(&number) {
        counts[(number - 1) as usize] = 1;
    }
    counts
}

// The report of an image that is refused with a number.
fn refused(number: u32) -> Report
    ensures { result ≡ record { accepted = 0; blocks = 0; bytes = 0; skipped = 0; largest = 0; refused = tab (λ n. refused_by n (refused number 0)) 1 11 } }
{
    let counts = refused_once(number);
    Report {
        accepted: 0,
        blocks: 0,
        bytes: 0,
        skipped: 0,
        largest: 0,
        refused: counts,
    }
}

// The report of one image, judged for a partition of so many bytes.
pub fn report_of(image: &[u8], partition_len: u64) -> Report
    ensures { result ≡ report_of (record { image = image.now; room = partition_len } ∷ []) }
{
    match sparse_judge::judge(image, partition_len) {
        Ok(counts) => accepted(sparse_read::read_header(image), counts),
        Err(refusal) => refused(refusal.number),
    }
}
