// Reports by value: an empty one, one image counted, and two added. A report has the totals over the images that it counts.
#![tactic(auto)]

ghost use Rattle.std.specs.Prelude.{◌≡◌, []};
ghost use Rattle.report_rules.specs.Reports.{report_of, counted_of, counted};

use report_rules::{Overflow, Report};
pub use report_sums::add;

// The report of no images.
pub fn empty() -> Report
    ensures { result ≡ report_of [] }
{
    Report {
        accepted: 0,
        blocks: 0,
        bytes: 0,
        skipped: 0,
        largest: 0,
        refused: [0; 11],
    }
}

// A report with one image more, judged for a partition of so many bytes.
pub fn count(report: Report, image: &[u8], partition_len: u64) -> Result<Report, Overflow>
    ensures { counted_of result ≡ counted report (record { image = image.now; room = partition_len }) }
{
    add(report, report_image::report_of(image, partition_len))
}
