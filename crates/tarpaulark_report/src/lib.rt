// A report in lent numbers: an image counted, and another report added.
#![tactic(auto)]

ghost use Rattle.std.specs.Prelude.{◌≡◌};
ghost use Rattle.report_rules.specs.Reports.{added, counted_of, counted};
ghost use Rattle.tarpaulark_report.specs.Numbers.{report_numbers, report_in};

use report_rules::{Overflow, Report};

// How many numbers a report has.
pub const REPORT: usize = 16;

// The report in an array.
fn report_in(n: [u64; REPORT]) -> Report
    ensures { result ≡ report_in n }
{
    let refused = [
        n[5], n[6], n[7], n[8], n[9], n[10], n[11], n[12], n[13], n[14], n[15],
    ];
    Report {
        accepted: n[0],
        blocks: n[1],
        bytes: n[2],
        skipped: n[3],
        largest: n[4],
        refused,
    }
}

// A report's array.
fn numbers_of(r: Report) -> [u64; REPORT]
    ensures { result ≡ report_numbers r }
{
    let c = r.refused;
    [
        r.accepted, r.blocks, r.bytes, r.skipped, r.largest, c[0], c[1], c[2], c[3], c[4], c[5],
        c[6], c[7], c[8], c[9], c[10],
    ]
}

// Writes what counting or adding answers into the array: 0, or 61 with the report as it was.
fn hand_over(answer: Result<Report, Overflow>, numbers: &mut [u64; REPORT]) -> u32
    ensures { (result ≡ (counted_of answer).number) × (numbers.new ≡ report_numbers (counted_of answer).report) }
{
    let (number, report) = match answer {
        Ok(report) => (0, report),
        Err(overflow) => (61, overflow.report),
    };
    *numbers = numbers_of(report);
    number
}

// Counts an image, judged for a partition of so many bytes: 0, or 61 and the report stays.
pub fn count(report: &mut [u64; REPORT], image: &[u8], partition_len: u64) -> u32
    ensures { (result ≡ (counted (report_in report.old) (record { image = image.now; room = partition_len })).number)
        × (report.new ≡ report_numbers (counted (report_in report.old) (record { image = image.now; room = partition_len })).report) }
{
    hand_over(
        report::count(report_in(*report), image, partition_len),
        report,
    )
}

// Adds another report: 0, or 61 and both stay.
pub fn add(report: &mut [u64; REPORT], other: &[u64; REPORT]) -> u32
    ensures { (result ≡ (added (report_in report.old) (report_in other.now)).number)
        × (report.new ≡ report_numbers (added (report_in report.old) (report_in other.now)).report) }
{
    hand_over(report::add(report_in(*report), report_in(*other)), report)
}
