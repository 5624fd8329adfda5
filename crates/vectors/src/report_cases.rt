// Reports: an image counted into one, and two added.
use crate::support::{Cases, IMAGE, Sum};
use std::io::Write;
use std::{array, io};

// How many numbers a report has.
const REPORT: usize = 16;

// What a report takes up.
enum Kind {
    Image,
    Report,
}

impl From<u32> for Kind {
    fn from(kind: u32) -> Kind {
        match kind {
            0 => Kind::Image,
            _ => Kind::Report,
        }
    }
}

// Takes the next report.
fn take(cases: &mut Cases<'_>) -> [u64; REPORT] {
    array::from_fn(|_| cases.u64())
}

// The refusal's number of a report that counts the next image, for the partition length before it.
fn count(report: &mut [u64; REPORT], cases: &mut Cases<'_>) -> u32 {
    let partition_len = cases.u64();
    let mut room = [0u8; IMAGE];
    let image = cases.image(&mut room);
    tarpaulark::tarpaulark_report_count(report, image, partition_len)
}

// Prints the values of the next case: the number of the refusal, and the checksum of the report after.
pub(crate) fn case(line: &mut impl Write, cases: &mut Cases<'_>) -> io::Result<()> {
    let kind = Kind::from(cases.u32());
    let mut report = take(cases);
    let number = match kind {
        Kind::Image => count(&mut report, cases),
        Kind::Report => tarpaulark::tarpaulark_report_add(&mut report, &take(cases)),
    };
    let mut sum = Sum::new();
    for n in &report {
        sum.add(&n.to_le_bytes());
    }
    write!(line, " {number} {}", sum.finish())
}
