// The images of a folder: the name of each file, and what counting it leaves.
#![tactic(auto)]

ghost use Rattle.std.specs.Prelude.{◌≡◌};
ghost use Rattle.text_rules.specs.Put.{Put};
ghost use Rattle.report_rules.specs.Folder.{file_name, turn_of, turn};

use report_rules::Report;
use std::ops::ControlFlow;
use text::Text;
use text_rules::{LONGEST, PARTITION};

// Puts the name of the file of a number at the start of a buffer, and answers how long it is.
pub fn put_name(out: &mut [u8], n: u64) -> usize
    ensures { Put out.old 0 (file_name n) out.new result }
{
    let mut name = Text::at(out, 0);
    name.put_number(n);
    name.put(b".img");
    name.len()
}

// Counts a file. One that is too long is not counted, and ends it, as a refusal of counting does.
pub fn next(report: Report, file: &[u8]) -> ControlFlow<Report, Report>
    ensures { turn_of result ≡ turn report file.now }
{
    if LONGEST < file.len() {
        return ControlFlow::Break(report);
    }
    match report::count(report, file, PARTITION) {
        Ok(after) => ControlFlow::Continue(after),
        Err(overflow) => ControlFlow::Break(overflow.report),
    }
}
