// The totals over the images of a folder: reads 1.img, 2.img and on, and prints their report.
#![tactic(auto)]

use report_rules::Report;
use std::fs::File;
use std::io;
use std::io::{ErrorKind, Read, Write};
use std::ops::ControlFlow;
use std::rt::Files;

// The file of a number, counted; one that is missing ends it. One byte more than an image may have is read, so that a
// longer file is seen. A read that fails ends the file as its end does, so a folder is a file of no bytes; no memory for the
// bytes is a failure of its own.
fn take(
    rt: &(impl Files + AllocGlobal),
    report: Report,
    index: u64,
) -> io::Result<ControlFlow<Report, Report>> {
    let mut name = [0u8; 24];
    let len = report_folder::put_name(&mut name, index);
    let path = str::from_utf8(&name[..len]).unwrap();
    let Ok(file) = File::open(rt, path) else {
        return Ok(ControlFlow::Break(report));
    };
    let mut bytes = Vec::new(rt.alloc());
    if let Err(error) = file.take(65537).read_to_end(&mut bytes) {
        if error.kind() == ErrorKind::OutOfMemory {
            return Err(error);
        }
    }
    Ok(report_folder::next(report, &bytes))
}

// The report of the files, one after the other.
fn totals(rt: &(impl Files + AllocGlobal)) -> io::Result<Report> {
    let mut report = report::empty();
    for index in 1..u64::MAX {
        match take(rt, report, index)? {
            ControlFlow::Continue(after) => report = after,
            ControlFlow::Break(last) => return Ok(last),
        }
    }
    Ok(report)
}

// The buffer has room for every text (`text_most` of report_rules).
fn main(rt: HostRuntime) -> io::Result<()> {
    let report = totals(&rt)?;
    let mut text = [0u8; 486];
    let len = report_text::put_text(&mut text, report);
    rt.stdout().write_all(&text[..len])
}
