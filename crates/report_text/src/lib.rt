// The text of a report in a lent buffer, line after line.
#![tactic(auto)]

ghost use Rattle.text_rules.specs.Put.{Put};
ghost use Rattle.text.specs.Texts.{Puts};
ghost use Rattle.report_rules.specs.Text.{total_lines, refused_line, refused_lines, text};

use report_rules::Report;
use text::Text;

// Puts the lines of the totals.
fn put_totals(out: &mut Text, report: Report)
    ensures { Puts out.old (total_lines report) out.new }
{
    out.put_line(b"accepted ", report.accepted);
    out.put_line(b"blocks ", report.blocks);
    out.put_line(b"bytes ", report.bytes);
    out.put_line(b"skipped ", report.skipped);
    out.put_line(b"largest ", report.largest);
}

// Puts the line of a refusal number and how many images got it, and nothing where none did.
#[tactic(auto, using(text::proofs::Growing::puts_nothing), unfolding(report_rules::specs::Text::refused_line))]
fn put_refused(out: &mut Text, number: u64, count: u64)
    ensures { Puts out.old (refused_line number count) out.new }
{
    if count == 0 {
        return;
    }
    out.put_labelled(b"refused ", number);
    out.put_line(b" ", count);
}

// Puts the lines of all refusal numbers, 1 to 11.
fn put_refusals(out: &mut Text, counts: &[u64; 11])
    ensures { Puts out.old (refused_lines counts.now 1 11) out.new }
{
    for (i, count) in counts.iter().enumerate() {
        put_refused(out, i as u64 + 1, *count);
    }
}

// Puts the text of a report at the start of a buffer, and answers how long it is.
pub fn put_text(out: &mut [u8], report: Report) -> usize
    ensures { Put out.old 0 (text report) out.new result }
{
    let mut lines = Text::at(out, 0);
    put_totals(&mut lines, report);
    put_refusals(&mut lines, &report.refused);
    lines.len()
}
