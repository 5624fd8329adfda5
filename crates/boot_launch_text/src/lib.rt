// The text that says which pairs of release and kernel take a boot image, line after line.
#![tactic(auto)]

ghost use Rattle.text_rules.specs.Put.{Put};
ghost use Rattle.text.specs.Texts.{Puts};
ghost use Rattle.boot_launch_rules.specs.Rules.{with_each, pairs};
ghost use Rattle.boot_launch_rules.specs.Text.{taken_line, taken_lines, text};

use boot_image::locate;
use boot_launch::locate_for;
use boot_launch_lines::{put_pair, put_refused};
use boot_launch_rules::{GENERIC, PLAIN};
use text::Text;
use text_rules::LONGEST;

// Puts the line of a pair where it takes the image, and nothing where it does not.
fn put_taken(out: &mut Text, release: u32, kernel: u32, image: &[u8])
    ensures { Puts out.old (taken_line image.now (record { release = release; kernel = kernel })) out.new }
{
    match locate_for(release, kernel, image) {
        Ok(_) => put_pair(out, release, kernel),
        Err(_) => {}
    }
}

// Puts the lines of a release: plain, then generic.
fn put_release(out: &mut Text, release: u32, image: &[u8])
    ensures { Puts out.old (taken_lines image.now (with_each release)) out.new }
{
    put_taken(out, release, PLAIN, image);
    put_taken(out, release, GENERIC, image);
}

// Puts the lines of all releases, in their order.
fn put_releases(out: &mut Text, image: &[u8])
    ensures { Puts out.old (taken_lines image.now pairs) out.new }
{
    for release in 8u32..14 {
        put_release(out, release, image);
    }
}

// Puts the text of an input.
fn put_input(out: &mut Text, input: &[u8])
    ensures { Puts out.old (text input.now) out.new }
{
    if LONGEST < input.len() {
        return out.put(b"too long\n");
    }
    match locate(input) {
        Ok(_) => put_releases(out, input),
        Err(refusal) => put_refused(out, refusal.number()),
    }
}

// Puts the text of an input at the start of a buffer, and answers how long it is.
pub fn put_text(out: &mut [u8], input: &[u8]) -> usize
    ensures { Put out.old 0 (text input.now) out.new result }
{
    let mut lines = Text::at(out, 0);
    put_input(&mut lines, input);
    lines.len()
}
