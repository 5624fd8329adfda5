// Reads a boot image from standard input, and prints the pairs of launch release and kernel that take it.
#![tactic(auto)]

ghost use Rattle.std.specs.Prelude.{OnOk, IfSome};
ghost use Rattle.std.specs.Io.KnownBytes.{Appends};
ghost use Rattle.boot_launch_rules.specs.Text.{text};

use std::alloc::Global;
use std::io;
use std::io::{Read, Write};

// Prints the text of an input. One byte more than an image may have is read, so that longer input is seen; the buffer has
// room for every text (`text_most` of boot_launch_rules).
fn print_text<R: Read + Drop, W: Write>(alloc: Global, input: R, output: &mut W) -> io::Result<()>
    ensures { OnOk result (IfSome (R.remaining input) (λ s. Appends (W.contents output.old) (W.contents output.new) (text s))) }
{
    let mut bytes = Vec::new(alloc);
    input.take(65537).read_to_end(&mut bytes)?;
    let mut lines = [0u8; 348];
    let len = boot_launch_text::put_text(&mut lines, &bytes);
    output.write_all(&lines[..len])
}

// Prints the text of standard input.
fn main(rt: HostRuntime) -> io::Result<()> {
    print_text(rt.alloc(), rt.stdin(), &mut rt.stdout())
}
