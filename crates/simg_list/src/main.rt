// The lister: reads an image from standard input, and prints its text.
#![tactic(auto)]

ghost use Rattle.std.specs.Prelude.{OnOk, IfSome};
ghost use Rattle.std.specs.Io.KnownBytes.{Appends};
ghost use Rattle.sparse_list_rules.specs.Listing.{listing};

use std::alloc::Global;
use std::io;
use std::io::{Read, Write};

// Prints the text of an input. One byte more than an image may have is read, so that longer input is seen; the buffer has
// room for every text (`always_whole` of sparse_list_rules).
fn print_listing<R: Read + Drop, W: Write>(
    alloc: Global,
    input: R,
    output: &mut W,
) -> io::Result<()>
    ensures { OnOk result (IfSome (R.remaining input) (λ s. Appends (W.contents output.old) (W.contents output.new) (listing s))) }
{
    let mut bytes = Vec::new(alloc);
    input.take(65537).read_to_end(&mut bytes)?;
    let mut text = vec![in alloc; 0; 327744]?;
    let Ok(len) = sparse_listing::list(&bytes, &mut text) else {
        return Ok(());
    };
    output.write_all(&text[..len])
}

// Prints the text of standard input.
fn main(rt: HostRuntime) -> io::Result<()> {
    print_listing(rt.alloc(), rt.stdin(), &mut rt.stdout())
}
