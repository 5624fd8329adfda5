// The lister's answer: the text of an input in a lent buffer, and how it stands there.
#![tactic(auto)]

ghost use Rattle.std.specs.Prelude.{◌≡◌, length};
ghost use Rattle.sparse_list_rules.specs.Listing.{held_of, held, output};

use sparse_list_rules::{Listed, TooShort};
use sparse_text::put_listing;

// Puts the text of an input at the start of a buffer, as much of it as has room.
pub fn list(input: &[u8], out: &mut [u8]) -> Listed
    ensures { (held_of result ≡ held input.now (length out.old)) × (out.new ≡ output input.now out.old) }
{
    let n = put_listing(out, input);
    if n <= out.len() {
        return Ok(n);
    }
    Err(TooShort { needs: n })
}
