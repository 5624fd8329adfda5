// The text that the lister prints for an input, line after line.
#![tactic(auto)]

ghost use Rattle.std.specs.Prelude.{◌≡◌, List, length};
ghost use Rattle.text_rules.specs.Input.{partition};
ghost use Rattle.text_rules.specs.Put.{Put};
ghost use Rattle.text.specs.Texts.{Puts};
ghost use Rattle.sparse_rules.specs.declared.Chunk.{Chunk};
ghost use Rattle.rules.specs.Answer.{accepted};
ghost use Rattle.sparse_rules.specs.Judge.{judged};
ghost use Rattle.sparse_list_rules.specs.Listing.{image_lines, listing};

use sparse_rules::{Counts, Cursor};
use text::Text;
use text_rules::{LONGEST, PARTITION};

// The lines of an image that is accepted with these counts of blocks.
fn put_image(out: &mut Text, input: &[u8], counts: Counts)
    ensures { (ks : List Chunk) → judged input.now (length input.now) partition ≡ accepted ks → Puts out.old (image_lines input.now ks counts) out.new }
{
    let header = sparse_read::read_header(input);
    sparse_lines::put_header(out, header);
    let mut cursor = Cursor {
        at: header.start as usize,
        first: 0,
    };
    for _ in 0..header.chunks {
        let (chunk, after) = match sparse_read::read_chunk(input, header, cursor) {
            Ok(read) => read,
            Err(refusal) => return sparse_lines::put_refused(out, refusal),
        };
        sparse_lines::put_chunk(out, cursor.first, chunk);
        cursor = after;
    }
    sparse_lines::put_last(out, counts);
}

// Puts the text of an input.
fn put_input(out: &mut Text, input: &[u8])
    ensures { Puts out.old (listing input.now) out.new }
{
    if LONGEST < input.len() {
        return out.put(b"too long\n");
    }
    match sparse_judge::judge(input, PARTITION) {
        Ok(counts) => put_image(out, input, counts),
        Err(refusal) => sparse_lines::put_refused(out, refusal),
    }
}

// Puts the text of an input at the start of a buffer, and answers how long it is.
pub fn put_listing(out: &mut [u8], input: &[u8]) -> usize
    ensures { Put out.old 0 (listing input.now) out.new result }
{
    let mut lines = Text::at(out, 0);
    put_input(&mut lines, input);
    lines.len()
}
