// The final command line, part after part.
#![tactic(auto)]

ghost use Rattle.std.specs.Prelude.{◌≡◌};
ghost use Rattle.text_rules.specs.Put.{Put};
ghost use Rattle.text.specs.Texts.{Puts};
ghost use Rattle.starter_rules.specs.Line.{letter, suffix, mode, line};

use starter_texts::put_image_line;
use text::Text;

// The letter of a slot, a to d; no slot is past d.
fn letter_of(slot: u8) -> u8
    ensures { result ≡ letter slot }
{
    b"abcd".get(slot as usize).copied().unwrap_or(0)
}

// Puts the slot.
fn put_suffix(out: &mut Text, slot: u8)
    ensures { Puts out.old (suffix slot) out.new }
{
    out.put(b" androidboot.slot_suffix=_");
    out.put(&[letter_of(slot)]);
}

// Puts the mode.
fn put_mode(out: &mut Text, asked: bool)
    ensures { Puts out.old (mode asked) out.new }
{
    if asked {
        return;
    }
    out.put(b" skip_initramfs");
}

// Puts the line of a slot with its image at the start of a buffer, and answers how long it is.
pub fn put_line(out: &mut [u8], loader: &[u8], image: &[u8], slot: u8, asked: bool) -> usize
    ensures { Put out.old 0 (line loader.now image.now slot asked) out.new result }
{
    let mut text = Text::at(out, 0);
    text.put(loader);
    text.put(b" ");
    put_image_line(&mut text, image);
    put_suffix(&mut text, slot);
    put_mode(&mut text, asked);
    text.len()
}
