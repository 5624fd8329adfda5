// The texts that the starter reads: the command line in a boot image, and whether misc asks for recovery.
#![tactic(auto)]

ghost use Rattle.std.specs.Prelude.{◌≡◌, length};
ghost use Rattle.text.specs.Texts.{Puts};
ghost use Rattle.starter_rules.specs.Line.{up_to_zero, text_in, image_line, asks_recovery};

use boot_cmdline::{cmdline_in, extra_in};
use boot_rules::Field;
use text::Text;

// How many bytes come before the first zero byte, or the end.
fn text_len(bytes: &[u8]) -> usize
    ensures { result ≡ length (up_to_zero bytes.now) }
{
    bytes
        .iter()
        .position(|byte| *byte == 0)
        .unwrap_or(bytes.len())
}

// Puts the text in a field of an image.
fn put_field(out: &mut Text, image: &[u8], field: Field)
    ensures { Puts out.old (text_in image.now field) out.new }
{
    let start = field.at as usize;
    if image.len() <= start {
        return;
    }
    let end = start + fields_write::room(image.len(), start, field.width as usize);
    let bytes = &image[start..end];
    let len = text_len(bytes);
    out.put(&bytes[..len]);
}

// Puts the command line of an image.
pub fn put_image_line(out: &mut Text, image: &[u8])
    ensures { Puts out.old (image_line image.now) out.new }
{
    put_field(out, image, cmdline_in(image));
    put_field(out, image, extra_in(image));
}

// Whether recovery is asked for.
pub fn asks_recovery(misc: &[u8]) -> bool
    ensures { result ≡ asks_recovery misc.now }
{
    misc.starts_with(b"boot-recovery\0")
}
