// The lines of the text about a boot image and the launch releases that take it.
#![tactic(auto)]

ghost use Rattle.text.specs.Texts.{Puts};
ghost use Rattle.boot_launch_rules.specs.Text.{pair_line, refused_line};

use boot_launch_rules::PLAIN;
use text::Text;

// Puts the line of a pair.
pub fn put_pair(out: &mut Text, release: u32, kernel: u32)
    ensures { Puts out.old (pair_line (record { release = release; kernel = kernel })) out.new }
{
    out.put_number(release as u64);
    if kernel == PLAIN {
        out.put(b" plain\n");
    } else {
        out.put(b" generic\n");
    }
}

// Puts the line of a refusal.
pub fn put_refused(out: &mut Text, number: u32)
    ensures { Puts out.old (refused_line number) out.new }
{
    out.put_line(b"refused ", number as u64);
}
