// Where the command line of a boot image stands.
#![tactic(auto)]

ghost use Rattle.std.specs.Prelude.{◌≡◌};
ghost use Rattle.boot_rules.specs.Sections.{cmdline_in, extra_in};

use boot_header::row_in;
use boot_rules::Field;

// The field of the cmdline.
pub fn cmdline_in(image: &[u8]) -> Field
    ensures { result ≡ cmdline_in image.now }
{
    row_in(image).cmdline
}

// The field of the extra cmdline, without bytes where the version lacks it.
pub fn extra_in(image: &[u8]) -> Field
    ensures { result ≡ extra_in image.now }
{
    row_in(image).extra
}
