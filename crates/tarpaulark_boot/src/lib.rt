// The finders of a boot image's sections, with answers as numbers: 0 or the number of the refusal, and a lent array.
#![tactic(auto)]

ghost use Rattle.std.specs.Prelude.{◌≡◌};
ghost use Rattle.rules.specs.Answer.{number_of};
ghost use Rattle.boot_rules.specs.Tests as boot;
ghost use Rattle.boot_launch_rules.specs.Tests as launch;
ghost use Rattle.tarpaulark_numbers.specs.Numbers.{layout_numbers};

use tarpaulark_numbers::located_answer;

// Finds the sections of a boot image.
pub fn locate(image: &[u8], out: &mut [u64; 17]) -> u32
    ensures { (result ≡ number_of (boot.answer image.now))
        × (out.new ≡ layout_numbers (boot.answer image.now)) }
{
    let found = boot_image::locate(image);
    *out = located_answer(found.ok());
    match found {
        Ok(_) => 0,
        Err(refusal) => refusal.number(),
    }
}

// Finds the sections of a boot image for a board launched with a release, by its kernel, 0 plain and 1 generic.
pub fn locate_for(image: &[u8], release: u32, kernel: u32, out: &mut [u64; 17]) -> u32
    ensures { (result ≡ number_of (launch.answer release kernel image.now))
        × (out.new ≡ layout_numbers (launch.answer release kernel image.now)) }
{
    let found = boot_launch::locate_for(release, kernel, image);
    *out = located_answer(found.ok());
    match found {
        Ok(_) => 0,
        Err(refusal) => refusal.number(),
    }
}
