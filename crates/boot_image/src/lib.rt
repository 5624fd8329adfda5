// The sections of an Android boot image, header versions 0 to 4: where each that is offered begins and how long it is,
// or the first refusal that applies. The sections are laid out one after another (sections.rt), each position rounded up
// to a page by shifts (pages.rt).
#![tactic(auto)]

mod pages;
mod sections;

ghost use Rattle.std.specs.Prelude.{◌≡◌};
ghost use Rattle.boot_rules.specs.Tests.{answer, answer_of};

use boot_bounds::{any_overrun, misplaced};
use boot_header::tests::check_header;
use boot_header::{offset_in, version_in};
use boot_offer::offer;
use boot_rules::{Located, Refusal};
use sections::lay;

// Finds the sections of a boot image; any bytes are taken.
pub fn locate(image: &[u8]) -> Located
    ensures { answer_of result ≡ answer image.now }
{
    check_header(image)?;
    let rooms = lay(image);
    if misplaced(offset_in(image), rooms.recovery) {
        return Err(Refusal::RecoveryOffset);
    }
    if any_overrun(image.len() as u64, rooms) {
        return Err(Refusal::SectionEnd);
    }
    Ok(offer(version_in(image), rooms))
}
