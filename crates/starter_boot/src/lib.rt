// The started slot's image: located, and its line written.
#![tactic(auto)]

ghost use Rattle.std.specs.Prelude.{◌≡◌, map};
ghost use Rattle.rules.specs.Answer.{accepted};
ghost use Rattle.boot_rules.specs.Tests as boot;
ghost use Rattle.starter_rules.specs.Line.{line};
ghost use Rattle.starter_rules.specs.Starter.{answer_of, leaving, booted, booted_from};

use boot_image::locate;
use boot_rules::Layout;
use starter_line::put_line;
use starter_rules::{Outcome, StartRefusal};

// Writes the line of a slot with an image of this layout, where it fits: it is put into a single byte first, which counts it.
fn write_line(
    slot: u8,
    layout: Layout,
    image: &[u8],
    asked: bool,
    loader: &[u8],
    space: &mut [u8],
) -> Result<Outcome, StartRefusal>
    ensures { leaving (answer_of result) space.new ≡ booted slot (accepted layout) (line loader.now image.now slot asked) space.old }
{
    let mut none = [0u8; 1];
    let needs = put_line(&mut none, loader, image, slot, asked);
    if (space.len() < needs) | (4096 < needs) {
        return Err(StartRefusal::Line);
    }
    put_line(space, loader, image, slot, asked);
    Ok(Outcome::Starts(slot, layout, needs))
}

// Boots a slot with an image: the image's own refusal, or its line.
fn boot_with(
    slot: u8,
    image: &[u8],
    asked: bool,
    loader: &[u8],
    space: &mut [u8],
) -> Result<Outcome, StartRefusal>
    ensures { leaving (answer_of result) space.new ≡ booted slot (boot.answer image.now) (line loader.now image.now slot asked) space.old }
{
    let layout = locate(image)?;
    write_line(slot, layout, image, asked, loader, space)
}

// Boots a slot with its image, of one for each of the places a to d.
pub fn boot_slot(
    slot: u8,
    images: &[&[u8]; 4],
    asked: bool,
    loader: &[u8],
    space: &mut [u8],
) -> Result<Outcome, StartRefusal>
    ensures { leaving (answer_of result) space.new ≡ booted_from (map (λ image. image.now) images.now) asked loader.now space.old slot }
{
    boot_with(slot, images[usize::from(slot.min(3))], asked, loader, space)
}
