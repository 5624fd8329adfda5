// The starter on a record that the loader keeps and lends: it calls the starter by value, stores the record that it
// hands back, and gives its answer.
#![tactic(auto)]

ghost use Rattle.std.specs.Prelude.{◌≡◌, map};
ghost use Rattle.starter_rules.specs.Starter.{effect_of, starter};

use slot_rules::Record;
use starter_rules::{Outcome, StartRefusal};

// Start on a lent record, with an image for each place, a to d, the first 32 bytes of misc, the loader's line, and space
// for the final one.
pub fn start(
    r: &mut Record,
    images: &[&[u8]; 4],
    misc: &[u8],
    loader: &[u8],
    space: &mut [u8],
) -> Result<Outcome, StartRefusal>
    ensures { effect_of result r.new space.new ≡ starter r.old (map (λ image. image.now) images.now) misc.now loader.now space.old }
{
    let s = starter::start(*r, images, misc, loader, space);
    *r = s.after;
    s.answer
}
