// The starter: Start once, the started slot's boot image, and the final command line. It takes a record by value and hands
// one back beside its answer. starter_rules has the rules: specs/Line.antt the line, specs/Starter.antt what is answered
// and left.
#![tactic(auto)]

ghost use Rattle.std.specs.Prelude.{◌≡◌, Err, map};
ghost use Rattle.rules.specs.Answer.{accepted};
ghost use Rattle.slot_rules.specs.Answers as slots;
ghost use Rattle.starter_rules.specs.Starter.{answer_of, leaving, after_start, effect_of, starter};

use slot_rules::Record;
use starter_boot::boot_slot;
use starter_rules::{Outcome, StartRefusal, Started};
use starter_texts::asks_recovery;

// A refusal, beside the record that it hands back.
fn refuse(refusal: StartRefusal, r: Record) -> Started
    ensures { result ≡ record { answer = Err refusal; after = r } }
{
    Started {
        answer: Err(refusal),
        after: r,
    }
}

// What follows where Start is not refused.
#[tactic(auto, unfolding(starter_rules::specs::Starter::after_start))]
fn follow(
    o: slot_rules::Outcome,
    images: &[&[u8]; 4],
    asked: bool,
    loader: &[u8],
    space: &mut [u8],
) -> Result<Outcome, StartRefusal>
    ensures { leaving (answer_of result) space.new ≡ after_start (accepted (slots.deed_of o)) (map (λ image. image.now) images.now) asked loader.now space.old }
{
    match o {
        slot_rules::Outcome::Starts(slot) => boot_slot(slot, images, asked, loader, space),
        slot_rules::Outcome::Recovery | slot_rules::Outcome::Done => Ok(Outcome::Recovery),
    }
}

// Starts a slot with its image and line: from the record, an image for each of the places a to d, any bytes for one that is
// not in use, the first 32 bytes of misc, the loader's line, and space for the final one.
pub fn start(
    given: Record,
    images: &[&[u8]; 4],
    misc: &[u8],
    loader: &[u8],
    space: &mut [u8],
) -> Started
    ensures { effect_of result.answer result.after space.new ≡ starter given (map (λ image. image.now) images.now) misc.now loader.now space.old }
{
    let changed = slot_record::start(given);
    match changed.answer {
        Err(refusal) => refuse(StartRefusal::Slots(refusal), given),
        Ok(_) if misc.len() != 32 => refuse(StartRefusal::Misc, given),
        Ok(outcome) => {
            let asked = asks_recovery(misc);
            let answer = follow(outcome, images, asked, loader, space);
            let after = changed.after;
            Started { answer, after }
        }
    }
}
