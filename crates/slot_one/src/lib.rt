// One slot: what makes it valid, whether it counts as startable, what it may do, and what each operation
// makes of it.
#![tactic(auto)]

ghost use Rattle.std.specs.Prelude.{◌≡◌};
ghost use Rattle.slot_rules.specs.OneSlot.{slot_valid, sound, count_of, may_start, may_take_over, may_confirm, spent, marked, activated, modified, damaged, confirmed, new_slot};

use slot_rules::Slot;

// Whether the slot may stand in a valid record: one that is not used always may.
pub fn is_slot_valid(s: Slot) -> bool
    ensures { result ≡ slot_valid s }
{
    !s.used | ((s.tries <= 7) & !(s.unbootable & s.successful))
}

// Whether the slot is neither unbootable nor corrupted.
fn is_sound(s: Slot) -> bool
    ensures { result ≡ sound s }
{
    !s.unbootable & !s.corrupted
}

// What the slot adds to the count of startable ones: 1 where it is in use and sound.
#[tactic(auto, unfolding(slot_rules::specs::OneSlot::count_of))]
pub fn count_of(s: Slot) -> u8
    ensures { result ≡ count_of s }
{
    u8::from(s.used & is_sound(s))
}

// Whether the slot starts where it is current.
pub fn can_start(s: Slot) -> bool
    ensures { result ≡ may_start s }
{
    is_sound(s) & (s.successful | (0 < s.tries))
}

// Whether the slot starts in the place of a current one that does not.
pub fn can_take_over(s: Slot) -> bool
    ensures { result ≡ may_take_over s }
{
    s.used & s.successful & is_sound(s)
}

// Whether the current slot can be confirmed.
pub fn can_confirm(current: Slot) -> bool
    ensures { result ≡ may_confirm current }
{
    is_sound(current)
}

// The slot after it starts: one try less, unless it is successful.
pub fn spend(s: Slot) -> Slot
    ensures { result ≡ spent s }
{
    if s.successful {
        return s;
    }
    let tries = s.tries.saturating_sub(1);
    Slot { tries, ..s }
}

// The slot, marked unbootable and so no longer successful.
pub fn mark(s: Slot) -> Slot
    ensures { result ≡ marked s }
{
    Slot {
        unbootable: true,
        successful: false, // as no valid slot is both
        ..s
    }
}

// The slot after it was set active: all flags clear, three tries.
pub fn activate(s: Slot) -> Slot
    ensures { result ≡ activated s }
{
    new_slot(s.used, 3)
}

// The slot after its partition was modified: as if set active, but unbootable as before.
pub fn modify(s: Slot) -> Slot
    ensures { result ≡ modified s }
{
    Slot {
        unbootable: s.unbootable,
        ..new_slot(s.used, 3)
    }
}

// The slot after its system was found corrupted.
pub fn damage(s: Slot) -> Slot
    ensures { result ≡ damaged s }
{
    Slot {
        corrupted: true,
        ..s
    }
}

// The slot after it was confirmed.
pub fn make_successful(s: Slot) -> Slot
    ensures { result ≡ confirmed s }
{
    Slot {
        successful: true,
        ..s
    }
}

// A slot of a fresh record: its flags are clear.
pub fn new_slot(used: bool, tries: u8) -> Slot
    ensures { result ≡ new_slot used tries }
{
    Slot {
        used,
        unbootable: false,
        successful: false,
        corrupted: false,
        tries,
    }
}
