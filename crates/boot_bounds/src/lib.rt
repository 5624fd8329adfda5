// Whether the sections of a boot image lie where they must: the recovery section where its offset field says, and every
// section inside the image.
#![tactic(auto)]

ghost use Rattle.std.specs.Prelude.{◌≡◌};
ghost use Rattle.boot_rules.specs.Sections.{any_of, rooms_in};
ghost use Rattle.boot_rules.specs.Tests.{misplaced, overruns};

use boot_rules::{Rooms, Section};

// Whether the recovery section is not empty and its offset field is not its position.
pub fn misplaced(offset: u64, room: Option<Section>) -> bool
    ensures { result ≡ misplaced offset room }
{
    room.is_some_and(|x| (x.size != 0) & (offset != x.position))
}

// Whether a section is not empty and ends past `n` bytes.
fn overrun(n: u64, room: Option<Section>) -> bool
    ensures { result ≡ overruns n room }
{
    room.is_some_and(|x| {
        let size = x.size as u64;
        (size != 0) & ((n < size) || (n - size < x.position))
    })
}

// Whether some section, retired or not, is not empty and ends past `n` bytes.
pub fn any_overrun(n: u64, rooms: Rooms) -> bool
    ensures { result ≡ any_of (overruns n) (rooms_in rooms) }
{
    [
        rooms.kernel,
        rooms.ramdisk,
        rooms.second,
        rooms.recovery,
        rooms.dtb,
        rooms.signature,
    ]
    .iter()
    .any(|&room| overrun(n, room))
}
