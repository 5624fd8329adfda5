// What of the sections of a boot image is offered to callers: all but the retired one. Of that one it is only said
// whether it is present: whether its size is not 0.
#![tactic(auto)]

ghost use Rattle.std.specs.Prelude.{◌≡◌};
ghost use Rattle.boot_rules.specs.Sections.{filled, rooms_in, layout_of};

use boot_rules::{Layout, Rooms, Section};

// Whether a section is there and not empty.
fn filled(room: Option<Section>) -> bool
    ensures { result ≡ filled room }
{
    room.is_some_and(|x| x.size != 0)
}

// The layout of an image of this version whose sections take these rooms.
pub fn offer(version: u32, rooms: Rooms) -> Layout
    ensures { result ≡ layout_of version (rooms_in rooms) }
{
    Layout {
        version,
        kernel: rooms.kernel,
        ramdisk: rooms.ramdisk,
        recovery: rooms.recovery,
        dtb: rooms.dtb,
        signature: rooms.signature,
        retired: filled(rooms.second),
    }
}
