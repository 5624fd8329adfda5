// The sections, one after another from the first page on.
ghost use Rattle.std.specs.Prelude.{◌≡◌, true};
ghost use Rattle.boot_rules.specs.Pages.{is_page};
ghost use Rattle.boot_rules.specs.Sections.{page_in, sections_of, rooms_in};

use crate::pages::after;
use boot_header::{page_in, row_in, word};
use boot_rules::{Rooms, Section};

// The rooms of all sections of an image with a page size that is right.
pub(crate) fn lay(image: &[u8]) -> Rooms
    requires { is_page (page_in image.now) ≡ true }
    ensures { rooms_in result ≡ sections_of image.now }
{
    let row = row_in(image);
    let page = page_in(image);
    let sizes = [
        row.kernel,
        row.ramdisk,
        row.second,
        row.recovery,
        row.dtb,
        row.signature,
    ];
    let mut rooms = [None; 6];
    let mut next = page as u64;
    for (i, field) in sizes.iter().enumerate() {
        let size = word(image, *field);
        rooms[i] = size.map(|size| Section {
            position: next,
            size,
        });
        let bytes = size.unwrap_or(0);
        next = after(next, bytes, page);
    }
    let [kernel, ramdisk, second, recovery, dtb, signature] = rooms;
    Rooms {
        kernel,
        ramdisk,
        second,
        recovery,
        dtb,
        signature,
    }
}
