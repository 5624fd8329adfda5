// The table of field positions as a constant: one row a version of the boot image header, one field after another with
// its position and width.
#![tactic(auto)]

ghost use Rattle.std.specs.Prelude.{◌≡◌};
ghost use Rattle.boot_rules.specs.Table.{row_of};

use boot_rules::{Field, Row};

// A field that the version lacks.
const LACKING: Field = Field { at: 0, width: 0 };

// No version: no field at all.
const NO_VERSION: Row = Row {
    header: 0,
    magic: LACKING,
    kernel: LACKING,
    kernelload: LACKING,
    ramdisk: LACKING,
    ramdiskload: LACKING,
    second: LACKING,
    secondload: LACKING,
    tagsload: LACKING,
    page: LACKING,
    version: LACKING,
    os: LACKING,
    name: LACKING,
    cmdline: LACKING,
    id: LACKING,
    extra: LACKING,
    recovery: LACKING,
    offset: LACKING,
    headersize: LACKING,
    dtb: LACKING,
    dtbload: LACKING,
    signature: LACKING,
    reserved: LACKING,
};

// Version 0.
const VERSION_0: Row = Row {
    header: 1632,
    magic: Field { at: 0, width: 8 },
    kernel: Field { at: 8, width: 4 },
    kernelload: Field { at: 12, width: 4 },
    ramdisk: Field { at: 16, width: 4 },
    ramdiskload: Field { at: 20, width: 4 },
    second: Field { at: 24, width: 4 },
    secondload: Field { at: 28, width: 4 },
    tagsload: Field { at: 32, width: 4 },
    page: Field { at: 36, width: 4 },
    version: Field { at: 40, width: 4 },
    os: Field { at: 44, width: 4 },
    name: Field { at: 48, width: 16 },
    cmdline: Field { at: 64, width: 512 },
    id: Field { at: 576, width: 32 },
    extra: Field {
        at: 608,
        width: 1024,
    },
    ..NO_VERSION
};

// Version 1: and recovery size and offset, and the header size.
const VERSION_1: Row = Row {
    header: 1648,
    recovery: Field { at: 1632, width: 4 },
    offset: Field { at: 1636, width: 8 },
    headersize: Field { at: 1644, width: 4 },
    ..VERSION_0
};

// Version 2: and dtb size and address.
const VERSION_2: Row = Row {
    header: 1660,
    dtb: Field { at: 1648, width: 4 },
    dtbload: Field { at: 1652, width: 8 },
    ..VERSION_1
};

// Version 3: fewer fields, in another order.
const VERSION_3: Row = Row {
    header: 1580,
    magic: Field { at: 0, width: 8 },
    kernel: Field { at: 8, width: 4 },
    ramdisk: Field { at: 12, width: 4 },
    version: Field { at: 40, width: 4 },
    os: Field { at: 16, width: 4 },
    cmdline: Field {
        at: 44,
        width: 1536,
    },
    headersize: Field { at: 20, width: 4 },
    reserved: Field { at: 24, width: 16 },
    ..NO_VERSION
};

// Version 4: and the signature size.
const VERSION_4: Row = Row {
    header: 1584,
    signature: Field { at: 1580, width: 4 },
    ..VERSION_3
};

const ROWS: [Row; 5] = [VERSION_0, VERSION_1, VERSION_2, VERSION_3, VERSION_4];

// The row of a version; one with no field for a version above 4.
pub fn row_at(version: u32) -> Row
    ensures { result ≡ row_of version }
{
    if version < 5 {
        ROWS[version as usize]
    } else {
        NO_VERSION
    }
}
