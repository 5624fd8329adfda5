// The boot image as definitions and theorems, and the types that the code over it shares: the table of field
// positions, the sections, and the answer. No code but the numbers of the refusals.
#![tactic(auto)]

ghost use Rattle.std.specs.Prelude.{◌≡◌};
ghost use Rattle.boot_rules.specs.Tests.{refusal_number};

// Where a field begins, and its width in bytes. A field that a version lacks has width 0.
#[derive(Clone, Copy)]
pub struct Field {
    pub at: u16,
    pub width: u16,
}

// The header length of a version, and each field of its header. The `load` fields are the addresses that the header
// states for the section, or the tags, of that name.
#[derive(Clone, Copy)]
pub struct Row {
    pub header: u16,
    pub magic: Field,
    pub kernel: Field,
    pub kernelload: Field,
    pub ramdisk: Field,
    pub ramdiskload: Field,
    pub second: Field,
    pub secondload: Field,
    pub tagsload: Field,
    pub page: Field,
    pub version: Field,
    pub os: Field,
    pub name: Field,
    pub cmdline: Field,
    pub id: Field,
    pub extra: Field,
    pub recovery: Field,
    pub offset: Field,
    pub headersize: Field,
    pub dtb: Field,
    pub dtbload: Field,
    pub signature: Field,
    pub reserved: Field,
}

// A section: where it begins and its size in bytes, 0 for one that is empty.
#[derive(Clone, Copy)]
pub struct Section {
    pub position: u64,
    pub size: u32,
}

// The rooms that the sections of an image take, in their order, the retired one's among them; none for a section that the
// version lacks.
#[derive(Clone, Copy)]
pub struct Rooms {
    pub kernel: Option<Section>,
    pub ramdisk: Option<Section>,
    pub second: Option<Section>,
    pub recovery: Option<Section>,
    pub dtb: Option<Section>,
    pub signature: Option<Section>,
}

// What an accepted image offers: its version, the sections that are not retired, in their order, and whether it
// carries a retired one that is not empty.
#[derive(Clone, Copy)]
pub struct Layout {
    pub version: u32,
    pub kernel: Option<Section>,
    pub ramdisk: Option<Section>,
    pub recovery: Option<Section>,
    pub dtb: Option<Section>,
    pub signature: Option<Section>,
    pub retired: bool,
}

// Why an image is refused, each with its number.
#[derive(Clone, Copy, Debug, PartialEq, Eq)]
pub enum Refusal {
    TooShort = 21,
    Magic = 22,
    Version = 23,
    HeaderSize = 24,
    PageSize = 25,
    SectionEnd = 26,
    RecoveryOffset = 27,
}

impl Refusal {
    // The number of a refusal.
    pub fn number(self) -> u32
        ensures { result ≡ refusal_number self }
    {
        self as u32
    }
}

// The answer: the layout of an accepted image, or why it is refused.
pub type Located = Result<Layout, Refusal>;
