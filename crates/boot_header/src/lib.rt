// The header of a boot image: its fields, read by the table of their positions, and the first refusal
// of the header (tests.rt).
#![tactic(auto)]

pub mod tests;

ghost use Rattle.std.specs.Prelude.{◌≡◌};
ghost use Rattle.boot_rules.specs.Sections.{version_in, row_in, page_in, os_in, offset_in};
ghost use Rattle.boot_rules.specs.Table.{read_at};

use boot_rules::{Field, Row};
use boot_table::row_at;

// The version: the number at byte 40.
pub fn version_in(image: &[u8]) -> u32
    ensures { result ≡ version_in image.now }
{
    fields_read::read32(image, 40)
}

// The table's row for an image; one with no field for a version above 4.
pub fn row_in(image: &[u8]) -> Row
    ensures { result ≡ row_in image.now }
{
    row_at(version_in(image))
}

// The number in a field of four bytes; none where the version lacks it.
pub fn word(image: &[u8], field: Field) -> Option<u32>
    ensures { result ≡ read_at 4 image.now field }
{
    if field.width == 0 {
        return None;
    }
    Some(fields_read::read32(image, field.at as usize))
}

// The number in a field of eight bytes; none where the version lacks it. Kept beside word: they differ in what they read.
fn double(image: &[u8], field: Field) -> Option<u64>
    ensures { result ≡ read_at 8 image.now field }
{
    if field.width == 0 {
        return None;
    }
    Some(fields_read::read64(image, field.at as usize))
}

// The page size: 4,096 where the version has no field for it.
pub fn page_in(image: &[u8]) -> u32
    ensures { result ≡ page_in image.now }
{
    word(image, row_in(image).page).unwrap_or(4096)
}

// The os version: the whole field.
pub fn os_in(image: &[u8]) -> u32
    ensures { result ≡ os_in image.now }
{
    word(image, row_in(image).os).unwrap_or(0)
}

// The recovery offset: 0 where the version has no field for it.
pub fn offset_in(image: &[u8]) -> u64
    ensures { result ≡ offset_in image.now }
{
    double(image, row_in(image).offset).unwrap_or(0)
}
