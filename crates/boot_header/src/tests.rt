// The tests of the header, in their order.
ghost use Rattle.std.specs.Prelude.{◌≡◌, not};
ghost use Rattle.boot_rules.specs.Pages.{is_page};
ghost use Rattle.boot_rules.specs.Sections.{row_in, page_in};
ghost use Rattle.boot_rules.specs.Tests.{missized, head_tests, found_number};
ghost use Rattle.rules.specs.First.{first};

use crate::{page_in, row_in, version_in, word};
use boot_rules::Refusal;

// `ANDROID!`, low byte first.
const MAGIC: u64 = 0x2144494F52444E41;

// A number with a single one bit, from 2,048 to 16,384.
fn is_page(x: u32) -> bool
    ensures { result ≡ is_page x }
{
    (2048 <= x) & (x <= 16384) & (u32::count_ones(x) == 1)
}

// Whether the header size field, where the version has it, is not the header length.
fn missized(image: &[u8]) -> bool
    ensures { result ≡ missized image.now (row_in image.now) }
{
    let row = row_in(image);
    word(image, row.headersize).is_some_and(|size| size != row.header as u32)
}

// Whether the page size is none that a page can have.
fn wrong_page(image: &[u8]) -> bool
    ensures { result ≡ not (is_page (page_in image.now)) }
{
    !is_page(page_in(image))
}

// The first test of the header that fails.
#[tactic(auto, using(crate::proofs::Judging::magic_number), unfolding(boot_rules::specs::Tests::head_tests))]
pub fn check_header(image: &[u8]) -> Result<(), Refusal>
    ensures { found_number result ≡ first (head_tests image.now) }
{
    if image.len() < 44 {
        return Err(Refusal::TooShort);
    }
    if fields_read::read64(image, 0) != MAGIC {
        return Err(Refusal::Magic);
    }
    if 4 < version_in(image) {
        return Err(Refusal::Version);
    }
    if image.len() < row_in(image).header as usize {
        return Err(Refusal::TooShort);
    }
    if missized(image) {
        return Err(Refusal::HeaderSize);
    }
    if wrong_page(image) {
        return Err(Refusal::PageSize);
    }
    Ok(())
}
