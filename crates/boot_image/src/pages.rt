// Pages: where a section begins after the one before it.
ghost use Rattle.std.specs.Prelude.{◌≡◌, true, ◌+◌, ◌<◌};
ghost use Rattle.boot_rules.specs.Pages.{is_page, round_up};
ghost use Rattle.boot_rules.specs.Positions.{position_bound};

// Where the next section begins after one of `size` bytes at `start`: rounded up to a page by the
// shift that the page's trailing zeros give. A start below the bound leaves room for both sums.
pub(crate) fn after(start: u64, size: u32, page: u32) -> u64
    requires { (is_page page ≡ true) × (start < position_bound) }
    ensures { result ≡ round_up (start + size) page }
{
    let shift = u32::trailing_zeros(page);
    let end = start + size as u64;
    ((end + (page as u64 - 1)) >> shift) << shift
}
