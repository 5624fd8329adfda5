// Two reports added.
#![tactic(auto)]

ghost use Rattle.std.specs.Prelude.{◌≡◌, ◌+◌, ◌<◌, ◌^◌, MatchOption, SomeIff};
ghost use Rattle.sparse_rules.specs.Cells.{tab};
ghost use Rattle.report_rules.specs.Reports.{counts_at, sum, counted_of, added};
ghost use Rattle.report_rules.specs.Theorems.{Fits};
ghost use Rattle.report_sums.specs.Rows.{RowFits};

use report_rules::{Overflow, Report};

// Two numbers added, where the sum has 64 bits.
fn total(x: u64, y: u64) -> Option<u64>
    ensures { SomeIff result (x + y < 2 ^ 64) (x + y) }
{
    x.checked_add(y)
}

// Two rows of counts added, where each sum has 64 bits.
fn row(a: &[u64; 11], b: &[u64; 11]) -> Option<[u64; 11]>
    ensures { MatchOption result (RowFits a.now b.now → ⊥) (λ sums. RowFits a.now b.now × (sums ≡ tab (counts_at a.now b.now) 0 11)) }
{
    let mut sums = [0; 11];
    for (i, sum) in sums.iter_mut().enumerate() {
        *sum = total(a[i], b[i])?;
    }
    Some(sums)
}

// Two reports added, where each total has 64 bits.
fn sum(a: &Report, b: &Report) -> Option<Report>
    ensures { MatchOption result (Fits (sum a.now b.now) → ⊥) (λ both. Fits (sum a.now b.now) × (both ≡ sum a.now b.now)) }
{
    Some(Report {
        accepted: total(a.accepted, b.accepted)?,
        blocks: total(a.blocks, b.blocks)?,
        bytes: total(a.bytes, b.bytes)?,
        skipped: total(a.skipped, b.skipped)?,
        largest: a.largest.max(b.largest),
        refused: row(&a.refused, &b.refused)?,
    })
}

// Two reports added: the sums, or the first report as it was where a total would pass 64 bits.
pub fn add(a: Report, b: Report) -> Result<Report, Overflow>
    ensures { counted_of result ≡ added a b }
{
    sum(&a, &b).ok_or(Overflow { report: a })
}
