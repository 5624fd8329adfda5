// Two images compared and joined, with answers as numbers: 0 or the number of the refusal, and a lent array.
#![tactic(auto)]

ghost use Rattle.std.specs.Prelude.{◌≡◌, length};
ghost use Rattle.rules.specs.Answer.{number_of};
ghost use Rattle.sparse_blocks_rules.specs.Pairs.{refused_image};
ghost use Rattle.sparse_diff_rules.specs.Diff as diff;
ghost use Rattle.sparse_join_rules.specs.Join as joiner;
ghost use Rattle.tarpaulark_numbers.specs.Numbers.{pair_numbers};

use tarpaulark_numbers::{paired_answer, paired_number};

// Lists what changed from one image to another.
pub fn compare(first: &[u8], second: &[u8], runs: &mut [u32], out: &mut [u64; 3]) -> u32
    ensures { (result ≡ number_of (diff.answer first.now second.now (length runs.old)))
        × (out.new ≡ pair_numbers (refused_image first.now second.now)
        (diff.answer first.now second.now (length runs.old)))
        × (runs.new ≡ diff.listed first.now second.now runs.old) }
{
    let found = sparse_diff::compare(first, second, runs);
    *out = paired_answer(found);
    paired_number(found)
}

// Makes one image of two that has the effect of the first followed by the second.
pub fn join(first: &[u8], second: &[u8], image: &mut [u8], out: &mut [u64; 3]) -> u32
    ensures { (result ≡ number_of (joiner.answer first.now second.now (length image.old)))
        × (out.new ≡ pair_numbers (refused_image first.now second.now)
        (joiner.answer first.now second.now (length image.old)))
        × (image.new ≡ joiner.output first.now second.now image.old) }
{
    let found = sparse_join::join(first, second, image);
    *out = paired_answer(found);
    paired_number(found)
}
