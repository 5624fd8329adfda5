// Whether two images can be taken together: both accepted, and of one geometry.
#![tactic(auto)]

ghost use Rattle.std.specs.Prelude.{◌≡◌, [], length};
ghost use Rattle.sparse_rules.specs.Answers as judge;
ghost use Rattle.sparse_blocks_rules.specs.Blocks.{needed};
ghost use Rattle.sparse_blocks_rules.specs.Pairs.{tests_of, image_of, same_geometry, pair_answer, refused_image};

use sparse_blocks_rules::PairRefusal;
use sparse_rules::Verdict;

// An image judged as if the partition had room.
fn judged(image: &[u8]) -> Verdict
    ensures { judge.answer_of result ≡ judge.answer image.now (length image.now) (needed image.now) }
{
    let header = sparse_read::read_header(image);
    sparse_judge::judge(image, sparse_read::bytes_of(header.total, header.block))
}

// Whether two images have one block size and one total.
fn same_geometry(first: &[u8], second: &[u8]) -> bool
    ensures { result ≡ same_geometry first.now second.now }
{
    let a = sparse_read::read_header(first);
    let b = sparse_read::read_header(second);
    (a.block == b.block) & (a.total == b.total)
}

// The refusals of two images: the first's own, the second's own, then 17.
pub fn matched(first: &[u8], second: &[u8]) -> Result<(), PairRefusal>
    ensures answer { tests_of result ≡ pair_answer first.now second.now [] 0 }
    ensures image { image_of result ≡ refused_image first.now second.now }
{
    judged(first).map_err(PairRefusal::First)?;
    judged(second).map_err(PairRefusal::Second)?;
    if same_geometry(first, second) {
        return Ok(());
    }
    Err(PairRefusal::Geometry)
}
