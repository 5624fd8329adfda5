// The checksum's state over one chunk: raw data as they stand in the image, a fill word repeated,
// zeros for blocks that are skipped. The zeros wait until other bytes follow, so that a row of
// skipped chunks is one run.
ghost use Rattle.std.specs.Prelude.{◌≡◌, ◌+◌, ◌*◌, ◌≤◌, ◌<◌};
ghost use Rattle.crc32_rules.specs.Crc.{crc_from};
ghost use Rattle.sparse_rules.specs.Cells.{cells_of, zeroed};
ghost use Rattle.sparse_rules.specs.Facts.{Summable};
ghost use Rattle.sparse_judge.specs.Pending.{state_of};

use sparse_rules::{Chunk, Kind};

// A state, and how many zero bytes are still to be summed after it.
#[derive(Clone, Copy)]
pub(crate) struct Sum {
    pub(crate) state: u32,
    pub(crate) zeros: u64,
}

// The state once the zero bytes that wait are summed.
pub(crate) fn settled(sum: Sum) -> u32
    ensures { result ≡ state_of sum }
{
    crc32::update_zeros(sum.state, sum.zeros)
}

// The state after a chunk's cells, at a block size.
pub(crate) fn sum_chunk(sum: Sum, image: &[u8], block: u32, chunk: Chunk) -> Sum
    requires { Summable image.now block chunk × (sum.zeros + chunk.blocks * block < 0x10000000000000000) }
    ensures { (state_of result ≡ crc_from (state_of sum) (zeroed (cells_of image.now block chunk)))
        × (result.zeros ≤ sum.zeros + chunk.blocks * block) }
{
    let n = chunk.blocks as u64 * block as u64;
    match chunk.kind {
        Kind::Raw => {
            let end = chunk.body + n as usize;
            let state = crc32::update(settled(sum), &image[chunk.body..end]);
            Sum { state, zeros: 0 }
        }
        Kind::Fill => {
            let word = fields_read::read32(image, chunk.body);
            let state = crc32::update_word(settled(sum), word, n / 4);
            Sum { state, zeros: 0 }
        }
        Kind::DontCare | Kind::Unknown => Sum {
            state: sum.state,
            zeros: sum.zeros + n,
        },
    }
}
