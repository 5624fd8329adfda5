// The scan of flat data for runs of blocks. The scan of a block stops at the first word that differs.
// What is scanned is the whole blocks from a place on; where there is none, no kind is answered.
#![tactic(auto)]

ghost use Rattle.std.specs.Prelude.{◌≡◌, ◌+◌, ◌*◌, ◌%◌, ◌≤◌, length};
ghost use Rattle.sparse_write_rules.specs.Kinds.{stored_kind};
ghost use Rattle.sparse_write_rules.specs.KindOf.{kind_of};
ghost use Rattle.sparse_scan.specs.Scan.{whole_blocks, first_kind, leading, following, run_blocks, after_run};

use sparse_write_rules::Stored;

// So many blocks in front are alike, and the one after them is of the kind `next`, `None` where none is left.
#[derive(Clone, Copy)]
struct Alike {
    blocks: usize,
    next: Option<Stored>,
}

// A run: its blocks and their bytes, and the kind of the block after it, `None` where none is left.
#[derive(Clone, Copy)]
pub struct Run {
    pub blocks: usize,
    pub len: usize,
    pub next: Option<Stored>,
}

// How many of n blocks from a place on are of a kind, up to the first that is not. A word that differs
// ends the scan of its block, and the scan goes on with the next. Inlined, so that a short run costs no call.
#[inline(always)]
fn count_alike(flat: &[u8], block: usize, from: usize, n: usize, kind: Option<Stored>) -> Alike
    requires { (from + n * block ≤ length flat.now) × (4 ≤ block) × (block % 4 ≡ 0) }
    ensures { (result.blocks ≡ leading (stored_kind flat.now block) block (kind_of kind) n from)
        × (kind_of result.next ≡ following (stored_kind flat.now block) block (kind_of kind) n from) }
{
    'each: for blocks in 0..n {
        let start = from + blocks * block;
        let end = start + block;
        let first = fields_read::read32(flat, start);
        // Counted by hand: a `for` over the words by their number takes a tenth longer.
        let mut i = start + 4;
        while i < end {
            if fields_read::read32(flat, i) != first {
                if kind != Some(Stored::Raw) {
                    return Alike {
                        blocks,
                        next: Some(Stored::Raw),
                    };
                }
                continue 'each;
            }
            i = i + 4;
        }
        if kind != Some(Stored::Fill(first as u64)) {
            return Alike {
                blocks,
                next: Some(Stored::Fill(first as u64)),
            };
        }
    }
    Alike {
        blocks: n,
        next: None,
    }
}

// How many whole blocks stand from a place on in so many bytes.
fn whole_blocks(len: usize, block_size: u32, at: usize) -> usize
    ensures { result ≡ whole_blocks len block_size at }
{
    if !sparse_header::block_right(block_size) {
        return 0;
    }
    if len < at {
        0
    } else {
        (len - at) / block_size as usize
    }
}

// The kind of the first block, `None` where there is none.
pub fn first_kind(flat: &[u8], block_size: u32) -> Option<Stored>
    ensures { kind_of result
        ≡ first_kind (stored_kind flat.now block_size) (whole_blocks (length flat.now) block_size 0) 0 }
{
    let n = whole_blocks(flat.len(), block_size, 0);
    if n == 0 {
        return None;
    }
    count_alike(flat, block_size as usize, 0, n, None).next
}

// The first run from a place on, whose first block counts as of this kind.
pub fn first_run(flat: &[u8], block_size: u32, at: usize, kind: Option<Stored>) -> Run
    ensures { (result.blocks ≡ run_blocks (stored_kind flat.now block_size) block_size (kind_of kind) (whole_blocks (length flat.now) block_size at) at)
        × (result.len ≡ result.blocks * block_size)
        × (kind_of result.next ≡ after_run (stored_kind flat.now block_size) block_size (kind_of kind) (whole_blocks (length flat.now) block_size at) at) }
{
    let n = whole_blocks(flat.len(), block_size, at);
    if n == 0 {
        return Run {
            blocks: 0,
            len: 0,
            next: None,
        };
    }
    let block = block_size as usize;
    let r = count_alike(flat, block, at + block, n - 1, kind);
    let blocks = r.blocks + 1;
    Run {
        blocks,
        len: blocks * block,
        next: r.next,
    }
}
