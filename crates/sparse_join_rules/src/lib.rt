// Two sparse images made one, as definitions and theorems, with the type of an image that grows. No code.
#![tactic(auto)]

use sparse_write_rules::Stored;

// An image as it grows: where its last chunk stands and how many chunks stand before that one, the last chunk's kind
// (`None` for don't care), and its blocks so far.
#[derive(Clone, Copy)]
pub struct Growing {
    pub at: usize,
    pub chunks: u32,
    pub kind: Option<Stored>,
    pub blocks: u32,
}
