// Images that arrive in pieces: what is known once their first bytes have come, what each call answers and stores, the
// state of a pass, and theorems. No code.
#![tactic(auto)]

use sparse_rules::{Counts, Cursor, Refusal};

// What a pass is told: the length of the image, and that of the partition.
#[derive(Clone, Copy)]
pub struct Told {
    pub length: usize,
    pub room: u64,
}

// What has come: how many bytes, and the checksum's state over the blocks that they give, which stays where none is stated.
#[derive(Clone, Copy)]
pub struct Come {
    pub bytes: usize,
    pub sum: u32,
}

// The walk over the chunks: where the next one begins, how many are still to be read, and the blocks of those that were read,
// counted.
#[derive(Clone, Copy)]
pub struct Walk {
    pub next: Cursor,
    pub left: u32,
    pub counts: Counts,
}

// The bytes that are kept: the known fields of the file header, those of the chunk header that came last, and the word
// of a fill chunk.
#[derive(Clone, Copy)]
pub struct Kept {
    pub file: [u8; 28],
    pub chunk: [u8; 12],
    pub word: [u8; 4],
}

// The state of a pass. Its refusal has the number 0 until one is given.
#[derive(Clone, Copy)]
pub struct Pass {
    pub told: Told,
    pub refusal: Refusal,
    pub come: Come,
    pub walk: Walk,
    pub kept: Kept,
}
