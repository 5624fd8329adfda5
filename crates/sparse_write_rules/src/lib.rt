// Sparse images written from blocks or flat bytes, as definitions and theorems, with the types of a block's kind and of the
// writer's answer. No code but what is derived.
#![tactic(auto)]

use sparse_rules::Refusal;

// What the writer answers: the image's length, or a refusal.
pub type Written = Result<usize, Refusal>;

// What an image stores of a block: its bytes, or the word that fills it. A block that is kept has nothing stored, so the kind
// of any block is an `Option` of this. A word of blocks' data has four bytes. One of more is taken too: it is the kind of no
// block, and is put by its low four.
#[derive(Clone, Copy, PartialEq, Eq)]
pub enum Stored {
    Raw,
    Fill(u64),
}
