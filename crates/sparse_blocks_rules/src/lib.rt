// The blocks of sparse images and what two images are together, as definitions and theorems, with the types that the code
// over them shares. No code but what is derived.
#![tactic(auto)]

use sparse_rules::{Chunk, Cursor, Header, Refusal};

// Where an image is read: what is left of the chunk that is being read, the cursor after that chunk, and how many chunks
// come there.
#[derive(Clone, Copy)]
pub struct Reader {
    pub header: Header,
    pub cursor: Cursor,
    pub left: u32,
    pub chunk: Chunk,
}

// So many blocks of one kind, by whatever rule.
#[derive(Clone, Copy)]
pub struct Piece<K> {
    pub kind: K,
    pub blocks: u32,
}

// Why two images are not taken together: a refusal of the first, one of the second, or one of both: their geometry differs
// or is too large, or what is lent has too little room.
#[derive(Clone, Copy)]
pub enum PairRefusal {
    First(Refusal),
    Second(Refusal),
    Geometry,
    Space,
}

// What is answered about two images: a number, or a refusal.
pub type Paired = Result<usize, PairRefusal>;
