// The sparse format as definitions and theorems, and the types that the code over it shares: the file header, the
// chunks, what an accepted image gives each byte, and the judge's answer. No code.
#![tactic(auto)]

// The fields of the file header that the rest of an image is read by: block size, total blocks,
// total chunks, the stated checksum, where the first chunk begins, and the chunk header size.
#[derive(Clone, Copy)]
pub struct Header {
    pub block: u32,
    pub total: u32,
    pub chunks: u32,
    pub checksum: u32,
    pub start: u32,
    pub head: u32,
}

// Where the next chunk is read: its offset in the image, and its first block.
#[derive(Clone, Copy)]
pub struct Cursor {
    pub at: usize,
    pub first: u32,
}

// What a chunk's type says of it: one of the three that are known, or that it is not known.
#[derive(Clone, Copy)]
pub enum Kind {
    Raw,
    Fill,
    DontCare,
    Unknown,
}

// A chunk: its kind, how many blocks it spans, and where its data begin in the image.
#[derive(Clone, Copy)]
pub struct Chunk {
    pub kind: Kind,
    pub blocks: u32,
    pub body: usize,
}

// A refusal: its number, and its place in the image. The number is no closed enum: the state of a pass, any bytes that its
// caller kept, may hold any number, which the pass then answers.
#[derive(Clone, Copy)]
pub struct Refusal {
    pub number: u32,
    pub place: u64,
}

// What the chunk reader answers: the chunk and the cursor after it, or a refusal.
pub type ChunkRead = Result<(Chunk, Cursor), Refusal>;

// The blocks that an accepted image counts: those of raw and fill chunks, of don't care chunks, and of chunks whose type is
// not known.
#[derive(Clone, Copy)]
pub struct Counts {
    pub written: u32,
    pub dont_care: u32,
    pub unknown: u32,
}

// What the judge answers: the counts of blocks of an accepted image, or a refusal.
pub type Verdict = Result<Counts, Refusal>;
