// What changed between two sparse images, as definitions and theorems, with the types of a change and of a list that grows.
// No code but what is derived.
#![tactic(auto)]

// The kinds of change of a block: neither image writes it, only the first, only the second, both and equal, both and different.
#[derive(Clone, Copy, PartialEq, Eq)]
pub enum Change {
    Neither,
    OnlyFirst,
    OnlySecond,
    Equal,
    Different,
}

// A list of runs as it grows: how many are counted, and put where they had room, and the run that is not yet: its first block,
// its blocks so far, its kind.
#[derive(Clone, Copy)]
pub struct Growing {
    pub runs: usize,
    pub first: u32,
    pub blocks: u32,
    pub kind: Change,
}
