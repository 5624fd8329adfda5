// What the lister prints, as definitions and theorems, with the type of its answer. No code.
#![tactic(auto)]

// The text is longer than the buffer: how long a buffer has to be to hold it whole.
#[derive(Clone, Copy, Debug, PartialEq, Eq, Hash)]
pub struct TooShort {
    pub needs: usize,
}

// How long the text is, where the buffer holds it whole.
pub type Listed = Result<usize, TooShort>;
