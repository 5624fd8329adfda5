// The judge of sparse images.
#![tactic(auto)]

mod checked;
mod judging;
mod sum;

pub use judging::judge;
