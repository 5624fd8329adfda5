// Words and numbers as bytes, and bytes put into a buffer, as definitions and laws, with what the programs that read images
// take. No code.
#![tactic(auto)]

// The most bytes that an image has; longer input is not judged.
pub const LONGEST: usize = 65536;

// How long the partition is that sparse images are judged for.
pub const PARTITION: u64 = 1048576;
