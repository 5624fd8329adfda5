// Reports, the totals over judged images, as definitions and theorems, with the types that the code over them shares. No code.
#![tactic(auto)]

// Images accepted, blocks and bytes written, blocks skipped, the largest total blocks × block size of an accepted image, and
// how many images got each refusal number: number n is counted at place n - 1.
#[derive(Clone, Copy)]
pub struct Report {
    pub accepted: u64,
    pub blocks: u64,
    pub bytes: u64,
    pub skipped: u64,
    pub largest: u64,
    pub refused: [u64; 11],
}

// A total would pass 64 bits, which is refused with the number 61: the report as it was.
#[derive(Clone, Copy)]
pub struct Overflow {
    pub report: Report,
}
