// The calls of a pass, which is fed pieces of the case and judges or stores them.
use crate::store_cases::Run;
use crate::support::{Cases, answer};
use std::io;
use std::io::Write;

// A call that goes on with a pass.
pub(crate) enum Call {
    JudgePiece,
    JudgeFinish,
    StorePiece,
    StoreFinish,
}

impl Run<'_> {
    // Begins a pass, and fills the partition anew.
    pub(crate) fn begin(&mut self, steps: &mut Cases<'_>) {
        let image_len = steps.u64();
        let partition_len = steps.u64();
        tarpaulark::tarpaulark_pass_begin(image_len, partition_len, &mut self.pass);
        self.refill();
    }

    // Calls the pass, and prints the answer and the checksum of what was lent of the partition.
    pub(crate) fn call(
        &mut self,
        line: &mut impl Write,
        steps: &mut Cases<'_>,
        call: Call,
        lent: usize,
    ) -> io::Result<()> {
        let place = steps.u16() as usize;
        let count = steps.u16() as usize;
        let piece = self.case.at(place).take(count);
        let n = lent.min(self.partition.len());
        let lent = &mut self.partition[..n];
        let pass = &mut self.pass;
        match call {
            Call::JudgePiece => {
                let mut out = [0u64; 1];
                let number = tarpaulark::tarpaulark_pass_judge_piece(pass, piece, &mut out);
                answer(line, number, &out)?;
            }
            Call::JudgeFinish => {
                let mut out = [0u64; 4];
                let number = tarpaulark::tarpaulark_pass_judge_finish(pass, &mut out);
                answer(line, number, &out)?;
            }
            Call::StorePiece => {
                let mut out = [0u64; 1];
                let number = tarpaulark::tarpaulark_pass_store_piece(pass, piece, lent, &mut out);
                answer(line, number, &out)?;
            }
            Call::StoreFinish => {
                let mut out = [0u64; 4];
                let number = tarpaulark::tarpaulark_pass_store_finish(pass, lent, &mut out);
                answer(line, number, &out)?;
            }
        }
        write!(line, " {}", crc32::checksum(lent))
    }
}
