// Images stored on one partition, one after the other: whole, or cut and with blocks torn in between, or by passes.
use crate::pass_cases::Call;
use crate::support::{Cases, IMAGE, answer, fill};
use std::io;
use std::io::Write;

// The most bytes of a partition.
const ROOM: usize = 4096;

// What a step does.
enum Step {
    Store,
    StoreLimited,
    Begin,
    Call(Call),
}

impl Step {
    // The step of the two numbers that it begins with. The second is 0 but in a call, where so many bytes are lent.
    fn new(form: u16, lent: u16) -> Step {
        match (form, lent) {
            (0, 0) => Step::Store,
            (0 | 1, _) => Step::StoreLimited,
            (2, _) => Step::Begin,
            (3, _) => Step::Call(Call::JudgePiece),
            (4, _) => Step::Call(Call::JudgeFinish),
            (5, _) => Step::Call(Call::StorePiece),
            _ => Step::Call(Call::StoreFinish),
        }
    }
}

// What the steps of a case work on: a partition, filled from a seed, and a pass.
#[derive(Drop)]
pub(crate) struct Run<'a> {
    // The bytes of the case, in which a step names images and pieces by their places.
    pub(crate) case: Cases<'a>,
    pub(crate) partition: &'a mut [u8],
    pub(crate) seed: u8,
    pub(crate) pass: [u8; 112],
}

impl Run<'_> {
    // Gives the partition its first bytes.
    pub(crate) fn refill(&mut self) {
        fill(self.partition, self.seed, |byte: u8| byte.wrapping_add(7));
    }

    // Stores an image, by the plain store or up to a limit, then tears a block. Prints the answer and the partition's checksum.
    fn store(
        &mut self,
        line: &mut impl Write,
        steps: &mut Cases<'_>,
        limited: bool,
    ) -> io::Result<()> {
        let mut form = self.case.at(steps.size());
        let limit = steps.u64();
        let mut room = [0u8; IMAGE];
        let image = form.image(&mut room);
        if limited {
            let mut out = [0u64; 2];
            let number = tarpaulark::tarpaulark_store_limited(
                image,
                self.partition,
                limit,
                &mut out,
            );
            answer(line, number, &out)?;
        } else {
            let mut out = [0u64; 4];
            let number = tarpaulark::tarpaulark_store(image, self.partition, &mut out);
            answer(line, number, &out)?;
        }
        let offset = steps.size();
        let count = steps.size();
        fields_write::copy(self.partition, offset, steps.take(count));
        write!(line, " {}", crc32::checksum(self.partition))
    }

    // Takes the next step.
    fn step(&mut self, line: &mut impl Write, steps: &mut Cases<'_>) -> io::Result<()> {
        let form = steps.u16();
        let lent = steps.u16();
        match Step::new(form, lent) {
            Step::Store => self.store(line, steps, false),
            Step::StoreLimited => self.store(line, steps, true),
            Step::Begin => {
                self.begin(steps);
                Ok(())
            }
            Step::Call(call) => self.call(line, steps, call, lent as usize),
        }
    }
}

// Prints the values of the next case.
pub(crate) fn case(line: &mut impl Write, cases: &mut Cases<'_>) -> io::Result<()> {
    let bytes = *cases;
    let size = cases.size();
    let len = cases.size();
    let seed = (cases.u32() % 256) as u8;
    let count = cases.u32();
    let mut steps = *cases;
    let mut room = [0u8; ROOM];
    let mut run = Run {
        case: bytes,
        partition: &mut room[..len.min(ROOM)],
        seed,
        pass: [0; 112],
    };
    run.refill();
    for _ in 0..count {
        run.step(line, &mut steps)?;
    }
    *cases = bytes.after(size);
    Ok(())
}
