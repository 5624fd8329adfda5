// What every group of cases uses: a reader of its file, what fills a buffer, the checksum of what comes out, the numbers
// of an answer, and images, which are kept as patches over zeros.
use std::io;
use std::io::Write;

// How many bytes an image has at most.
pub(crate) const IMAGE: usize = 65536;

// The bytes of a file that are still to be read, case by case. Past the last of them, numbers read are of zero bytes.
#[derive(Clone, Copy)]
pub(crate) struct Cases<'a> {
    bytes: &'a [u8],
}

impl<'a> Cases<'a> {
    // All bytes of a file.
    pub(crate) fn new(bytes: &'a [u8]) -> Cases<'a> {
        Cases { bytes }
    }

    // Whether nothing is left.
    pub(crate) fn is_empty(&self) -> bool {
        self.bytes.is_empty()
    }

    // Takes the next `len` bytes, or as many of them as there are.
    pub(crate) fn take(&mut self, len: usize) -> &'a [u8] {
        let (taken, left) = self.bytes.split_at(len.min(self.bytes.len()));
        self.bytes = left;
        taken
    }

    // What is left from `place` bytes on.
    pub(crate) fn at(mut self, place: usize) -> Cases<'a> {
        self.take(place);
        self
    }

    // What is left past a case of `size` bytes: nothing, where it would not get on.
    pub(crate) fn after(self, size: usize) -> Cases<'a> {
        if size == 0 {
            return Cases { bytes: &[] };
        }
        self.at(size)
    }

    // Takes the next bytes into an array, over zeros.
    pub(crate) fn array<const N: usize>(&mut self) -> [u8; N] {
        let mut bytes = [0; N];
        fields_write::copy(&mut bytes, 0, self.take(N));
        bytes
    }

    // Takes a number of 16 bits.
    pub(crate) fn u16(&mut self) -> u16 {
        fields_read::read16(self.take(2), 0)
    }

    // Takes a number of 32 bits.
    pub(crate) fn u32(&mut self) -> u32 {
        fields_read::read32(self.take(4), 0)
    }

    // Takes a number of 64 bits.
    pub(crate) fn u64(&mut self) -> u64 {
        fields_read::read64(self.take(8), 0)
    }

    // Takes a length or a place, of 32 bits.
    pub(crate) fn size(&mut self) -> usize {
        self.u32() as usize
    }

    // Builds the image over zeros whose form comes next: length, number of patches, and each patch with its offset.
    pub(crate) fn image<'b>(&mut self, room: &'b mut [u8; IMAGE]) -> &'b [u8] {
        let len = self.size();
        for _ in 0..self.u32() {
            let offset = self.size();
            let count = self.size();
            fields_write::copy(room, offset, self.take(count));
        }
        &room[..len.min(IMAGE)]
    }
}

// Fills a buffer with numbers that begin with `first`, each made of the one before it.
pub(crate) fn fill<T: Copy, F: Fn(T) -> T>(out: &mut [T], first: T, next: F)
    requires { F.IsAlwaysCallable next }
{
    let mut number = first;
    for place in out {
        *place = number;
        number = next(number);
    }
}

// The checksum of what comes out, in the making.
#[derive(Clone, Copy)]
pub(crate) struct Sum {
    state: u32,
}

impl Sum {
    // No bytes yet.
    pub(crate) fn new() -> Sum {
        Sum {
            state: crc32::start(),
        }
    }

    // Goes on with these bytes.
    pub(crate) fn add(&mut self, bytes: &[u8]) {
        self.state = crc32::update(self.state, bytes);
    }

    // The checksum of all bytes so far.
    pub(crate) fn finish(&self) -> u32 {
        crc32::finish(self.state)
    }
}

// Prints an answer: the number of the refusal, and the numbers of the array beside it.
pub(crate) fn answer(line: &mut impl Write, number: u32, out: &[u64]) -> io::Result<()> {
    write!(line, " {number}")?;
    for n in out {
        write!(line, " {n}")?;
    }
    Ok(())
}
