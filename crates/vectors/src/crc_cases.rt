// CRC-32: the state after some bytes, zero bytes or a word repeated, and the checksum of some bytes.
use crate::support::Cases;
use std::io;
use std::io::Write;

// What goes into the state.
enum Kind {
    Bytes,
    Zeros,
    Word,
}

impl From<u32> for Kind {
    fn from(kind: u32) -> Kind {
        match kind {
            0 => Kind::Bytes,
            1 => Kind::Zeros,
            _ => Kind::Word,
        }
    }
}

// Prints the values of the next case.
pub(crate) fn case(line: &mut impl Write, cases: &mut Cases<'_>) -> io::Result<()> {
    let kind = Kind::from(cases.u32());
    let state = cases.u32();
    let n = cases.u64();
    let word = cases.u32();
    let len = cases.size();
    let bytes = cases.take(len);
    match kind {
        Kind::Bytes => write!(
            line,
            " {} {}",
            crc32::update(state, bytes),
            crc32::checksum(bytes)
        ),
        Kind::Zeros => write!(line, " {}", crc32::update_zeros(state, n)),
        Kind::Word => write!(line, " {}", crc32::update_word(state, word, n)),
    }
}
