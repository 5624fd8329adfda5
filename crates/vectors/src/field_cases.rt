// Little-endian fields: numbers read at a place, and the bytes after a number is written there.
use crate::support::Cases;
use std::io;
use std::io::Write;

// How many bytes a case has at most.
const ROOM: usize = 4096;

// The checksum of some bytes after a write into them, in a room that is lent.
fn written<F: Fn(&mut [u8])>(room: &mut [u8; ROOM], bytes: &[u8], write: F) -> u32
    requires { F.IsAlwaysCallable write }
{
    let out = &mut room[..bytes.len().min(ROOM)];
    fields_write::copy(out, 0, bytes);
    write(out);
    crc32::checksum(out)
}

// Prints the values of the next case.
pub(crate) fn case(line: &mut impl Write, cases: &mut Cases<'_>) -> io::Result<()> {
    let place = cases.u64() as usize;
    let number = cases.u64();
    let len = cases.size();
    let bytes = cases.take(len);
    write!(
        line,
        " {} {} {}",
        fields_read::read16(bytes, place),
        fields_read::read32(bytes, place),
        fields_read::read64(bytes, place)
    )?;
    let mut room = [0u8; ROOM];
    let low16 = (number % 65536) as u16;
    let low32 = (number % 4294967296) as u32;
    write!(
        line,
        " {} {} {}",
        written(
            &mut room,
            bytes,
            |out| fields_write::write16(out, place, low16)
        ),
        written(
            &mut room,
            bytes,
            |out| fields_write::write32(out, place, low32)
        ),
        written(
            &mut room,
            bytes,
            |out| fields_write::write64(out, place, number)
        )
    )
}
