// Cases of one image: boot images located, also by launch release, sparse images judged, and flat bytes written as sparse images.
ghost use Rattle.std.specs.Prelude.{◌≡◌, length};

use crate::support::{Cases, IMAGE, answer, fill};
use std::io;
use std::io::Write;

// How many bytes are lent at most for a sparse image that is written.
const ROOM: usize = 262144;

// Zeros in which a sparse image is written: so long an array is told by its length alone.
fn space() -> [u8; ROOM]
    ensures { length result ≡ ROOM }
{
    [0; ROOM]
}

// Prints the values of the next boot image.
pub(crate) fn boot(line: &mut impl Write, cases: &mut Cases<'_>) -> io::Result<()> {
    let mut room = [0u8; IMAGE];
    let image = cases.image(&mut room);
    let mut out = [0u64; 17];
    let number = tarpaulark::tarpaulark_locate(image, &mut out);
    answer(line, number, &out)
}

// Prints the values of the next boot image for the release and the kernel before it.
pub(crate) fn launch(line: &mut impl Write, cases: &mut Cases<'_>) -> io::Result<()> {
    let release = cases.u32();
    let kernel = cases.u32();
    let mut room = [0u8; IMAGE];
    let image = cases.image(&mut room);
    let mut out = [0u64; 17];
    let number = tarpaulark::tarpaulark_locate_for(image, release, kernel, &mut out);
    answer(line, number, &out)
}

// Prints the values of the next sparse image, for the partition's length before it.
pub(crate) fn sparse(line: &mut impl Write, cases: &mut Cases<'_>) -> io::Result<()> {
    let partition_len = cases.u64();
    let mut room = [0u8; IMAGE];
    let image = cases.image(&mut room);
    let mut out = [0u64; 4];
    let number = tarpaulark::tarpaulark_judge(image, partition_len, &mut out);
    answer(line, number, &out)
}

// Prints the values of the next flat bytes, for the block size and the length to write in before them.
pub(crate) fn write(line: &mut impl Write, cases: &mut Cases<'_>) -> io::Result<()> {
    let block_size = cases.u32();
    let len = cases.size();
    let mut room = [0u8; IMAGE];
    let flat = cases.image(&mut room);
    let mut space = space();
    let image = &mut space[..len.min(ROOM)];
    fill(image, 11, |byte: u8| byte.wrapping_add(5));
    let mut out = [0u64; 2];
    let number = tarpaulark::tarpaulark_write(flat, block_size, image, &mut out);
    write!(line, " {number} {} {}", out[1], crc32::checksum(image))
}
