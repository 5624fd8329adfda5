// The tests that the state of a pass makes as bytes come: of the file header, where a chunk begins or the image ends, and
// of a chunk header; and the refusal that follows.
#![tactic(auto)]

ghost use Rattle.std.specs.Prelude.{◌≡◌, cond};
ghost use Rattle.sparse_stream_rules.specs.State.{stop_or};
ghost use Rattle.sparse_stream_rules.specs.Steps.{header_number, opened, arrival, arrived, settled, chunk_number};

use sparse_rules::Refusal;
use sparse_stream_rules::Pass;
use sparse_stream_state::{blocks_now, header_of, kind_now, size_now};

// The number of a refusal where its test applies, and 0 where it does not. Here 0 stays the sign for none: the
// definitions that these functions equal have it so, and a pass in its bytes.
fn number_if(applies: bool, number: u32) -> u32
    ensures { result ≡ cond applies number 0 }
{
    if applies { number } else { 0 }
}

// The first of refusals 1 to 6 that applies, as far as their bytes have come; 0 where none does.
pub fn header_number(file: &[u8; 28], came: usize, len: usize, room: u64) -> u32
    ensures { result ≡ header_number file.now came len room }
{
    if len < 28 {
        return 1;
    }
    if came < 4 {
        return 0;
    }
    if fields_read::read32(file, 0) != 0xED26FF3A {
        return 2;
    }
    if came < 6 {
        return 0;
    }
    if fields_read::read16(file, 4) != 1 {
        return 3;
    }
    if came < 12 {
        return 0;
    }
    let header = sparse_read::read_header(file);
    if sparse_read::sizes_right(header.start, header.head, len) {
        if came < 16 {
            return 0;
        }
        if sparse_read::block_right(header.block) {
            if came < 20 {
                return 0;
            }
            return number_if(room < sparse_read::bytes_of(header.total, header.block), 6);
        }
        return 5;
    }
    4
}

// The state refused at a place; 0 refuses nothing.
pub fn refuse(x: Pass, number: u32, place: u64) -> Pass
    ensures { result ≡ stop_or number place x x }
{
    if number == 0 {
        return x;
    }
    Pass {
        refusal: Refusal { number, place },
        ..x
    }
}

// The first call's test, which reads no byte.
pub fn opening(x: Pass) -> Pass
    ensures { result ≡ opened x }
{
    if x.come.bytes == 0 {
        let file = x.kept.file;
        let number = header_number(&file, 0, x.told.length, x.told.room);
        return refuse(x, number, 0);
    }
    x
}

// What is refused where a chunk begins, or where the image ends; 0 where nothing is.
fn arrival_number(x: Pass) -> u32
    ensures { result ≡ arrival x }
{
    let header = header_of(x);
    if 0 < x.walk.left {
        if x.told.length < x.walk.next.at {
            return 7;
        }
        if x.told.length - x.walk.next.at < header.head as usize {
            return 7;
        }
        return 0;
    }
    if x.walk.next.first < header.total {
        return 9;
    }
    if x.walk.next.at < x.told.length {
        return 10;
    }
    number_if(
        (header.checksum != 0) & (crc32::finish(x.come.sum) != header.checksum),
        11,
    )
}

// The state that has come to where a chunk begins, or to the end.
fn arrive(x: Pass) -> Pass
    ensures { result ≡ arrived x }
{
    let number = arrival_number(x);
    if number == 11 {
        return refuse(x, number, 24);
    }
    refuse(x, number, x.walk.next.at as u64)
}

// The state after some bytes, which may have come up to there.
pub fn settle(x: Pass) -> Pass
    ensures { result ≡ settled x }
{
    if x.come.bytes == x.walk.next.at {
        return arrive(x);
    }
    x
}

// What is refused of the chunk whose header has come; 0 where nothing is.
pub fn chunk_number(x: Pass) -> u32
    ensures { result ≡ chunk_number x }
{
    let header = header_of(x);
    let blocks = blocks_now(x);
    let size = size_now(x);
    if sparse_read::size_right(header, kind_now(x), blocks, size) {
        if x.told.length < x.walk.next.at {
            return 7;
        }
        if x.told.length - x.walk.next.at < size as usize {
            return 7;
        }
        return number_if(
            (header.total as u64) < x.walk.next.first as u64 + blocks as u64,
            9,
        );
    }
    8
}
