// The state of a pass as 112 bytes, written and read. specs/Layout.antt has the layout. Any bytes at all are a state.
#![tactic(auto)]

ghost use Rattle.std.specs.Prelude.{◌≡◌, ◌++◌, length, replicate, take};
ghost use Rattle.std.proofs.lemmas.List.Edits.{sets};
ghost use Rattle.fields_rules.specs.Number.{packed};
ghost use Rattle.sparse_stream_bytes.specs.Layout.{start_numbers, walk_numbers, pass_bytes, walk_of, kept_of, pass_of};
ghost use Rattle.sparse_stream_bytes.specs.Promises.{AllFit};

use sparse_rules::{Counts, Cursor, Refusal};
use sparse_stream_rules::{Come, Kept, Pass, Told, Walk};

// The bytes of what a state was told, of its refusal and of what has come, and zeros for the rest.
fn put_start(told: Told, refusal: Refusal, come: Come) -> [u8; 112]
    ensures { (result ≡ sets (replicate 112 0) 0 (packed (start_numbers told.length told.room refusal.number refusal.place come.bytes come.sum)))
        × AllFit (start_numbers told.length told.room refusal.number refusal.place come.bytes come.sum) }
{
    let mut b = [0u8; 112];
    fields_write::write64(&mut b, 0, told.length as u64);
    fields_write::write64(&mut b, 8, told.room);
    fields_write::write32(&mut b, 16, refusal.number);
    fields_write::write64(&mut b, 20, refusal.place);
    fields_write::write64(&mut b, 28, come.bytes as u64);
    fields_write::write32(&mut b, 36, come.sum);
    b
}

// The bytes b with those of a walk in their place.
fn put_walk(b: [u8; 112], walk: Walk) -> [u8; 112]
    ensures { (result ≡ sets b 40 (packed (walk_numbers walk.next.at walk.next.first walk.left walk.counts.written walk.counts.dont_care walk.counts.unknown)))
        × AllFit (walk_numbers walk.next.at walk.next.first walk.left walk.counts.written walk.counts.dont_care walk.counts.unknown) }
{
    let mut n = b;
    fields_write::write64(&mut n, 40, walk.next.at as u64);
    fields_write::write32(&mut n, 48, walk.next.first);
    fields_write::write32(&mut n, 52, walk.left);
    fields_write::write32(&mut n, 56, walk.counts.written);
    fields_write::write32(&mut n, 60, walk.counts.dont_care);
    fields_write::write32(&mut n, 64, walk.counts.unknown);
    n
}

// The bytes b with those that are kept in their place, the last.
fn put_kept(b: [u8; 112], kept: Kept) -> [u8; 112]
    ensures { (result ≡ take 68 b ++ (kept.file ++ (kept.chunk ++ kept.word)))
        × (length kept.file ≡ 28) × (length kept.chunk ≡ 12) × (length kept.word ≡ 4) }
{
    let mut n = b;
    fields_write::copy(&mut n, 68, &kept.file);
    fields_write::copy(&mut n, 96, &kept.chunk);
    fields_write::copy(&mut n, 108, &kept.word);
    n
}

// A state's bytes, which say the state again.
pub fn pass_bytes(x: Pass) -> [u8; 112]
    ensures { (result ≡ pass_bytes x) × (pass_of result ≡ x) }
{
    let start = put_start(x.told, x.refusal, x.come);
    let numbers = put_walk(start, x.walk);
    put_kept(numbers, x.kept)
}

// The bytes that are kept.
fn kept_of(b: [u8; 112]) -> Kept
    ensures { result ≡ kept_of b }
{
    let mut file = [0u8; 28];
    let mut chunk = [0u8; 12];
    let mut word = [0u8; 4];
    fields_write::copy(&mut file, 0, &b[68..96]);
    fields_write::copy(&mut chunk, 0, &b[96..108]);
    fields_write::copy(&mut word, 0, &b[108..112]);
    Kept { file, chunk, word }
}

// The walk that bytes say.
fn walk_of(b: [u8; 112]) -> Walk
    ensures { result ≡ walk_of b }
{
    let next = Cursor {
        at: fields_read::read64(&b, 40) as usize,
        first: fields_read::read32(&b, 48),
    };
    let left = fields_read::read32(&b, 52);
    let counts = Counts {
        written: fields_read::read32(&b, 56),
        dont_care: fields_read::read32(&b, 60),
        unknown: fields_read::read32(&b, 64),
    };
    Walk { next, left, counts }
}

// The state that bytes say.
pub fn pass_of(b: [u8; 112]) -> Pass
    ensures { result ≡ pass_of b }
{
    let told = Told {
        length: fields_read::read64(&b, 0) as usize,
        room: fields_read::read64(&b, 8),
    };
    let refusal = Refusal {
        number: fields_read::read32(&b, 16),
        place: fields_read::read64(&b, 20),
    };
    let come = Come {
        bytes: fields_read::read64(&b, 28) as usize,
        sum: fields_read::read32(&b, 36),
    };
    let walk = walk_of(b);
    let kept = kept_of(b);
    Pass {
        told,
        refusal,
        come,
        walk,
        kept,
    }
}
