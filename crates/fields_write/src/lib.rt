// Numbers of two, four and eight bytes written into a slice of bytes, low byte first, and bytes copied.
//
// A number that does not fit whole is not written; a copy stores the bytes that have room.
#![tactic(auto)]

ghost use Rattle.std.specs.Prelude.{◌≡◌, ◌-◌, ◌≤◌, length, min};
ghost use Rattle.std.proofs.lemmas.List.Edits.{sets};
ghost use Rattle.fields_rules.specs.Number.{bytes, placed};

// How many of n bytes from `at` on have room in a slice of so many.
pub fn room(len: usize, at: usize, n: usize) -> usize
    ensures { result ≡ min n (len - at) }
{
    n.min(len.saturating_sub(at))
}

// The bytes of a slice stored from `at` on, where all have room. Kept a loop: `copy_from_slice` may become a call of the C
// library, and the static library needs nothing from outside.
#[tactic(auto, using(crate::proofs::Loops::copied_all))]
fn store(out: &mut [u8], at: usize, src: &[u8])
    requires { length src.now ≤ length out.old - at }
    ensures { out.new ≡ sets out.old at src.now }
{
    for (i, &x) in src.iter().enumerate() {
        out[at + i] = x;
    }
}

// The bytes of a number at `at`, where they fit whole.
#[tactic(auto, using(fields_rules::proofs::Laws::placed_none, fields_rules::proofs::Laws::placed_room))]
fn write(out: &mut [u8], at: usize, number: &[u8])
    ensures { out.new ≡ placed out.old at number.now }
{
    if room(out.len(), at, number.len()) < number.len() {
        return;
    }
    store(out, at, number);
}

// Two bytes at `at`.
#[tactic(auto, using(crate::proofs::Loops::le_bytes))]
pub fn write16(out: &mut [u8], at: usize, value: u16)
    ensures { out.new ≡ placed out.old at (bytes 2 value) }
{
    write(out, at, &u16::to_le_bytes(value));
}

// Four bytes at `at`.
#[tactic(auto, using(crate::proofs::Loops::le_bytes))]
pub fn write32(out: &mut [u8], at: usize, value: u32)
    ensures { out.new ≡ placed out.old at (bytes 4 value) }
{
    write(out, at, &u32::to_le_bytes(value));
}

// Eight bytes at `at`.
#[tactic(auto, using(crate::proofs::Loops::le_bytes))]
pub fn write64(out: &mut [u8], at: usize, value: u64)
    ensures { out.new ≡ placed out.old at (bytes 8 value) }
{
    write(out, at, &u64::to_le_bytes(value));
}

// The bytes of a slice stored from `at` on, as many as have room.
#[tactic(auto, using(crate::proofs::Loops::sets_room))]
pub fn copy(out: &mut [u8], at: usize, src: &[u8])
    ensures { out.new ≡ sets out.old at src.now }
{
    let fit = room(out.len(), at, src.len());
    store(out, at, &src[..fit]);
}
