// The raw and the fill writer: each fills the part of a partition that it is lent, whatever its length. A byte past the end
// of the image counts as 0.
#![tactic(auto)]

ghost use Rattle.std.specs.Prelude.{◌≡◌, ℕ, ◌+◌, ◌≤◌, ◌<◌, length, get_or};
ghost use Rattle.sparse_rules.specs.Cells.{tab, raw_byte, fill_byte};

// The byte so many past a place of the image, and 0 where it has none there. The test has the offset in it: it changes in
// the loops below, so no compiler makes a run of zeros of them, and the library needs nothing from outside.
fn byte(image: &[u8], at: usize, offset: usize) -> u8
    ensures { result ≡ get_or image.now (at + offset) 0 }
{
    image.get(at.saturating_add(offset)).copied().unwrap_or(0)
}

// The data at a place, all of which the image holds.
#[tactic(auto, using(sparse_rules::proofs::Filled::filled_all))]
fn copy(part: &mut [u8], image: &[u8], at: usize)
    requires { at + length part.old ≤ length image.now }
    ensures { part.new ≡ tab (raw_byte image.now at) 0 (length part.old) }
{
    for (i, x) in part.iter_mut().enumerate() {
        *x = image[at + i];
    }
}

// The raw writer: the part becomes the data that stand at a place of the image.
#[tactic(auto, using(sparse_rules::proofs::Filled::filled_all))]
pub fn put_raw(part: &mut [u8], image: &[u8], at: usize)
    ensures { part.new ≡ tab (raw_byte image.now at) 0 (length part.old) }
{
    if at <= image.len() && part.len() <= image.len() - at {
        copy(part, image, at);
        return;
    }
    for (i, x) in part.iter_mut().enumerate() {
        *x = byte(image, at, i);
    }
}

// Each byte past the first 16 becomes the one 16 before it, many of them at a time.
#[tactic(auto, using(sparse_rules::proofs::Filled::filled_all))]
fn spread(part: &mut [u8])
    ensures { (f : ℕ → ℕ) → ((k : ℕ) → k < 16 → k < length part.old → get_or part.old k 0 ≡ f k)
        → ((k : ℕ) → f (k + 16) ≡ f k) → part.new ≡ tab f 0 (length part.old) }
{
    for i in 16..part.len() {
        part[i] = part[i - 16];
    }
}

// The fill writer: the part becomes the 4 bytes that stand at a place of the image, repeated.
pub fn put_fill(part: &mut [u8], image: &[u8], at: usize)
    ensures { part.new ≡ tab (fill_byte image.now at) 0 (length part.old) }
{
    for i in 0..part.len().min(16) {
        part[i] = byte(image, at, i % 4);
    }
    spread(part);
}
