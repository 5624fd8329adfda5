// The slot operations over the bytes of a lent record, with their answers as numbers in a lent array.
#![tactic(auto)]

ghost use Rattle.std.specs.Prelude.{◌≡◌, [], ◌∷◌};
ghost use Rattle.slot_on_bytes.specs.OnBytes.{on_bytes, fresh_bytes, bytes_refusal, bytes_startable};

use slot_bytes::RECORD;
use slot_on_bytes::Reply;
use slot_rules::Op;

// Hands a reply over: its bytes and its array to what is lent, its number to the caller.
fn hand_over(made: Reply, bytes: &mut [u8; RECORD], out: &mut [u64; 2]) -> u32
    ensures { (result ≡ made.number) × (out.new ≡ made.answer) × (bytes.new ≡ made.bytes) }
{
    let after = made.bytes;
    let told = made.answer;
    *bytes = after;
    *out = told;
    made.number
}

// Makes a fresh slot record; a refusal leaves the bytes.
pub fn fresh(slots: u32, bytes: &mut [u8; RECORD], out: &mut [u64; 2]) -> u32
    ensures { (result ≡ (fresh_bytes slots bytes.old).number)
        × (out.new ≡ (fresh_bytes slots bytes.old).answer)
        × (bytes.new ≡ (fresh_bytes slots bytes.old).bytes) }
{
    let made = slot_on_bytes::fresh(*bytes, slots);
    hand_over(made, bytes, out)
}

// Start.
pub fn start(bytes: &mut [u8; RECORD], out: &mut [u64; 2]) -> u32
    ensures { (result ≡ (on_bytes Op.Start bytes.old).number)
        × (out.new ≡ (on_bytes Op.Start bytes.old).answer)
        × (bytes.new ≡ (on_bytes Op.Start bytes.old).bytes) }
{
    let made = slot_on_bytes::operate(*bytes, Op::Start);
    hand_over(made, bytes, out)
}

// Set active.
pub fn set_active(bytes: &mut [u8; RECORD], slot: u32, out: &mut [u64; 2]) -> u32
    ensures { (result ≡ (on_bytes (Op.SetActive slot) bytes.old).number)
        × (out.new ≡ (on_bytes (Op.SetActive slot) bytes.old).answer)
        × (bytes.new ≡ (on_bytes (Op.SetActive slot) bytes.old).bytes) }
{
    let made = slot_on_bytes::set_active(*bytes, slot);
    hand_over(made, bytes, out)
}

// Partition modified.
pub fn modified(bytes: &mut [u8; RECORD], slot: u32, out: &mut [u64; 2]) -> u32
    ensures { (result ≡ (on_bytes (Op.Modified slot) bytes.old).number)
        × (out.new ≡ (on_bytes (Op.Modified slot) bytes.old).answer)
        × (bytes.new ≡ (on_bytes (Op.Modified slot) bytes.old).bytes) }
{
    let made = slot_on_bytes::partition_modified(*bytes, slot);
    hand_over(made, bytes, out)
}

// Corrupted: the slot's system was found damaged.
pub fn corrupted(bytes: &mut [u8; RECORD], slot: u32, out: &mut [u64; 2]) -> u32
    ensures { (result ≡ (on_bytes (Op.Corrupted slot) bytes.old).number)
        × (out.new ≡ (on_bytes (Op.Corrupted slot) bytes.old).answer)
        × (bytes.new ≡ (on_bytes (Op.Corrupted slot) bytes.old).bytes) }
{
    let made = slot_on_bytes::slot_corrupted(*bytes, slot);
    hand_over(made, bytes, out)
}

// Confirm. The system calls this, never the loader.
pub fn confirm(bytes: &mut [u8; RECORD], out: &mut [u64; 2]) -> u32
    ensures { (result ≡ (on_bytes Op.Confirm bytes.old).number)
        × (out.new ≡ (on_bytes Op.Confirm bytes.old).answer)
        × (bytes.new ≡ (on_bytes Op.Confirm bytes.old).bytes) }
{
    let made = slot_on_bytes::operate(*bytes, Op::Confirm);
    hand_over(made, bytes, out)
}

// Whether bytes are a valid slot record: 0, or 31.
pub fn valid(bytes: &[u8; RECORD]) -> u32
    ensures { result ≡ bytes_refusal bytes.now }
{
    slot_on_bytes::bytes_refusal(*bytes)
}

// How many slots of a record are startable, as the record keeps it, or 0 beside the refusal 31.
pub fn startable(bytes: &[u8; RECORD], out: &mut [u64; 1]) -> u32
    ensures { (result ≡ (bytes_startable bytes.now).number)
        × (out.new ≡ (bytes_startable bytes.now).startable ∷ []) }
{
    let told = slot_on_bytes::startable(*bytes);
    *out = [told.startable];
    told.number
}
