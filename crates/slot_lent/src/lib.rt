// The operations on a record that the loader keeps and lends: each calls the operation by value, stores
// the record that it hands back, and gives its answer.
#![tactic(auto)]

ghost use Rattle.std.specs.Prelude.{◌≡◌};
ghost use Rattle.slot_rules.specs.declared.Changed.{Changed};
ghost use Rattle.slot_rules.specs.Answers.{answer_of, change_of};
ghost use Rattle.slot_rules.specs.Operations.{start_of, set_active_of, modified_of, corrupted_of, confirm_of};
ghost use Rattle.slot_rules.specs.Applied.{apply};

use slot_rules::{Changed, Op, Outcome, Record, Refusal};

// Lends a record to an operation by value: the record that it hands back is stored.
fn lend<F: FnOnce(Record) -> Changed>(r: &mut Record, operation: F) -> Result<Outcome, Refusal>
    requires { F.IsAlwaysCallable operation }
    ensures { (c : Changed) × F.post operation r.old c × (result ≡ c.answer) × (r.new ≡ c.after) }
{
    let c = operation(*r);
    *r = c.after;
    c.answer
}

// Start on a lent record.
pub fn start(r: &mut Record) -> Result<Outcome, Refusal>
    ensures { (answer_of result ≡ (start_of r.old).answer) × (r.new ≡ (start_of r.old).after) }
{
    lend(r, slot_record::start)
}

// Set active on a lent record.
pub fn set_active(r: &mut Record, slot: u8) -> Result<Outcome, Refusal>
    ensures { (answer_of result ≡ (set_active_of r.old slot).answer) × (r.new ≡ (set_active_of r.old slot).after) }
{
    lend(r, |given| slot_record::set_active(given, slot))
}

// Partition modified on a lent record.
pub fn partition_modified(r: &mut Record, slot: u8) -> Result<Outcome, Refusal>
    ensures { (answer_of result ≡ (modified_of r.old slot).answer) × (r.new ≡ (modified_of r.old slot).after) }
{
    lend(r, |given| slot_record::partition_modified(given, slot))
}

// Corrupted on a lent record.
pub fn slot_corrupted(r: &mut Record, slot: u8) -> Result<Outcome, Refusal>
    ensures { (answer_of result ≡ (corrupted_of r.old slot).answer) × (r.new ≡ (corrupted_of r.old slot).after) }
{
    lend(r, |given| slot_record::slot_corrupted(given, slot))
}

// Confirm on a lent record.
pub fn confirm(r: &mut Record) -> Result<Outcome, Refusal>
    ensures { (answer_of result ≡ (confirm_of r.old).answer) × (r.new ≡ (confirm_of r.old).after) }
{
    lend(r, slot_record::confirm)
}

// Any operation on a record by value, through the lent form. A match, since the operations are the closed list of the rules.
pub fn operate(r: Record, op: Op) -> Changed
    ensures { change_of result ≡ apply op r }
{
    let mut n = r;
    let answer = match op {
        Op::Start => start(&mut n),
        Op::SetActive(slot) => set_active(&mut n, slot),
        Op::Modified(slot) => partition_modified(&mut n, slot),
        Op::Corrupted(slot) => slot_corrupted(&mut n, slot),
        Op::Confirm => confirm(&mut n),
    };
    Changed { answer, after: n }
}
