// Storing as definitions, and what demand 3 says of it as theorems, with the type of the cut form's answer. No code.
#![tactic(auto)]

use sparse_rules::Refusal;

// What the cut form answers: how many blocks it stored, or the judge's refusal.
pub type Stored = Result<u64, Refusal>;
