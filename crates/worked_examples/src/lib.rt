// The worked examples P1 to P14 of document 01, proved together over one table: definitions and one
// theorem, with no code. specs/Calls.antt says what is called and what comes back, specs/Table.antt
// has a row for each example, proofs/Worked.antt computes them all.
#![tactic(auto)]
