// What the rules of every part share, as definitions and laws with no code: a list of tests with
// their refusal numbers (specs/First.antt), and a rule that holds at each entry of a table
// (specs/Every.antt).
#![tactic(auto)]
