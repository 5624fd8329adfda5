// What holds over every sequence of slot operations from a fresh record, as definitions and theorems. No code.
#![tactic(auto)]
