// CRC-32 as definitions and laws: one bit a step, half a byte a step, runs of one piece. No code.
#![tactic(auto)]
