// Numbers of a few bytes in a list of bytes, low byte first, and bytes placed in a list, as definitions and laws. No code.
#![tactic(auto)]
