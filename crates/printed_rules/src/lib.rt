// What a program prints that reads an input and prints its text, as laws over any text. No code.
#![tactic(auto)]
