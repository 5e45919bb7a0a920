// Capability arguments: "RANGE, FROZEN, TYPE, FLAG, at each step of a two-step number (the first step needs no flag)". Each
// lookup answers an enum, found entry or refusal, and what it answers is what the rule of the same name says. State, table and number stand
// apart, as the rule has them (`st t v`), and in no type: the two are read line by line.
#![tactic(auto)]

pub mod arguments;
pub mod callers;
pub mod kinds;
pub mod lookups;
