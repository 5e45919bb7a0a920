// "objects lie in kernel memory and don't overlap": the first part of the check of a state, which reads the notes only.
#![tactic(auto)]

pub mod layout;
pub mod sizes;
