// The values that the kernel speaks in: numbers, refusals, capabilities, the words of a call and grants of memory.
#![tactic(auto)]

pub mod actions;
pub mod calls;
pub mod capabilities;
pub mod fields;
pub mod flag_bits;
pub mod grants;
pub mod kinds;
pub mod layout;
pub mod numbers;
pub mod refusals;
pub mod sizes;
