// The kernel as its users call it. Each function takes any buffer and any words, and refuses what it must; none has a condition. An answer is
// a number, and the caller and the words of a call stand apart, as C has them (`kernel_c`, include/thepharok.h).
#![tactic(auto)]

pub mod calls;
pub mod firmware;
pub mod grants;
pub mod runs;
pub mod states;
