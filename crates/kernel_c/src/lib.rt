// The kernel as C calls it: an export for each function of `kernel`, of the same name and with the same contract. It is a crate of its
// own since nothing can rest on a static library.
#![tactic(auto)]

pub mod calls;
pub mod firmware;
pub mod grants;
pub mod runs;
pub mod states;
