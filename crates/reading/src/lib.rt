// What is read of the lent buffer. Every reader is total: it promises what stands in the state that the buffer is read as,
// of any buffer, so that a judge or a check that calls it has nothing to show first.
#![tactic(auto)]

pub mod bytes;
pub mod clock;
pub mod directories;
pub mod endpoints;
pub mod notes;
pub mod places;
pub mod positions;
pub mod processes;
pub mod tables;
