// What is put into the lent buffer of 17,472 bytes. Each writer promises the buffer with one part replaced, by the definitions of the
// layout, and asks only that the part lies in the buffer.
#![tactic(auto)]

pub mod bytes;
pub mod clock;
pub mod directories;
pub mod endpoints;
pub mod notes;
pub mod processes;
pub mod slots;
pub mod tables;
