// "free and unused bytes are zero": the second part of the check of a state. Each word is read once and compared with what it may be.
#![tactic(auto)]

pub mod canonical;
pub mod directories;
pub mod notes;
pub mod objects;
pub mod places;
pub mod tables;
pub mod zeros;
