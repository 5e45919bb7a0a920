// The part of the check of a state that looks at each object's own fields: sizes, geometry, pages and children, what a
// process names.
#![tactic(auto)]

pub mod directories;
pub mod objects;
