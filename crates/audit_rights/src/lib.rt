// The part of the check of a state that looks at each right, but for its parent chain: what it names, its flags and range, and
// that it is whole or lies inside its parent.
#![tactic(auto)]

pub mod kinds;
pub mod parents;
pub mod rights;
