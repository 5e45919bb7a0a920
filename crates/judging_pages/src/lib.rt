// The judges of calls 8 to 11: map page, remove page, construct and destruct. They only read.
// A judge takes what its rule takes, state, caller's table and words, in that order, and no type for the three: the two are read line by line.
#![tactic(auto)]

pub mod construct;
pub mod destruct;
pub mod map_page;
pub mod pages;
pub mod positions;
pub mod remove_page;
