// The judges of calls 6 and 7: create directory and delete directory. They only read.
// A judge takes what its rule takes, state, caller's table and words, in that order, and no type for the three: the two are read line by line.
#![tactic(auto)]

pub mod create_directory;
pub mod delete_directory;
pub mod geometry;
pub mod hanging;
