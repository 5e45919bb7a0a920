// The judges of calls 1 to 5: create table, delete table, delegate, freeze and remove. They only read.
// A judge takes what its rule takes, state, caller's table and words, in that order, and no type for the three: the two are read line by line.
#![tactic(auto)]

pub mod create;
pub mod delegate;
pub mod delete;
pub mod empty;
pub mod freeze;
pub mod grants;
pub mod remove;
