// The judges of calls 12 to 17: create process, delete process, change table, change directory, create endpoint and delete endpoint.
// They only read.
// A judge takes what its rule takes, state, caller's table and words, in that order, and no type for the three: the two are read line by line.
#![tactic(auto)]

pub mod changes;
pub mod endpoints;
pub mod processes;
