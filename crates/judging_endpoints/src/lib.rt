// The judges of calls 18 to 20: send, receive and function. They only read.
// A judge takes what its rule takes, state, caller's table and words, in that order, and no type for the three: the two are read line by line.
#![tactic(auto)]

pub mod functions;
pub mod receive;
pub mod send;
