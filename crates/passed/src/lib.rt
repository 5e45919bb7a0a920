// What a passed plan tells, once for every theorem about the rules: the facts are in specs/, the walk of the twenty calls in proofs/.
#![tactic(auto)]

// One walk for each call.
pub const WALKS: u32 = 20;
