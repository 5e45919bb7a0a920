// Document 01 as rules: definitions in specs/, what is proved of them in proofs/. The code that follows them stands in the crates above.
#![tactic(auto)]

// "call number not 1..20"
pub const CALLS: u32 = 20;
