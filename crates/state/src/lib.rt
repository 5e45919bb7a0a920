// The state as a list of objects and as 17,472 bytes: definitions in specs/, their laws in proofs/. The code that reads and
// writes the lent bytes stands in the crates above.
#![tactic(auto)]

// "A state is a lent buffer of exactly 17,472 bytes".
pub const STATE_LENGTH: usize = 17472;
