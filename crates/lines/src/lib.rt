// What a person types at the console: a line gathered from its bytes, its words, the numbers among them, and the request that the
// line makes.
#![tactic(auto)]

pub mod counts;
mod forms;
pub mod gather;
mod line_words;
pub mod numbers;
mod operands;
pub mod requests;
pub mod spans;
mod split;
