// Intel HEX as a text: what a line, a record and a whole text are, the numbers of a record, and the fault of a text that is refused.
#![tactic(auto)]

pub mod faults;
pub mod marks;
