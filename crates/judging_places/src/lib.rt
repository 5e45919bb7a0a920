// Places: "A place is a plain entry number." What is asked of a place to fill and of one whose right is used, how long a right has been
// frozen, and what is asked of a creation's address, each in document 01's order.
#![tactic(auto)]

pub mod addresses;
pub mod ages;
pub mod places;
