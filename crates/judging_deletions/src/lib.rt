// What is asked of a place whose right is to go: "to delete: RANGE, NULL, FROZEN, TYPE, QUIE, REFCNT", "Remove: RANGE, NULL, FROZEN, QUIE,
// REFCNT", and the searches for a child or a user that the last of these makes.
#![tactic(auto)]

pub mod children;
pub mod deletions;
pub mod removals;
pub mod users;
