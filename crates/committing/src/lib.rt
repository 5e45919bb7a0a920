// The half of a call that writes: one writer for each action, and `carry_out` over all of them. Each is used on a sound buffer and asks
// what `Ready` says of its action; the buffer it leaves is the bytes of the state after the action. No type holds the first: a sound
// buffer is lent by the caller as plain bytes, and `carry_out` asks both of any action.
#![tactic(auto)]

pub mod actions;
pub mod answers;
pub mod contents;
pub mod creations;
pub mod deletions;
pub mod places;
