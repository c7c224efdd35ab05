//! The greatest downward and the greatest upward simulation of an automaton.
//!
//! Each begins with all pairs of states and clears those that fail. What rests on a cleared pair is
//! looked at again, and nothing else.
#![tactic(auto)]

mod downward;
mod lost;
mod ops;
mod symbols;
mod upward;

pub use ops::{SimError, down, up};
