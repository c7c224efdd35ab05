//! Inclusion of one listed automaton in another, by an upward search over the identities or over
//! the greatest upward simulations.
#![tactic(auto)]

mod asking;
mod limits;
mod relation;

pub use asking::{InclusionError, includes_upward};
