//! Upward inclusion by a search over pairs of a state of the left automaton and a set of states of
//! the right one, of which only those are kept that no other covers (after Abdulla, Chen, Holík,
//! Mayr and Vojnar, 2010).
#![tactic(auto)]

mod answers;
mod by_state;
mod entries;
mod entry;
mod orders;
mod search;

pub use search::includes;
