//! Pairs of a state of one automaton and a set of states of another, as certificates list them, and
//! entries of trails: the order of pairs, and the words for the first place of a list where
//! something fails.
#![tactic(auto)]

mod entry;
mod order;
mod pair;

pub use entry::{DownEntry, UpEntry};
pub use order::{are_rising, pair_cmp};
pub use pair::Pair;
