//! The conditions on the entries of a downward trail, each judged by a call of its own.
//!
//! An entry is a pair to begin with, the pair of a child of an earlier split, or a split of an
//! earlier pair. What fails is told by its place, counted from 1.
#![tactic(auto)]

mod closed;
mod entry;
mod repeats;
mod sent;
mod splits;
mod steps;
mod tuples;

pub use closed::first_covered_alone;
pub use repeats::first_repeated_entry;
pub use steps::first_wrong_entry;
