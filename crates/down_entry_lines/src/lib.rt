//! The lines of a budget and of the entries of a downward trail.
//!
//! They are the line `budget K`, the line `entries N` where N is one more than K, and a line for each
//! entry: `pair q : s1 s2 : root`, a pair to begin with; `pair q : s1 s2 : child 1 2`, a pair with the
//! number of an earlier split and that of a child of its rule; or `split 1 : f(q1,q2) : 2 1`, the
//! number of an earlier pair, a rule of A to its state, and a child's number for each tuple. Numbers
//! count from 1. What reading refuses, and where, is said by `down_entries_in` in `specs`.
//! `laws` says that what is printed is read back, and nothing else.
#![tactic(auto)]

mod judging;
mod laws;
mod printer;
mod reader;
mod rule_places;
mod written;

pub use laws::{only_printed_down_entries_are_read, printed_down_entries_are_read_back};
pub use printer::put_down_entries;
pub use reader::read_down_entries;
