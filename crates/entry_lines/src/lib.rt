//! The lines of a budget and of the entries of an upward trail.
//!
//! They are the line `budget K`, the line `entries N` where N is one more than K, and a line for each
//! entry, as `q : s1 s2 : f(1,2)`: a pair, a symbol, and the numbers of the earlier entries that are
//! its children. What reading refuses, and where, is said by `up_entries_in` in `specs`.
//! `laws` says that what is printed is read back, and nothing else.
#![tactic(auto)]

mod laws;
mod printer;
mod reader;
mod written;

pub use laws::{only_printed_up_entries_are_read, printed_up_entries_are_read_back};
pub use printer::put_up_entries;
pub use reader::read_up_entries;
