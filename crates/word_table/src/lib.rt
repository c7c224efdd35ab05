//! Words, one behind the other in one block of bytes, and a table that finds the place of a word.
#![tactic(auto)]

mod index;
mod numbered;
mod slots;
mod table;
mod words;

pub use table::WordTable;
pub use words::Words;
