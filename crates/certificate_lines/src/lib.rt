//! Lines of certificates: those of a relation, and those of pairs.
//!
//! A relation of the name `left`, say, is the line `left identity`, or the line `left rows` and a
//! line of hexadecimal digits for each state. Pairs are a line `pairs N` and a line `q : s1 s2` for
//! each pair. Each text is printed and read back; what reading refuses, and where, is said by
//! `relation_in` and `pairs_in` in `specs`. Trails share the lines of their budget (`budgets`).
#![tactic(auto)]

pub mod budgets;
mod names;
mod pair_laws;
pub mod pairs;
mod relation_laws;
mod relations;
mod rows;

pub use names::StatePlaces;
pub use pair_laws::{only_printed_pairs_are_read, printed_pairs_are_read_back};
pub use pairs::{put_pairs, read_pairs};
pub use relation_laws::{only_printed_relations_are_read, printed_relations_are_read_back};
pub use relations::{put_relation, read_relation};
