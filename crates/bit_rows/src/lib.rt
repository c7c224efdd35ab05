//! Rows of bits, worked on lane-wise.
//!
//! `Row` is a list of truth values, one bit each, and is read as the set of the places that hold
//! true. Only `zeros` and `copy` take memory.
#![tactic(auto)]

mod first;
mod lanes;
mod row;

pub use row::Row;
