//! Square matrices of bits, as relations.
//!
//! `Matrix` is a square list of rows of `bit_rows`, and is read as a relation between the places
//! below its size, at most 20,000 of them. Making, copying and turning one take memory.
#![tactic(auto)]

mod block;
mod matrix;
mod rows;
mod turn;

pub use matrix::{Matrix, MatrixError};
