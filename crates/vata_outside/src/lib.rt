//! What a program asks of the outside, and five types that answer it.
//!
//! `Files` is files by name, one of which is selected and read from its front. `Sink` is a place that
//! bytes are written to, and `write_all_of` writes all of a text to one. `Failed` is the one error of both.
//! `MemFiles` and `MemSink` are in memory, and fail at the calls that they are told. `RealFiles`, `RealOut`
//! and `RealErr` are over the system's files and writers.
#![tactic(auto)]

mod faults;
mod held;
mod memory;
mod outside;
mod real;

pub use memory::{MemFiles, MemSink};
pub use outside::{Failed, Files, Sink, write_all_of};
pub use real::{RealErr, RealFiles, RealOut};
