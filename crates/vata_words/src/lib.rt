//! The words of a command line, read as a request.
//!
//! - `request`: what a line asks for, and what is wrong with a line that asks for nothing.
//! - `number`: a number in decimal digits.
//! - `settings`: the list of settings after `-o`.
//! - `command`: the seven commands, and what each takes.
//! - `given`: what the words read so far have given.
//! - `asking`: the request, by what the words of a whole line give.
//! - `reading`: the whole line.
#![tactic(auto)]

mod asking;
mod command;
mod given;
mod number;
mod reading;
mod request;
mod settings;

pub use reading::{check_request_of, request_of};
pub use request::{CheckRequest, Dir, Encoding, Request, WordFault};
