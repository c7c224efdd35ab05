//! Automata as text: a reader of files, and a printer.
#![tactic(auto)]

mod error;
mod placed_names;
mod printer;
mod reader;
mod reading;
mod rules;
mod scan;
mod table;
mod tables;
mod taking;

pub use error::{Counted, TextError};
pub use printer::print;
pub use reader::Reader;
