//! Certificates as values, which of them can be written for two automata, and what an upward search
//! may answer.
#![tactic(auto)]

mod certificate;

pub use certificate::Certificate;
