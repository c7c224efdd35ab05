//! What an upward search for inclusion keeps true of its entries, and what its ends mean.
//!
//! A search keeps entries: pairs of a state of the left automaton and a set of states of the right
//! one, each with the step to it from earlier ones. It adds a pair only where no kept entry covers
//! it, and takes out the kept entries that the new one covers.
#![tactic(auto)]

mod laws;

pub use laws::{
    closed_search_is_certificate, full_search_is_trail, rejecting_entry_refutes, search_keeps_up,
    trails_are_bounded,
};
