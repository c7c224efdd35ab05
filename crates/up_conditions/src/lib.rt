//! The conditions of upward certificates and trails, each judged by a call of its own.
//!
//! A certificate lists pairs of a state of A and a set of states of B, and an entry of a trail is a
//! pair with the step to it from earlier ones. What fails is told by its place, counted from 1.
#![tactic(auto)]

mod apart;
mod by_state;
mod choices;
mod covering;
mod entry;
mod entry_covers;
mod entry_steps;
mod finals;
mod sorted_rules;
mod step_index;
mod stepping;
mod trail;
mod upward;

pub use apart::first_covered;
pub use covering::{first_uncovered_leaf, first_uncovered_rule};
pub use entry_covers::first_covered_entry;
pub use finals::first_rejecting;
pub use listed_pairs::UpEntry;
pub use stepping::{post, rules_by_symbol};
pub use trail::{first_rejecting_entry, first_wrong_step};
pub use upward::is_up_simulation;
