//! The conditions of a downward certificate, each judged by a call of its own.
//!
//! A certificate lists pairs of a state of A and a set of states of B, beside one relation on the
//! states of both: those of A, then those of B. What fails is told by its place, counted from 1.
#![tactic(auto)]

mod apart;
mod between;
mod by_state;
mod choices;
pub mod downs;
mod downward;
mod finals;
mod order;
mod search;
pub mod shift;

pub use apart::first_covered;
pub use choices::first_refuted;
pub use downward::is_down_simulation;
pub use finals::first_uncovered_final;
