//! A rule with another state at one place of its children, as upward simulations look for it.
#![tactic(auto)]

mod rules;
mod tuples;

pub use rules::exchanged;
pub use tuples::{difference, is_exchange};
