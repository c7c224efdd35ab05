//! Useful states: which states some tree reaches, which of them lead to a final state, and an
//! automaton without the others.
//!
//! `index` and `marking` work on lists of rules; `trim` and the calls beside it on any table.
#![tactic(auto)]

pub mod index;
mod marking;
mod ops;
mod reach;
mod spread;

pub use index::{RuleIndex, rules_by_child, rules_by_parent};
pub use ops::{reachable, trim, useful};
pub use reach::derived;
pub use spread::useful_of;
