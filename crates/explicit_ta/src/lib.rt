//! Automata with explicit rules: the lists of an automaton, or of two, with the rules by parent.
#![tactic(auto)]

mod by_kids;
mod distinct;
mod down_groups;
mod downward;
mod explicit;
mod pair;
mod part;
mod steps;
mod union;
mod up_groups;
mod upward;

pub use explicit::Explicit;
pub use pair::ExplicitPair;
