//! Tests of the encodings of automata, by cases worked out by hand.
#![tactic(auto)]

#[cfg(test)]
mod clusters;
#[cfg(test)]
mod explicit;
