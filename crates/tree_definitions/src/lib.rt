//! Tree automata as definitions: which trees an automaton accepts, what trimming, union, product
//! and quotient are, what simulations are, and what shows that one automaton accepts no more than
//! another.
//!
//! The definitions stand in `specs/` and are what a reader must believe. Nothing here runs: each
//! function has an empty body, and its contract is a theorem over the definitions, which the check
//! proves. A caller uses a theorem by calling its function.
//!
//! - `trees`: a tree that reaches a state has as many subtrees at each symbol as its rank says, and
//!   a list of nodes has one tree at each number.
//! - `codes`: the patterns of a set of codes, and that the rules of a wide automaton determine its lines.
//! - `operations`: which trees the canonical form, the trimmed automaton, the union, the product and the quotient accept.
//! - `simulation`: the greatest simulations are simulations, reflexive and transitive.
//! - `inclusion`: a certificate means inclusion, some automata have one, and a trail is never longer
//!   than the number of pairs, or of pairs and splits.
#![tactic(auto)]

mod codes;
mod inclusion;
mod operations;
mod simulation;
mod trees;

pub use codes::{
    a_wide_automaton_exists, patterns_let_each_code_through_once, wide_lines_are_determined,
};
pub use inclusion::{
    a_downward_certificate_exists, an_upward_certificate_exists, down_certificate_means_inclusion,
    downward_trails_are_bounded, up_certificate_means_inclusion, upward_trails_are_bounded,
};
pub use operations::{
    canonical_form_is_in_order, product_accepts_both, quotient_keeps_the_language,
    results_have_one_canonical_form, trim_keeps_the_language, union_accepts_either,
};
pub use simulation::{
    greatest_downward_simulation, greatest_joint_simulation, greatest_upward_simulation,
};
pub use trees::{each_node_has_one_tree, only_ranked_trees_are_reached};
