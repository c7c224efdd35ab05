//! The kinds of certificates.

use bit_matrix::Matrix;
use listed_pairs::{DownEntry, Pair, UpEntry};
use witness_trees::Nodes;

/// What shows an answer to inclusion.
#[derive(Debug, Drop)]
pub enum Certificate {
    /// A relation of each automaton, and pairs that an upward search came to.
    Up {
        left: Matrix,
        right: Matrix,
        pairs: Vec<Pair>,
    },
    /// A relation on the states of both, those of the first and then those of the second, and pairs
    /// that a downward search came to.
    Down {
        both: Matrix,
        pairs: Vec<Pair>,
    },
    /// A tree, that of the last node, which the first automaton accepts and the second one doesn't.
    Tree {
        nodes: Nodes,
    },
    /// What an upward search came to within its budget: a relation of each automaton, and one entry
    /// more than the budget. It decides nothing.
    UpTrail {
        left: Matrix,
        right: Matrix,
        budget: u64,
        entries: Vec<UpEntry>,
    },
    /// What a downward search came to within its budget: a relation on the states of both, and one
    /// entry more than the budget. Rules are named by their places in the first automaton's
    /// canonical form. It decides nothing.
    DownTrail {
        both: Matrix,
        budget: u64,
        entries: Vec<DownEntry>,
    },
}
