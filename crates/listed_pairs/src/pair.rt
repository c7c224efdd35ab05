//! A pair of a certificate.

use bit_rows::Row;
use std::marker::Model;

/// A state of A and a set of states of B, which has a place for each of them.
#[derive(Debug, Drop)]
pub struct Pair {
    pub state: u32,
    pub set: Row,
}

impl Model for Pair {
    ghost use Rattle.tree_definitions.specs.Cover.{Pair as PairSpec};

    ghost Value = { PairSpec };

    ghost view = { λ p. record { state = p.state; set = p.set } };
}
