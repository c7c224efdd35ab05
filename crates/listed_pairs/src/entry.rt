//! Entries of trails.

use crate::pair::Pair;
use std::marker::Model;

/// A pair with the step to it: the place of a symbol of A, and the places of the entries for the
/// children.
#[derive(Debug, Drop)]
pub struct UpEntry {
    pub pair: Pair,
    pub symbol: u32,
    pub kids: Vec<u32>,
}

impl Model for UpEntry {
    ghost use Rattle.tree_definitions.specs.UpTrail.{UpEntry as UpEntrySpec};

    ghost Value = { UpEntrySpec };

    ghost view = { λ e. record { pair = e.pair; symbol = e.symbol; kids = e.kids.items } };
}

/// An entry of a downward trail. Places of entries, rules and children count from 0.
#[derive(Debug, Drop)]
pub enum DownEntry {
    /// A pair to begin with.
    Root {
        pair: Pair,
    },
    /// The pair of a child: the place of an earlier split, and of the child in its rule.
    Child {
        pair: Pair,
        split: u32,
        place: u8,
    },
    /// A split of an earlier pair: the place of its entry, that of a rule of A to its state, and the
    /// place of a child for each tuple.
    Split {
        pair: u32,
        rule: u32,
        choice: Vec<u8>,
    },
}
