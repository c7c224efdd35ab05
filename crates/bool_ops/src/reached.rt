//! The pairs of states that are reached, with the partners of each left state.

ghost use Rattle.std.specs.Prelude.{◌≡◌, ◌↔◌, ◌≢◌, ◌<◌, ℕ, [], IfOk, IsTrue, length, AllPairs, Contains};
ghost use Rattle.tree_definitions.specs.Relation.{IsAt};
ghost use Rattle.bool_ops.specs.Closing.{Adds, both};

use crate::pairs::{Both, Pairs};
use crate::partners::Partners;
use std::alloc::{AllocError, Global};
use std::marker::Model;

/// Distinct pairs of states, numbered from 0 in the order in which they came, and the right states of
/// each left state. It is seen as the list of the pairs.
#[derive(Drop)]
pub(crate) struct Reached {
    pairs: Pairs,
    partners: Partners,
}

impl Model for Reached {
    ghost use Rattle.std.specs.Prelude.{List};
    ghost use Rattle.tree_definitions.specs.Product.{Both as BothSpec};
    ghost use Rattle.bool_ops.specs.Partnered.{ArePartners};

    ghost Value = { List BothSpec };

    ghost view = { λ r. r.pairs };

    ghost invariant = { λ r. ArePartners r.pairs r.partners };
}

impl Reached {
    /// No pairs.
    pub fn new(alloc: Global) -> Reached
        ensures { result ≡ [] }
    {
        Reached {
            pairs: Pairs::new(alloc),
            partners: Partners::new(alloc),
        }
    }

    /// The list of the pairs.
    pub fn pairs(&self) -> &Pairs
        ensures { result.now ≡ self.now }
    {
        &self.pairs
    }

    /// The number of pairs.
    pub fn len(&self) -> usize
        ensures value { result ≡ length self.now }
        ensures distinct { AllPairs ◌≢◌ self.now }
    {
        self.pairs.len()
    }

    /// The pair with the number `i`.
    pub fn at(&self, i: usize) -> Both
        requires { i < length self.now }
        ensures { IsAt self.now i result }
    {
        self.pairs.at(i)
    }

    /// Whether the pair is there.
    pub fn holds(&self, x: Both) -> bool
        ensures { IsTrue result ↔ Contains self.now x }
    {
        self.pairs.holds(x)
    }

    /// The right states with which the left one is reached.
    pub fn partners_of(&self, left: u32) -> &[u32]
        ensures { (right : ℕ) → Contains self.now (both left right) → Contains result.now right }
    {
        self.partners.of(left)
    }

    /// Adds the pair behind the others if it is new.
    pub fn add(&mut self, x: Both) -> Result<(), AllocError>
        ensures { IfOk result (λ _. Adds self.old x self.new) }
    {
        if self.pairs.find(x).is_some() {
            return Ok(());
        }
        self.partners.add(x.left, x.right)?;
        self.pairs.add(x)
    }
}
