//! Pairs of places, and numbered lists of distinct ones.

ghost use Rattle.std.specs.Prelude.{◌≡◌, ◌↔◌, ◌<◌, ◌≢◌, [], IfOk, IfSome, IfNone, IsTrue, OnErr, length, AllPairs, Contains};
ghost use Rattle.tree_definitions.specs.Relation.{IsAt};
ghost use Rattle.bool_ops.specs.Closing.{Adds};

use indexmap::IndexSet;
use std::alloc::{AllocError, Global};
use std::hash::{BuildHasherDefault, FoldHasher};
use std::marker::Model;

/// A place of the left automaton and one of the right. Pairs are ordered by the left place and then
/// by the right one.
#[derive(Clone, Copy, Debug, PartialEq, Eq, PartialOrd, Ord, Hash)]
pub(crate) struct Both {
    pub left: u32,
    pub right: u32,
}

impl Model for Both {
    ghost use Rattle.tree_definitions.specs.Product.{Both as BothSpec};

    ghost Value = { BothSpec };

    ghost view = { λ x. record { left = x.left; right = x.right } };

    ghost inverse = { λ x. record { left = x.left; right = x.right } };
}

/// Distinct pairs, numbered from 0 in the order in which they came. It is seen as their list.
#[derive(Drop)]
pub(crate) struct Pairs {
    pairs: IndexSet<Both, BuildHasherDefault<FoldHasher>>,
}

impl Model for Pairs {
    ghost use Rattle.std.specs.Prelude.{◌≢◌, List, AllPairs};
    ghost use Rattle.tree_definitions.specs.Product.{Both as BothSpec};

    ghost Value = { List BothSpec };

    ghost view = { λ p. p.pairs.keys };

    ghost invariant = { λ p. AllPairs ◌≢◌ p.pairs.keys };
}

impl Pairs {
    /// No pairs.
    pub fn new(alloc: Global) -> Pairs
        ensures { result ≡ [] }
    {
        Pairs {
            pairs: IndexSet::with_hasher(alloc, BuildHasherDefault::new()),
        }
    }

    /// The allocator of the list.
    pub fn alloc(&self) -> Global {
        *self.pairs.allocator()
    }

    /// The number of pairs.
    pub fn len(&self) -> usize
        ensures value { result ≡ length self.now }
        ensures distinct { AllPairs ◌≢◌ self.now }
    {
        self.pairs.len()
    }

    /// The pairs in the order of their numbers.
    pub fn list(&self) -> &[Both]
        ensures value { result.now ≡ self.now }
        ensures distinct { AllPairs ◌≢◌ self.now }
    {
        self.pairs.as_slice()
    }

    /// The pair with the number `i`.
    pub fn at(&self, i: usize) -> Both
        requires { i < length self.now }
        ensures { IsAt self.now i result }
    {
        *self.pairs.get_index(i).unwrap()
    }

    /// Whether the pair is there.
    pub fn holds(&self, x: Both) -> bool
        ensures { IsTrue result ↔ Contains self.now x }
    {
        self.pairs.contains(&x)
    }

    /// The number of the pair.
    pub fn find(&self, x: Both) -> Option<usize>
        ensures found { IfSome result (λ i. IsAt self.now i x) }
        ensures none { IfNone result (Contains self.now x → ⊥) }
        ensures distinct { AllPairs ◌≢◌ self.now }
    {
        self.pairs.get_index_of(&x)
    }

    /// Adds the pair behind the others if it is new.
    pub fn add(&mut self, x: Both) -> Result<(), AllocError>
        ensures ok { IfOk result (λ _. Adds self.old x self.new) }
        ensures err { OnErr result (self.new ≡ self.old) }
    {
        self.pairs.insert(x)?;
        Ok(())
    }

    /// The number of the pair, which is added behind the others if it is new.
    pub fn number(&mut self, x: Both) -> Result<usize, AllocError>
        ensures added { IfOk result (λ _. Adds self.old x self.new) }
        ensures at { IfOk result (λ i. IsAt self.new i x) }
    {
        let (i, _) = self.pairs.insert_full(x)?;
        Ok(i)
    }
}
