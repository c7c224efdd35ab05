//! The rules of one parent.

ghost use Rattle.std.specs.Prelude.{◌≡◌, ◌≢◌, ◌↔◌, ◌⊎◌, ◌<◌, ℕ, List, [], ◌∷◌, true, Contains, IsTrue, IfOk, IfErr, OnOk, OnErr, length, map, slice_get};
ghost use Rattle.tree_definitions.specs.Relation.{IsAt};
ghost use Rattle.ta_model.specs.Tuples.{IsRising, kids_of};
ghost use Rattle.shared_clusters.specs.Gap.{HasGapAt};
ghost use Rattle.shared_clusters.specs.Clusters.{Group as GroupSpec, HasTuple, GainsTuple, LosesTuple, IsCluster};

use crate::group::Group;
use std::alloc::{AllocError, Global};
use std::marker::Model;
use ta_model::Kids;

/// The rules of one parent: a group for each symbol, in rising order.
#[derive(Debug, Drop)]
pub struct Cluster {
    groups: Vec<Group>,
}

impl Model for Cluster {
    ghost use Rattle.std.specs.Prelude.{List};
    ghost use Rattle.shared_clusters.specs.Clusters.{Group as GroupSpec, IsCluster};

    ghost Value = { List GroupSpec };

    ghost view = { λ c. c.groups.items };

    ghost invariant = { λ c. IsCluster c.groups.items };
}

impl Cluster {
    /// No rules.
    pub fn new(alloc: Global) -> Cluster
        ensures { result ≡ [] }
    {
        Cluster {
            groups: Vec::new(alloc),
        }
    }

    /// Where the group of the symbol stands, or would go.
    fn place(&self, symbol: u32) -> Result<usize, usize>
        ensures found { IfOk result (λ i. (g : GroupSpec) × IsAt self.now i g × (g.symbol ≡ symbol)) }
        ensures absent { IfErr result (λ i. HasGapAt (λ g a. g.symbol < a) (λ a g. a < g.symbol) self.now symbol i) }
        ensures cluster { IsCluster self.now }
    {
        self.groups.binary_search_by_key(&symbol, |g| g.symbol())
    }

    /// The k-th symbol.
    pub fn symbol_at(&self, k: usize) -> Option<u32>
        ensures value { result ≡ slice_get (map (λ g. g.symbol) self.now) k }
        ensures cluster { IsCluster self.now }
    {
        if k < self.groups.len() {
            let group = &self.groups[k];
            Some(group.symbol())
        } else {
            None
        }
    }

    /// The tuples under the symbol.
    pub fn tuples(&self, symbol: u32) -> &[Kids]
        ensures rising { IsRising (kids_of result.now) }
        ensures members { (t : List ℕ) → Contains (kids_of result.now) t ↔ HasTuple self.now symbol t }
    {
        match self.place(symbol) {
            Ok(i) => {
                let group = &self.groups[i];
                group.tuples()
            }
            Err(_) => &[],
        }
    }

    /// Adds the tuple under the symbol. Whether it is new.
    pub fn insert(&mut self, symbol: u32, kids: &Kids) -> Result<bool, AllocError>
        ensures fresh { IfOk result (λ fresh. IsTrue fresh ↔ (HasTuple self.old symbol kids.now.items → ⊥)) }
        ensures ok { OnOk result (GainsTuple self.old self.new symbol kids.now.items) }
        ensures err { OnErr result (self.new ≡ self.old) }
    {
        match self.place(symbol) {
            Ok(i) => {
                let group = &mut self.groups[i];
                group.insert(kids)
            }
            Err(i) => {
                let group = Group::single(*self.groups.allocator(), symbol, kids)?;
                self.groups.insert(i, group)?;
                Ok(true)
            }
        }
    }

    /// Takes out the tuple under the symbol. Whether it was there.
    pub fn remove(&mut self, symbol: u32, kids: &Kids) -> bool
        ensures was { IsTrue result ↔ HasTuple self.old symbol kids.now.items }
        ensures loses { LosesTuple self.old self.new symbol kids.now.items }
    {
        match self.place(symbol) {
            Ok(i) => {
                let group = &mut self.groups[i];
                if group.has_only(kids) {
                    self.groups.remove(i);
                    true
                } else {
                    group.remove(kids)
                }
            }
            Err(_) => false,
        }
    }
}

impl Clone for Cluster {
    ghost use Rattle.std.specs.Prelude.{◌≡◌};

    ghost is_clone = { λ a b. b ≡ a };

    fn clone(&self) -> Result<Cluster, AllocError> {
        Ok(Cluster {
            groups: self.groups.clone()?,
        })
    }
}
