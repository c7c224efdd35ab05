//! A table of rules whose clusters are shared.

ghost use Rattle.std.specs.Prelude.{◌≡◌, ◌<◌, ◌↔◌, ℕ, List, [], IsTrue, IfOk, OnOk, OnErr, length, replicate, slice_get, slice_index_or};
ghost use Rattle.tree_definitions.specs.Relation.{Has};
ghost use Rattle.ta_model.specs.Tuples.{kids_of};
ghost use Rattle.shared_clusters.specs.Clusters.{HasRule, IsEmpty, GainsRule, LosesRule, KeepsParents, symbols_of, AreSymbolsOf, AreTuplesOf};

use crate::cluster::Cluster;
use bit_rows::Row;
use std::alloc::{AllocError, Global};
use std::marker::Model;
use std::rc::Rc;
use ta_model::{Kids, Rule};

/// Rules by parent, symbol and children. A cluster for each parent is shared among tables, and
/// copied when it is written while it is shared.
#[derive(Debug, Drop)]
pub struct Clusters {
    parents: Vec<Rc<Cluster>>,
}

impl Model for Clusters {
    ghost use Rattle.std.specs.Prelude.{List, map, length, ◌<◌};
    ghost use Rattle.shared_clusters.specs.Clusters.{Group as GroupSpec};

    ghost Value = { List (List GroupSpec) };

    ghost view = { λ t. map (λ rc. rc.value) t.parents.items };

    ghost invariant = { λ t. length t.parents.items < 4294967296 };
}

/// The cluster of a kept parent, or the other one.
fn kept_or_none(
    keep: &Row,
    parent: usize,
    cluster: &Rc<Cluster>,
    none: &Rc<Cluster>,
) -> Result<Rc<Cluster>, AllocError>
    requires { parent < length keep.now }
    ensures kept { Has keep.now parent → IfOk result (λ rc. rc.value ≡ cluster.now.value) }
    ensures dropped { (Has keep.now parent → ⊥) → IfOk result (λ rc. rc.value ≡ none.now.value) }
{
    if keep.get(parent) {
        cluster.clone()
    } else {
        none.clone()
    }
}

impl Clusters {
    /// A table for so many parents, with no rules.
    pub fn new(alloc: Global, parents: u32) -> Result<Clusters, AllocError>
        ensures parents { IfOk result (λ t. length t ≡ parents) }
        ensures empty { IfOk result IsEmpty }
    {
        let none = Rc::new(alloc, Cluster::new(alloc))?;
        let mut clusters = Vec::with_capacity(alloc, parents as usize)?;
        for _ in 0..parents {
            clusters.push(none.clone()?)?;
        }
        Ok(Clusters { parents: clusters })
    }

    /// How many parents there are.
    pub fn parents(&self) -> u32
        ensures { result ≡ length self.now }
    {
        self.parents.len() as u32
    }

    /// A table with the same rules. No later call on one changes the rules of the other.
    pub fn share(&self) -> Result<Clusters, AllocError>
        ensures { IfOk result (λ other. other ≡ self.now) }
    {
        let mut parents = Vec::with_capacity(*self.parents.allocator(), self.parents.len())?;
        for cluster in &self.parents {
            parents.push(cluster.clone()?)?;
        }
        Ok(Clusters { parents })
    }

    /// Adds the rule. Whether it is new.
    pub fn insert(&mut self, rule: &Rule) -> Result<bool, AllocError>
        requires { rule.now.parent < length self.old }
        ensures fresh { IfOk result (λ fresh. IsTrue fresh ↔ (HasRule self.old rule.now → ⊥)) }
        ensures ok { OnOk result (GainsRule self.old self.new rule.now) }
        ensures err { OnErr result (self.new ≡ self.old) }
        ensures parents { length self.new ≡ length self.old }
    {
        let cluster = Rc::make_mut(&mut self.parents[rule.parent as usize])?;
        cluster.insert(rule.symbol, &rule.kids)
    }

    /// Takes the rule out. Whether it was there.
    pub fn remove(&mut self, rule: &Rule) -> Result<bool, AllocError>
        requires { rule.now.parent < length self.old }
        ensures was { IfOk result (λ was. IsTrue was ↔ HasRule self.old rule.now) }
        ensures ok { OnOk result (LosesRule self.old self.new rule.now) }
        ensures err { OnErr result (self.new ≡ self.old) }
        ensures parents { length self.new ≡ length self.old }
    {
        let cluster = Rc::make_mut(&mut self.parents[rule.parent as usize])?;
        Ok(cluster.remove(rule.symbol, &rule.kids))
    }

    /// Takes out each rule whose parent isn't kept.
    pub fn retain_parents(&mut self, keep: &Row) -> Result<(), AllocError>
        requires { length keep.now ≡ length self.old }
        ensures ok { OnOk result (KeepsParents self.old self.new keep.now) }
        ensures err { OnErr result (self.new ≡ self.old) }
        ensures parents { length self.new ≡ length self.old }
    {
        let alloc = *self.parents.allocator();
        let none = Rc::new(alloc, Cluster::new(alloc))?;
        let mut kept = Vec::with_capacity(alloc, self.parents.len())?;
        for (parent, cluster) in self.parents.iter().enumerate() {
            kept.push(kept_or_none(keep, parent, cluster, &none)?)?;
        }
        self.parents = kept;
        Ok(())
    }

    /// The parent's k-th symbol in rising order, from 0.
    pub fn symbol_at(&self, parent: u32, k: usize) -> Option<u32>
        requires { parent < length self.now }
        ensures value { result ≡ slice_get (symbols_of self.now parent) k }
        ensures symbols { AreSymbolsOf self.now parent (symbols_of self.now parent) }
    {
        self.parents[parent as usize].symbol_at(k)
    }

    /// The child tuples of the parent's rules with this symbol, rising.
    pub fn tuples(&self, parent: u32, symbol: u32) -> &[Kids]
        requires { parent < length self.now }
        ensures { AreTuplesOf self.now parent symbol (kids_of result.now) }
    {
        self.parents[parent as usize].tuples(symbol)
    }
}
