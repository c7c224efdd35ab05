//! One automaton with its rules by parent.

ghost use Rattle.std.specs.Prelude.{◌≡◌, ◌<◌, ◌↔◌, ℕ, All, Contains, IfOk, length};
ghost use Rattle.tree_definitions.specs.Canonical.{canon};
ghost use Rattle.tree_definitions.specs.Relation.{Has};
ghost use Rattle.explicit_ta.specs.Index.{AreRulesOf};

use crate::by_kids::ByKids;
use crate::downward::{classes_at, clusters_of, rules_of, tuples_to};
use crate::part::part_of;
use crate::upward::{leads, tuples_from, up_classes_at, uses_of};
use bit_rows::Row;
use shared_clusters::Clusters;
use std::alloc::{AllocError, Global};
use std::marker::Model;
use ta_model::{Class, Kids, Listed, Table, UpClass};

/// An automaton as its lists, with its rules by parent, by child and by children.
#[derive(Drop)]
pub struct Explicit {
    list: Listed,
    clusters: Clusters,
    uses: Clusters,
    by_kids: ByKids,
    finals: Row,
}

impl Model for Explicit {
    ghost use Rattle.tree_definitions.specs.Automaton.{Automaton};
    ghost use Rattle.explicit_ta.specs.Index.{IsEncoding};

    ghost Value = { Automaton };

    ghost view = { λ e. e.list };

    ghost invariant = { λ e. IsEncoding e.list e.clusters e.uses e.by_kids e.finals };
}

/// The row of these states.
pub fn row_of(alloc: Global, states: u32, members: &[u32]) -> Result<Row, AllocError>
    requires { All (λ q. q < states) members.now }
    ensures width { IfOk result (λ row. length row ≡ states) }
    ensures members { IfOk result (λ row. (q : ℕ) → Has row q ↔ Contains members.now q) }
{
    let mut row = Row::zeros(alloc, states as usize)?;
    for q in members {
        row.set(*q as usize);
    }
    Ok(row)
}

impl Explicit {
    /// The automaton of these lists, whose rules are those of the table.
    pub fn with_clusters(list: Listed, clusters: Clusters) -> Result<Explicit, AllocError>
        requires { AreRulesOf clusters (length list.states) list.rules }
        ensures { IfOk result (λ e. e ≡ list) }
    {
        let states = list.states().len() as u32;
        let uses = uses_of(list.allocator(), states, list.rules())?;
        let by_kids = ByKids::new(list.allocator(), list.rules())?;
        let finals = row_of(list.allocator(), states, list.finals())?;
        Ok(Explicit {
            list,
            clusters,
            uses,
            by_kids,
            finals,
        })
    }

    /// The automaton of these lists.
    pub fn of_list(list: Listed) -> Result<Explicit, AllocError>
        ensures { IfOk result (λ e. e ≡ list) }
    {
        let states = list.states().len() as u32;
        let clusters = clusters_of(list.allocator(), states, list.rules())?;
        Explicit::with_clusters(list, clusters)
    }

    /// The automaton's canonical form in this encoding.
    pub fn from_listed(a: &Listed) -> Result<Explicit, AllocError>
        ensures { IfOk result (λ e. e ≡ canon a.now) }
    {
        Explicit::of_list(a.canon()?)
    }
}

impl Table for Explicit {
    ghost automaton = { λ e. e };

    ghost nodes = { λ _. 0 };

    fn nodes(&self) -> usize {
        0
    }

    fn bits(&self) -> u8 {
        let _listed = self.list.rules();
        0
    }

    fn states(&self) -> u32 {
        self.list.states().len() as u32
    }

    fn is_final(&self, q: u32) -> bool {
        self.finals.get(q as usize)
    }

    fn kid_tuples(&self, q: u32) -> Result<Vec<Kids>, AllocError> {
        let _listed = self.list.rules();
        tuples_to(self.list.allocator(), &self.clusters, q)
    }

    fn tuples_with(&self, q: u32) -> Result<Vec<Kids>, AllocError> {
        let _listed = self.list.rules();
        tuples_from(self.list.allocator(), &self.uses, q)
    }

    fn classes(&self, q: u32, r: u32) -> Result<Vec<Class>, AllocError> {
        let _listed = self.list.rules();
        classes_at(self.list.allocator(), &self.clusters, q, r)
    }

    fn up_classes(&self, first: &[u32], second: &[u32]) -> Result<Vec<UpClass>, AllocError> {
        let alloc = self.list.allocator();
        let _listed = self.list.rules();
        let first = leads(alloc, &self.by_kids, first)?;
        let second = leads(alloc, &self.by_kids, second)?;
        up_classes_at(alloc, self.list.states().len() as u32, &first, &second)
    }

    fn restricted(&self, keep: &Row) -> Result<Explicit, AllocError> {
        let mut left = self.clusters.share()?;
        left.retain_parents(keep)?;
        let rules = rules_of(self.list.allocator(), &left)?;
        Explicit::of_list(part_of(&self.list, &rules, keep)?)
    }

    fn listed(&self) -> Result<Listed, AllocError> {
        let list = self.list.canon()?;
        let _listed = list.rules();
        Ok(list)
    }
}
