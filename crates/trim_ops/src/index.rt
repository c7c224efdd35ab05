//! Rules by the states that stand in them.

ghost use Rattle.std.specs.Prelude.{◌≡◌, ◌<◌, [], ◌∷◌, ◌++◌, ◌^◌, IfOk, length, replicate, slice_index_or, slice_set};
ghost use Rattle.tree_definitions.specs.Relation.{IsAt};
ghost use Rattle.trim_ops.specs.Marking.{AreWithin, IsByChild, IsByParent};

use std::alloc::{AllocError, Global};
use std::marker::Model;
use ta_model::Rule;

/// For each state, places of rules in a list.
#[derive(Drop)]
pub struct RuleIndex {
    lists: Vec<Vec<u32>>,
}

impl Model for RuleIndex {
    ghost use Rattle.std.specs.Prelude.{ℕ, List, map};

    ghost Value = { List (List ℕ) };

    ghost view = { λ u. map (λ v. v.items) u.lists.items };
}

impl RuleIndex {
    /// An empty list for each state.
    pub fn new(alloc: Global, states: usize) -> Result<RuleIndex, AllocError>
        ensures { IfOk result (λ u. u ≡ replicate states []) }
    {
        let mut lists = Vec::with_capacity(alloc, states)?;
        for _ in 0..states {
            lists.push(Vec::new(alloc))?;
        }
        Ok(RuleIndex { lists })
    }

    /// Adds the place `r` to the list of state q.
    pub fn add(&mut self, q: usize, r: u32) -> Result<(), AllocError>
        requires { q < length self.old }
        ensures { IfOk result (λ _. self.new ≡ slice_set self.old q (slice_index_or self.old q [] ++ r ∷ [])) }
    {
        let list = &mut self.lists[q];
        list.push(r)?;
        Ok(())
    }

    /// The number of states.
    pub fn len(&self) -> usize
        ensures { result ≡ length self.now }
    {
        self.lists.len()
    }

    /// The places of the rules of state q.
    pub fn at(&self, q: usize) -> &[u32]
        requires { q < length self.now }
        ensures { IsAt self.now q result.now }
    {
        &self.lists[q]
    }
}

/// For each state, the rules with it among their children, once for each place where it stands.
pub fn rules_by_child(alloc: Global, rules: &[Rule], states: usize) -> Result<RuleIndex, AllocError>
    requires within { AreWithin states rules.now }
    requires few { length rules.now < 2 ^ 32 }
    ensures index { IfOk result (λ u. IsByChild rules.now u) }
    ensures size { IfOk result (λ u. length u ≡ states) }
{
    let mut index = RuleIndex::new(alloc, states)?;
    for (r, rule) in rules.iter().enumerate() {
        for k in rule.kids.as_slice() {
            index.add(*k as usize, r as u32)?;
        }
    }
    Ok(index)
}

/// For each state, the rules to it.
pub fn rules_by_parent(
    alloc: Global,
    rules: &[Rule],
    states: usize,
) -> Result<RuleIndex, AllocError>
    requires within { AreWithin states rules.now }
    requires few { length rules.now < 2 ^ 32 }
    ensures index { IfOk result (λ u. IsByParent rules.now u) }
    ensures size { IfOk result (λ u. length u ≡ states) }
{
    let mut index = RuleIndex::new(alloc, states)?;
    for (r, rule) in rules.iter().enumerate() {
        index.add(rule.parent as usize, r as u32)?;
    }
    Ok(index)
}
