//! Rules by symbol and children.

ghost use Rattle.std.specs.Prelude.{◌≡◌, ◌<◌, ◌≤◌, ◌^◌, ℕ, List, All, Contains, IfOk, IsTrue, length};
ghost use Rattle.tree_definitions.specs.Automaton.{Rule as RuleSpec};
ghost use Rattle.tree_definitions.specs.Relation.{IsAt};
ghost use Rattle.bool_ops.specs.Closing.{AreAlike, both};
ghost use Rattle.bool_ops.specs.Paths.{AreEndsTo, HasEnds, IsByKids, Leads, Matches, root_of, step_of};

use crate::pairs::{Both, Pairs};
use crate::reached::Reached;
use std::alloc::{AllocError, Global};
use ta_model::Rule;
use trim_ops::RuleIndex;

/// How many numbers of nodes a step tells apart.
const NODES: usize = 4_294_967_296;

/// The rules with two children or more, as a tree of nodes. From the root of its symbol each child of a
/// rule leads to a further node, and the rule is in the list of the last one.
#[derive(Drop)]
pub(crate) struct ByKids {
    /// For each node the step that leads to it.
    nodes: Pairs,
    lists: RuleIndex,
}

/// The root of a symbol, beyond the nodes.
fn root(symbol: u32) -> usize
    ensures { result ≡ root_of symbol }
{
    (u32::MAX - symbol) as usize
}

/// The step from a node by a state.
fn step(node: usize, state: u32) -> Both
    ensures { result ≡ step_of node state }
{
    Both {
        left: (node % NODES) as u32,
        right: state,
    }
}

/// The node to which the children of the rule lead from the root of its symbol, or that root if it has
/// fewer than two. What is missing on the way is added.
fn end_of(nodes: &mut Pairs, rule: &Rule) -> Result<usize, AllocError>
    ensures leads { IfOk result (λ end. 2 ≤ length rule.now.kids → Leads nodes.new (root_of rule.now.symbol) rule.now.kids end) }
    ensures kept { IfOk result (λ _. (from to : ℕ) (states : List ℕ) → Leads nodes.old from states to → Leads nodes.new from states to) }
{
    let mut node = root(rule.symbol);
    if rule.kids.len() < 2 {
        return Ok(node);
    }
    for k in rule.kids.as_slice() {
        node = nodes.number(step(node, *k))?;
    }
    Ok(node)
}

/// The nodes of the rules with two children or more, and where each rule ends.
fn nodes_of(alloc: Global, rules: &[Rule]) -> Result<(Pairs, Vec<usize>), AllocError>
    ensures { IfOk result (λ r. HasEnds rules.now (length rules.now) r.0 r.1.items) }
{
    let mut nodes = Pairs::new(alloc);
    let mut ends = Vec::with_capacity(alloc, rules.len())?;
    for rule in rules {
        let end = end_of(&mut nodes, rule)?;
        ends.push(end)?;
    }
    Ok((nodes, ends))
}

/// For each of n nodes the rules that end there.
fn lists_of(alloc: Global, n: usize, ends: &[usize]) -> Result<RuleIndex, AllocError>
    requires { length ends.now < 2 ^ 32 }
    ensures { IfOk result (AreEndsTo ends.now n (length ends.now)) }
{
    let mut lists = RuleIndex::new(alloc, n)?;
    for (s, end) in ends.iter().enumerate() {
        if n <= *end {
            continue;
        }
        lists.add(*end, s as u32)?;
    }
    Ok(lists)
}

/// The partners of the left child, or only this state where the child stands at the place.
fn states_at<'a>(pairs: &'a Reached, left: u32, here: &'a [u32], is_here: bool) -> &'a [u32]
    ensures { (q : ℕ) → Contains pairs.now (both left q) → (IsTrue is_here → Contains here.now q) → Contains result.now q }
{
    if is_here {
        return here;
    }
    pairs.partners_of(left)
}

impl ByKids {
    pub fn new(alloc: Global, rules: &[Rule]) -> Result<ByKids, AllocError>
        requires { length rules.now < 2 ^ 32 }
        ensures { IfOk result (λ b. IsByKids rules.now b.nodes b.lists) }
    {
        let (nodes, ends) = nodes_of(alloc, rules)?;
        let lists = lists_of(alloc, nodes.len(), &ends)?;
        Ok(ByKids { nodes, lists })
    }

    /// Adds the nodes to which the states lead from this one.
    fn add_steps(
        &self,
        node: usize,
        states: &[u32],
        level: &mut Vec<usize>,
    ) -> Result<(), AllocError>
        ensures kept { IfOk result (λ _. (n : ℕ) → Contains level.old.items n → Contains level.new.items n) }
        ensures steps { IfOk result (λ _. (q n : ℕ) → Contains states.now q → IsAt self.now.nodes n (step_of node q) → Contains level.new.items n) }
    {
        for q in states {
            let Some(next) = self.nodes.find(step(node, *q)) else {
                continue;
            };
            level.push(next)?;
        }
        Ok(())
    }

    /// The nodes to which the states lead from these.
    fn next_level(&self, level: &[usize], states: &[u32]) -> Result<Vec<usize>, AllocError>
        ensures { IfOk result (λ v. (node q n : ℕ) → Contains level.now node → Contains states.now q → IsAt self.now.nodes n (step_of node q) → Contains v.items n) }
    {
        let mut next = Vec::new(self.nodes.alloc());
        for node in level {
            self.add_steps(*node, states, &mut next)?;
        }
        Ok(next)
    }

    /// The rules that end at these nodes.
    fn rules_at(&self, level: &[usize]) -> Result<Vec<u32>, AllocError>
        ensures within { IfOk result (λ v. (m : ℕ) → ((n : ℕ) (list : List ℕ) → IsAt self.now.lists n list → (s : ℕ) → Contains list s → s < m) → All (λ s. s < m) v.items) }
        ensures whole { IfOk result (λ v. (n s : ℕ) (list : List ℕ) → Contains level.now n → IsAt self.now.lists n list → Contains list s → Contains v.items s) }
    {
        let mut rules = Vec::new(self.nodes.alloc());
        for node in level {
            if self.lists.len() <= *node {
                continue;
            }
            rules.extend_from_slice(self.lists.at(*node))?;
        }
        Ok(rules)
    }

    /// The nodes to which partners of the left children lead, this state at the place.
    fn last_level(
        &self,
        pairs: &Reached,
        left: &Rule,
        place: usize,
        state: u32,
    ) -> Result<Vec<usize>, AllocError>
        ensures { IfOk result (λ v. (states : List ℕ) (end : ℕ) → Matches pairs.now left.now.kids place state states
            → Leads self.now.nodes (root_of left.now.symbol) states end → Contains v.items end) }
    {
        let here = [state];
        let mut level = Vec::new(self.nodes.alloc());
        level.push(root(left.symbol))?;
        for (i, k) in left.kids.as_slice().iter().enumerate() {
            let states = states_at(pairs, *k, &here, i == place);
            level = self.next_level(&level, states)?;
        }
        Ok(level)
    }

    /// The rules that are alike the left one with partners of its children as children, this state at
    /// the place, among others perhaps.
    pub fn matching(
        &self,
        pairs: &Reached,
        left: &Rule,
        place: usize,
        state: u32,
    ) -> Result<Vec<u32>, AllocError>
        ensures within { IfOk result (λ v. (rules : List RuleSpec) → IsByKids rules self.now.nodes self.now.lists → All (λ s. s < length rules) v.items) }
        ensures whole { IfOk result (λ v. (rules : List RuleSpec) → IsByKids rules self.now.nodes self.now.lists → (s : ℕ) (right : RuleSpec) → IsAt rules s right
            → 2 ≤ length right.kids → left.now.symbol ≡ right.symbol → Matches pairs.now left.now.kids place state right.kids → Contains v.items s) }
    {
        let level = self.last_level(pairs, left, place, state)?;
        self.rules_at(&level)
    }
}
