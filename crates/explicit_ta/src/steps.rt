//! Right rules by joint symbols and by first children, and the steps that they make.

ghost use Rattle.std.specs.Prelude.{◌≡◌, ◌<◌, ◌≤◌, ◌↔◌, ◌⊎◌, ℕ, All, Contains, IfOk, IsTrue, length, map, slice_index_or};
ghost use Rattle.std.specs.List.{AllZip};
ghost use Rattle.std.specs.List.Sorted.{IsNonDecreasingBy};
ghost use Rattle.tree_definitions.specs.Automaton.{Rule as RuleSpec};
ghost use Rattle.tree_definitions.specs.Relation.{Has};
ghost use Rattle.ta_model.specs.Macrostates.{row_at};
ghost use Rattle.explicit_ta.specs.Index.{HaveSameRules};
ghost use Rattle.explicit_ta.specs.Steps.{IsReached, IsReachedUnder, first_kid, relabelled};

use bit_rows::Row;
use smallvec::SmallVec;
use std::alloc::{AllocError, Global};
use std::marker::Model;
use ta_model::{MacroStore, Rule};

/// Rules in order of their symbols, those under one symbol in order of their first children.
#[derive(Drop)]
pub struct Steps {
    rules: Vec<Rule>,
}

impl Model for Steps {
    ghost use Rattle.std.specs.Prelude.{List};
    ghost use Rattle.std.specs.List.Sorted.{IsSorted};
    ghost use Rattle.tree_definitions.specs.Automaton.{Rule as RuleSpec};
    ghost use Rattle.explicit_ta.specs.Steps.{step_cmp};

    ghost Value = { List RuleSpec };

    ghost view = { λ s. s.rules.items };

    ghost invariant = { λ s. IsSorted step_cmp s.rules.items };
}

/// The first child of the rule, and 0 where it has none.
fn first_of(rule: &Rule) -> u32
    ensures { result ≡ first_kid rule.now }
{
    let kids = rule.kids.as_slice();
    if kids.is_empty() { 0 } else { kids[0] }
}

/// The rules with the joint places of their symbols.
fn relabelled_rules(alloc: Global, rules: &[Rule], places: &[u32]) -> Result<Vec<Rule>, AllocError>
    requires { All (λ r. r.symbol < length places.now) rules.now }
    ensures { IfOk result (λ v. v.items ≡ map (relabelled places.now) rules.now) }
{
    let mut moved = Vec::with_capacity(alloc, rules.len())?;
    for rule in rules {
        let kids = SmallVec::from_slice(alloc, rule.kids.as_slice())?;
        moved.push(Rule {
            symbol: places[rule.symbol as usize],
            kids,
            parent: rule.parent,
        })?;
    }
    Ok(moved)
}

/// Whether each child is in the set of its place, and there are as many of both.
fn are_in_sets(store: &MacroStore, sets: &[usize], kids: &[u32]) -> bool
    requires sets { All (λ k. k < length store.now.rows) sets.now }
    requires kids { All (λ q. q < store.now.states) kids.now }
    ensures { IsTrue result ↔ AllZip Has (map (row_at store.now) sets.now) kids.now }
{
    if sets.len() != kids.len() {
        return false;
    }
    for i in 0..sets.len() {
        if !store.row(sets[i]).get(kids[i] as usize) {
            return false;
        }
    }
    true
}

/// Adds the rule's parent where its children are in the sets.
fn add_parent(store: &MacroStore, sets: &[usize], rule: &Rule, row: &mut Row)
    requires sets { All (λ k. k < length store.now.rows) sets.now }
    requires kids { All (λ q. q < store.now.states) rule.now.kids }
    requires parent { rule.now.parent < length row.old }
    ensures long { length row.new ≡ length row.old }
    ensures members { (s : ℕ) → Has row.new s ↔ (Has row.old s ⊎ ((rule.now.parent ≡ s) × AllZip Has (map (row_at store.now) sets.now) rule.now.kids)) }
{
    if are_in_sets(store, sets, rule.kids.as_slice()) {
        row.set(rule.parent as usize);
    }
}

/// The parents of the rules whose children are in the sets.
fn reached(
    alloc: Global,
    store: &MacroStore,
    sets: &[usize],
    rules: &[Rule],
) -> Result<Row, AllocError>
    requires sets { All (λ k. k < length store.now.rows) sets.now }
    requires kids { All (λ r. All (λ q. q < store.now.states) r.kids) rules.now }
    requires parents { All (λ r. r.parent < store.now.states) rules.now }
    ensures long { IfOk result (λ row. length row ≡ store.now.states) }
    ensures members { IfOk result (λ row. (s : ℕ) → Has row s ↔ IsReached rules.now (map (row_at store.now) sets.now) s) }
{
    let mut row = Row::zeros(alloc, store.states())?;
    for rule in rules {
        add_parent(store, sets, rule, &mut row);
    }
    Ok(row)
}

/// How many rules at the front have their first child below q.
fn below(rules: &[Rule], q: usize) -> usize
    requires { IsNonDecreasingBy first_kid rules.now }
    ensures bound { result ≤ length rules.now }
    ensures front { (k : ℕ) (d : RuleSpec) → k < result → first_kid (slice_index_or rules.now k d) < q }
    ensures next { (d : RuleSpec) → result < length rules.now → q ≤ first_kid (slice_index_or rules.now result d) }
{
    rules.partition_point(|r| (first_of(r) as usize) < q)
}

/// The parents of the rules whose children are in the sets, where some child is asked for. Rules
/// whose first child is not in its set are passed over together.
fn reached_by_first(
    alloc: Global,
    store: &MacroStore,
    sets: &[usize],
    rules: &[Rule],
) -> Result<Row, AllocError>
    requires some { 0 < length sets.now }
    requires sets { All (λ k. k < length store.now.rows) sets.now }
    requires kids { All (λ r. All (λ q. q < store.now.states) r.kids) rules.now }
    requires parents { All (λ r. r.parent < store.now.states) rules.now }
    requires rising { IsNonDecreasingBy first_kid rules.now }
    ensures long { IfOk result (λ row. length row ≡ store.now.states) }
    ensures members { IfOk result (λ row. (s : ℕ) → Has row s ↔ IsReached rules.now (map (row_at store.now) sets.now) s) }
{
    let mut row = Row::zeros(alloc, store.states())?;
    let first = store.row(sets[0]);
    let mut i = 0;
    while i < rules.len() {
        let kid = first_of(&rules[i]) as usize;
        let Some(q) = first.first_from(kid) else {
            return Ok(row);
        };
        if q == kid {
            add_parent(store, sets, &rules[i], &mut row);
            i += 1;
        } else {
            i += below(&rules[i..], q);
        }
    }
    Ok(row)
}

impl Steps {
    /// These rules, with the joint places of their symbols.
    pub fn of(alloc: Global, rules: &[Rule], places: &[u32]) -> Result<Steps, AllocError>
        requires { All (λ r. r.symbol < length places.now) rules.now }
        ensures { IfOk result (λ s. HaveSameRules s (map (relabelled places.now) rules.now)) }
    {
        let mut sorted = relabelled_rules(alloc, rules, places)?;
        sorted.sort_by(|r, s| { r.symbol.cmp(&s.symbol).then(first_of(r).cmp(&first_of(s))) })?;
        Ok(Steps { rules: sorted })
    }

    /// The rules under the symbol, in order of their first children.
    fn under(&self, symbol: u32) -> &[Rule]
        ensures members { (r : RuleSpec) → Contains result.now r ↔ (Contains self.now r × (r.symbol ≡ symbol)) }
        ensures rising { IsNonDecreasingBy first_kid result.now }
    {
        let from = self.rules.partition_point(|r| r.symbol < symbol);
        let rest = &self.rules[from..];
        let to = rest.partition_point(|r| r.symbol <= symbol);
        &rest[..to]
    }

    /// The parents of the rules under the symbol whose children are in the sets.
    pub fn post(
        &self,
        alloc: Global,
        symbol: u32,
        sets: &[usize],
        store: &MacroStore,
    ) -> Result<Row, AllocError>
        requires sets { All (λ k. k < length store.now.rows) sets.now }
        requires kids { All (λ r. All (λ q. q < store.now.states) r.kids) self.now }
        requires parents { All (λ r. r.parent < store.now.states) self.now }
        ensures long { IfOk result (λ row. length row ≡ store.now.states) }
        ensures members { IfOk result (λ row. (s : ℕ) → Has row s ↔ IsReachedUnder self.now symbol (map (row_at store.now) sets.now) s) }
    {
        let here = self.under(symbol);
        if sets.is_empty() {
            return reached(alloc, store, sets, here);
        }
        reached_by_first(alloc, store, sets, here)
    }
}
