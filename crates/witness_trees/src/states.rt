//! The states of an automaton that the trees of nodes reach.

ghost use Rattle.std.specs.Prelude.{◌≡◌, ◌↔◌, ℕ, ◌+◌, ◌*◌, ◌<◌, ◌≤◌, length, All, IfOk, IsTrue, slice_index_or};
ghost use Rattle.std.specs.List.{AllZip};
ghost use Rattle.std.specs.List.Sorted.{IsNonDecreasingBy};
ghost use Rattle.tree_definitions.specs.Relation.{Has};
ghost use Rattle.witness_trees.specs.Nodes.{IsNodeList};
ghost use Rattle.witness_trees.specs.Reached.{AreReached};
ghost use Rattle.witness_trees.specs.Marking.{AreAmong, Gains, GainsOne, IsIndexed, IsPlaceOf, Steps, first_of, group_number, group_of};

use crate::nodes::Nodes;
use bit_rows::Row;
use std::alloc::{AllocError, Global};
use ta_model::{Listed, Rule, Symbol};

/// A rule's place, with the number of its group: the rules with its symbol and its first child.
#[derive(Clone, Copy, Debug, Drop)]
struct Entry {
    group: u64,
    rule: u32,
}

/// The place in the list of each symbol of the nodes.
fn places_of(
    alloc: Global,
    nodes: &Nodes,
    symbols: &[Symbol],
) -> Result<Vec<Option<u32>>, AllocError>
    requires { length symbols.now ≤ 65535 }
    ensures places { IfOk result (λ v. AllZip (IsPlaceOf symbols.now) nodes.now.symbols v.items) }
    ensures list { IsNodeList nodes.now }
{
    let mut places = vec![in alloc; None; nodes.symbols().len()]?;
    for i in 0..symbols.len() {
        if let Some(k) = nodes.find(&symbols[i]) {
            places[k as usize] = Some(i as u32);
        }
    }
    Ok(places)
}

fn first_child(kids: &[u32]) -> u32
    ensures { result ≡ first_of kids.now }
{
    match kids {
        [] => 0,
        [first, ..] => *first,
    }
}

fn number_of(symbol: u32, first: u32) -> u64
    ensures { result ≡ group_number symbol first }
{
    u64::from(symbol) * 4_294_967_296 + u64::from(first)
}

/// An entry for each rule, in the order of the rules.
fn entries_of(alloc: Global, rules: &[Rule]) -> Result<Vec<Entry>, AllocError>
    requires { length rules.now < 4294967295 }
    ensures { IfOk result (λ v. IsIndexed rules.now (length rules.now) v.items) }
{
    let mut entries = Vec::new(alloc);
    for i in 0..rules.len() {
        let rule = &rules[i];
        let group = number_of(rule.symbol, first_child(rule.kids.as_slice()));
        entries.push(Entry {
            group,
            rule: i as u32,
        })?;
    }
    Ok(entries)
}

/// The rules by their groups.
fn index_of(alloc: Global, rules: &[Rule]) -> Result<Vec<Entry>, AllocError>
    requires { length rules.now < 4294967295 }
    ensures indexed { IfOk result (λ v. IsIndexed rules.now (length rules.now) v.items) }
    ensures sorted { IfOk result (λ v. IsNonDecreasingBy (λ e. e.group) v.items) }
{
    let mut entries = entries_of(alloc, rules)?;
    entries.sort_by_key(|e| e.group)?;
    Ok(entries)
}

/// The place of the first entry whose group isn't below this one.
fn start_of(index: &[Entry], group: u64) -> usize
    requires { IsNonDecreasingBy (λ e. e.group) index.now }
    ensures bound { result ≤ length index.now }
    ensures before { (j : ℕ) (d : Entry) → j < result → (slice_index_or index.now j d).group < group }
    ensures after { (j : ℕ) (d : Entry) → result ≤ j → j < length index.now → group ≤ (slice_index_or index.now j d).group }
{
    index.partition_point(|e| e.group < group)
}

/// Whether the row has the place s.
fn has(row: &Row, s: u32) -> bool
    ensures { IsTrue result ↔ Has row.now s }
{
    let s = s as usize;
    s < row.len() && row.get(s)
}

/// Whether each state is among those that the child at its place reaches.
fn are_among(reached: &[Row], states: &[u32], kids: &[u32]) -> bool
    requires { All (λ k. k < length reached.now) kids.now }
    ensures { IsTrue result ↔ AreAmong reached.now states.now kids.now }
{
    if states.len() != kids.len() {
        return false;
    }
    for i in 0..states.len() {
        let row = &reached[kids[i] as usize];
        if !has(row, states[i]) {
            return false;
        }
    }
    true
}

/// Sets the parent of a rule that joins.
fn mark_rule(row: &mut Row, rule: &Rule, label: u32, kids: &[u32], reached: &[Row])
    requires kids { All (λ k. k < length reached.now) kids.now }
    requires parent { rule.now.parent < length row.old }
    ensures { GainsOne reached.now label kids.now rule.now row.old row.new }
{
    if rule.symbol == label && are_among(reached, rule.kids.as_slice(), kids) {
        row.set(rule.parent as usize);
    }
}

/// Sets the parents of the rules of one group that join.
fn mark_group(
    row: &mut Row,
    rules: &[Rule],
    index: &[Entry],
    label: u32,
    first: u32,
    kids: &[u32],
    reached: &[Row],
)
    requires sorted { IsNonDecreasingBy (λ e. e.group) index.now }
    requires indexed { IsIndexed rules.now (length rules.now) index.now }
    requires kids { All (λ k. k < length reached.now) kids.now }
    requires parents { All (λ rule. rule.parent < length row.old) rules.now }
    ensures { Gains rules.now reached.now label kids.now
        (λ r rule. group_of rule ≡ group_number label first) row.old row.new }
{
    let group = number_of(label, first);
    for i in start_of(index, group)..index.len() {
        let entry = &index[i];
        if entry.group != group {
            return;
        }
        mark_rule(row, &rules[entry.rule as usize], label, kids, reached);
    }
}

/// Sets the parents of the rules that join and whose first child is in this row.
fn mark_groups(
    row: &mut Row,
    rules: &[Rule],
    index: &[Entry],
    label: u32,
    firsts: &Row,
    kids: &[u32],
    reached: &[Row],
)
    requires sorted { IsNonDecreasingBy (λ e. e.group) index.now }
    requires indexed { IsIndexed rules.now (length rules.now) index.now }
    requires kids { All (λ k. k < length reached.now) kids.now }
    requires parents { All (λ rule. rule.parent < length row.old) rules.now }
    requires few { length firsts.now < 4294967295 }
    ensures { Gains rules.now reached.now label kids.now
        (λ r rule. Has firsts.now (first_of rule.kids)) row.old row.new }
{
    let mut from = 0;
    while let Some(q) = firsts.first_from(from) {
        mark_group(row, rules, index, label, q as u32, kids, reached);
        from = q + 1;
    }
}

/// Sets the parents of all rules that join.
fn mark(row: &mut Row, rules: &[Rule], index: &[Entry], label: u32, kids: &[u32], reached: &[Row])
    requires sorted { IsNonDecreasingBy (λ e. e.group) index.now }
    requires indexed { IsIndexed rules.now (length rules.now) index.now }
    requires kids { All (λ k. k < length reached.now) kids.now }
    requires parents { All (λ rule. rule.parent < length row.old) rules.now }
    requires few { All (λ r. length r < 4294967295) reached.now }
    ensures { Gains rules.now reached.now label kids.now (λ r rule. Unit {0}) row.old row.new }
{
    match kids.first() {
        None => mark_group(row, rules, index, label, 0, kids, reached),
        Some(first) => {
            let firsts = &reached[*first as usize];
            mark_groups(row, rules, index, label, firsts, kids, reached)
        }
    }
}

/// The states that a node reaches, from those of its children.
fn row_of(
    alloc: Global,
    a: &Listed,
    index: &[Entry],
    label: Option<u32>,
    kids: &[u32],
    reached: &[Row],
) -> Result<Row, AllocError>
    requires sorted { IsNonDecreasingBy (λ e. e.group) index.now }
    requires indexed { IsIndexed a.now.rules (length a.now.rules) index.now }
    requires kids { All (λ k. k < length reached.now) kids.now }
    requires each_state { All (λ r. length r ≡ length a.now.states) reached.now }
    ensures each_state { IfOk result (λ row. length row ≡ length a.now.states) }
    ensures states { IfOk result (λ row. (q : ℕ)
        → Has row q ↔ Steps a.now.rules reached.now label kids.now q) }
{
    let mut row = Row::zeros(alloc, a.states().len())?;
    let Some(label) = label else {
        return Ok(row);
    };
    mark(&mut row, a.rules(), index, label, kids, reached);
    Ok(row)
}

/// For each node the states that its tree reaches: a row with a place for each state of A.
pub fn reach(alloc: Global, nodes: &Nodes, a: &Listed) -> Result<Vec<Row>, AllocError>
    ensures { IfOk result (λ rows. AreReached a.now nodes.now rows.items) }
{
    let labels = places_of(alloc, nodes, a.symbols())?;
    let index = index_of(alloc, a.rules())?;
    let mut reached = Vec::new(alloc);
    for k in 0..nodes.len() {
        let label = labels[nodes.symbol(k) as usize];
        let row = row_of(alloc, a, &index, label, nodes.kids(k), &reached)?;
        reached.push(row)?;
    }
    Ok(reached)
}
