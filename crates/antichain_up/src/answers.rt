//! What a search answers, from its entries.

ghost use Rattle.std.specs.Prelude.{◌≡◌, ◌≢◌, ◌⊎◌, ◌<◌, ◌≤◌, ◌+◌, ◌↔◌, ℕ, [], ◌∷◌, ◌++◌, IfOk, OnOk, All, AllPairs, Contains, length, map, slice_index};
ghost use Rattle.tree_definitions.specs.Tree.{Tree};
ghost use Rattle.tree_definitions.specs.Relation.{Has};
ghost use Rattle.tree_definitions.specs.Witness.{AreNodes, IsTreeOf};
ghost use Rattle.upward_search.specs.Search.{ListsKept};
ghost use Rattle.listed_pairs.specs.Order.{AreRising};
ghost use Rattle.witness_trees.specs.Nodes.{AreOfRank, IsNodeList};
ghost use Rattle.antichain_up.specs.Answers as answers;
ghost use Rattle.antichain_up.specs.Answers.{AreEarlier, AreNeeded, IsEachNeeded, IsListing, IsTreeOfLast, node_of};
ghost use Rattle.antichain_up.specs.Entries.{AreApart, up_entry};

use crate::entry::Entry;
use listed_pairs::{Pair, UpEntry, pair_cmp};
use smallvec::SmallVec;
use std::alloc::{AllocError, Global};
use ta_model::{Kids, MacroStore, Symbol};
use witness_trees::{NodeError, Nodes};

/// The pair of an entry.
fn pair_of(entry: &Entry, store: &MacroStore) -> Result<Pair, AllocError>
    requires { entry.now.set < length store.now.rows }
    ensures { IfOk result (λ p. p ≡ answers.pair_of store.now entry.now) }
{
    Ok(Pair {
        state: entry.state,
        set: store.row(entry.set).copy()?,
    })
}

/// The pairs of the kept entries, in the order of the entries.
fn listed_pairs_of(
    alloc: Global,
    entries: &[Entry],
    kept: &[bool],
    store: &MacroStore,
) -> Result<Vec<Pair>, AllocError>
    requires stored { All (λ e. e.set < length store.now.rows) entries.now }
    requires flags { length kept.now ≡ length entries.now }
    requires apart { AreApart store.now (record { states = 0; rows = entries.now; kept = kept.now }) }
    ensures { IfOk result (λ v. IsListing store.now entries.now kept.now (length entries.now) v.items) }
{
    let mut pairs = Vec::new(alloc);
    for k in 0..entries.len() {
        if !kept[k] {
            continue;
        }
        let pair = pair_of(&entries[k], store)?;
        pairs.push(pair)?;
    }
    Ok(pairs)
}

/// The pairs of the kept entries, in rising order.
pub(crate) fn kept_pairs_of(
    alloc: Global,
    entries: &[Entry],
    kept: &[bool],
    store: &MacroStore,
) -> Result<Vec<Pair>, AllocError>
    requires stored { All (λ e. e.set < length store.now.rows) entries.now }
    requires flags { length kept.now ≡ length entries.now }
    requires apart { AreApart store.now (record { states = 0; rows = entries.now; kept = kept.now }) }
    ensures kept { IfOk result (λ v. ListsKept (map (up_entry store.now) entries.now) (Has kept.now) v.items) }
    ensures rising { IfOk result (λ v. AreRising v.items) }
    ensures few { IfOk result (λ v. length v.items ≤ length entries.now) }
{
    let mut pairs = listed_pairs_of(alloc, entries, kept, store)?;
    // The call tells the proof that each set has a place for each state.
    let _states = store.states();
    pairs.sort_by(|x, y| pair_cmp(x, y))?;
    Ok(pairs)
}

/// Marks these entries.
fn mark(marks: &mut [bool], kids: &[u32])
    requires { All (λ j. j < length marks.old) kids.now }
    ensures many { length marks.new ≡ length marks.old }
    ensures set { (j : ℕ) → Has marks.new j ↔ (Has marks.old j ⊎ Contains kids.now j) }
{
    for j in kids {
        marks[*j as usize] = true;
    }
}

/// Marks the entries that the last one needs: itself and, of each of them, the children.
fn mark_needed(marks: &mut [bool], entries: &[Entry], last: usize)
    requires many { length marks.old ≡ length entries.now }
    requires last { length entries.now ≡ last + 1 }
    requires none { (k : ℕ) → ¬ Has marks.old k }
    requires earlier { AreEarlier entries.now }
    ensures { AreNeeded entries.now marks.new }
{
    marks[last] = true;
    let mut k = last + 1;
    while k > 0 {
        k -= 1;
        if marks[k] {
            let entry = &entries[k];
            mark(marks, entry.kids.as_slice());
        }
    }
}

/// The marks of the entries that the last one needs.
fn needed(alloc: Global, entries: &[Entry], last: usize) -> Result<Vec<bool>, AllocError>
    requires last { length entries.now ≡ last + 1 }
    requires earlier { AreEarlier entries.now }
    ensures { IfOk result (λ v. AreNeeded entries.now v.items) }
{
    let mut marks = vec![in alloc; false; entries.len()]?;
    mark_needed(&mut marks, entries, last);
    Ok(marks)
}

/// The numbers that stand at these places.
fn numbers_at(alloc: Global, numbers: &[u32], kids: &[u32]) -> Result<Kids, AllocError>
    requires { All (λ j. j < length numbers.now) kids.now }
    ensures { IfOk result (λ v. v.items ≡ map (slice_index numbers.now) kids.now) }
{
    let mut list = SmallVec::new(alloc);
    for j in kids {
        list.push(numbers[*j as usize])?;
    }
    Ok(list)
}

/// Appends the entry as a node, whose children have these numbers.
fn add_node(
    alloc: Global,
    nodes: &mut Nodes,
    entry: &Entry,
    numbers: &[u32],
) -> Result<u32, AllocError>
    requires symbol { entry.now.symbol < length nodes.old.symbols }
    requires rank { AreOfRank nodes.old.symbols entry.now.symbol entry.now.kids }
    requires kids { All (λ j. j < length numbers.now) entry.now.kids }
    requires earlier { All (λ j. slice_index numbers.now j < length nodes.old.rows) entry.now.kids }
    requires room { length nodes.old.rows < 4294967295 }
    ensures number { IfOk result (λ n. n ≡ length nodes.old.rows) }
    ensures added { OnOk result (nodes.new ≡ record nodes.old {
      rows = nodes.old.rows ++ record { symbol = entry.now.symbol; kids = map (slice_index numbers.now) entry.now.kids } ∷ [];
    }) }
{
    let kids = numbers_at(alloc, numbers, entry.kids.as_slice())?;
    match nodes.add(entry.symbol, kids.as_slice()) {
        Ok(number) => Ok(number),
        Err(NodeError::Memory) => Err(AllocError),
        Err(NodeError::BadRank) => unreachable!(),
        Err(NodeError::BadKid) => unreachable!(),
    }
}

/// Appends the entries that the last one needs as nodes, in order.
fn add_needed(alloc: Global, nodes: &mut Nodes, entries: &[Entry]) -> Result<(), AllocError>
    requires some { 0 < length entries.now }
    requires few_entries { length entries.now ≤ 4294967295 }
    requires nodes { AreNodes nodes.old.symbols (map node_of entries.now) }
    requires none { nodes.old.rows ≡ [] }
    ensures { IfOk result (λ _. IsTreeOfLast entries.now nodes.old.symbols nodes.new) }
{
    let marks = needed(alloc, entries, entries.len() - 1)?;
    let mut numbers = Vec::with_capacity(alloc, entries.len())?;
    for k in 0..entries.len() {
        if !marks[k] {
            numbers.push(0)?;
            continue;
        }
        let number = add_node(alloc, nodes, &entries[k], &numbers)?;
        numbers.push(number)?;
    }
    Ok(())
}

/// The tree of the last entry as nodes over these symbols, of which each is needed.
pub(crate) fn tree_of(
    alloc: Global,
    entries: &[Entry],
    symbols: &[Symbol],
) -> Result<Nodes, AllocError>
    requires distinct { AllPairs ◌≢◌ symbols.now }
    requires few { length symbols.now < 4294967295 }
    requires few_entries { length entries.now ≤ 4294967295 }
    requires nodes { AreNodes symbols.now (map node_of entries.now) }
    ensures symbols { IfOk result (λ n. n.symbols ≡ symbols.now) }
    ensures list { IfOk result IsNodeList }
    ensures tree { IfOk result (λ n. (k : ℕ) (t : Tree) → length entries.now ≡ k + 1
        → IsTreeOf symbols.now (map node_of entries.now) k t
        → (last : ℕ) × (length n.rows ≡ last + 1) × IsTreeOf n.symbols n.rows last t) }
    ensures needed { IfOk result (λ n. IsEachNeeded n.rows) }
{
    let mut nodes = Nodes::new(alloc, symbols)?;
    if !entries.is_empty() {
        add_needed(alloc, &mut nodes, entries)?;
    }
    // The call tells the proof that the nodes fit.
    let _symbols = nodes.symbols();
    Ok(nodes)
}

/// The entries as those of a trail.
pub(crate) fn trail_of(
    alloc: Global,
    entries: &[Entry],
    store: &MacroStore,
) -> Result<Vec<UpEntry>, AllocError>
    requires { All (λ e. e.set < length store.now.rows) entries.now }
    ensures { IfOk result (λ v. v.items ≡ map (up_entry store.now) entries.now) }
{
    let mut trail = Vec::with_capacity(alloc, entries.len())?;
    for entry in entries {
        trail.push(UpEntry {
            pair: pair_of(entry, store)?,
            symbol: entry.symbol,
            kids: Vec::from_slice(alloc, entry.kids.as_slice())?,
        })?;
    }
    Ok(trail)
}
