//! The entries that a search came to, and which of them are kept.

ghost use Rattle.std.specs.Prelude.{◌≡◌, ◌≢◌, ◌<◌, ◌≤◌, ◌+◌, ◌↔◌, ℕ, true, [], ◌∷◌, ◌++◌, IfOk, IsTrue, All, AllPairs, Contains, length, map};
ghost use Rattle.tree_definitions.specs.Tree.{Tree};
ghost use Rattle.tree_definitions.specs.Relation.{Below, Has, Holds, IsAt};
ghost use Rattle.tree_definitions.specs.Witness.{AreNodes, IsTreeOf};
ghost use Rattle.ta_model.specs.Macrostates.{row_at};
ghost use Rattle.upward_search.specs.Search.{IsKeptOver, IsOrder, ListsKept};
ghost use Rattle.listed_pairs.specs.Order.{AreRising};
ghost use Rattle.witness_trees.specs.Nodes.{IsNodeList};
ghost use Rattle.antichain_up.specs.Answers.{IsEachNeeded};
ghost use Rattle.antichain_up.specs.ByState.{Clears, TakesOut};
ghost use Rattle.antichain_up.specs.Entries.{EntryRow, IsEntryList, AreStored, AreCandidates, AreApart, Added, Kept, IsEntryAt, node_rows, up_entries};
ghost use Rattle.antichain_up.specs.Orders.{AreOrders};

use crate::answers::{kept_pairs_of, trail_of, tree_of};
use crate::by_state::ByState;
use crate::entry::Entry;
use crate::orders::Orders;
use listed_pairs::{Pair, UpEntry};
use smallvec::SmallVec;
use std::alloc::{AllocError, Global};
use std::marker::Model;
use ta_model::{MacroStore, Symbol};
use witness_trees::Nodes;

/// All entries in the order in which they came. Those that are kept also stand in the list of
/// their state.
#[derive(Drop)]
pub(crate) struct Entries {
    entries: Vec<Entry>,
    kept: Vec<bool>,
    by_state: ByState,
}

impl Model for Entries {
    ghost use Rattle.std.specs.Prelude.{length};
    ghost use Rattle.antichain_up.specs.ByState.{AreByState};
    ghost use Rattle.antichain_up.specs.Entries.{EntryList, IsEntryList};

    ghost Value = { EntryList };

    ghost view = { λ s. record { states = length s.by_state; rows = s.entries.items; kept = s.kept.items } };

    ghost invariant = { λ s. IsEntryList (record { states = length s.by_state; rows = s.entries.items; kept = s.kept.items })
        × AreByState (record { states = length s.by_state; rows = s.entries.items; kept = s.kept.items }) s.by_state };
}

/// Whether the set of one of these entries is below this one.
fn has_below(
    orders: &Orders,
    store: &MacroStore,
    entries: &[Entry],
    numbers: &[u32],
    set: usize,
) -> bool
    requires wide { store.now.states ≡ length orders.now.right }
    requires order { IsOrder store.now.states (Holds orders.now.right) }
    requires stored { All (λ e. e.set < length store.now.rows) entries.now }
    requires set { set < length store.now.rows }
    requires numbers { All (λ k. k < length entries.now) numbers.now }
    ensures { IsTrue result ↔ ((k : ℕ) × (e : EntryRow) × Contains numbers.now k × IsAt entries.now k e
        × Below (Holds orders.now.right) (Has (row_at store.now e.set)) (Has (row_at store.now set))) }
{
    for k in numbers {
        let entry = &entries[*k as usize];
        if orders.is_set_below(store, entry.set, set) {
            return true;
        }
    }
    false
}

/// Clears the flag of each of these entries whose set this one is below.
fn clear(
    kept: &mut [bool],
    orders: &Orders,
    store: &MacroStore,
    entries: &[Entry],
    numbers: &[u32],
    set: usize,
)
    requires wide { store.now.states ≡ length orders.now.right }
    requires order { IsOrder store.now.states (Holds orders.now.right) }
    requires stored { All (λ e. e.set < length store.now.rows) entries.now }
    requires set { set < length store.now.rows }
    requires flags { length kept.old ≡ length entries.now }
    requires numbers { All (λ k. k < length entries.now) numbers.now }
    ensures { Clears entries.now numbers.now
        (λ e. Below (Holds orders.now.right) (Has (row_at store.now set)) (Has (row_at store.now e.set))) kept.old kept.new }
{
    for k in numbers {
        let k = *k as usize;
        let entry = &entries[k];
        if !orders.is_set_below(store, set, entry.set) {
            continue;
        }
        kept[k] = false;
    }
}

/// The numbers below `done`.
fn numbers_below(alloc: Global, numbers: &[u32], done: usize) -> Result<Vec<u32>, AllocError>
    ensures { IfOk result (λ v. (k : ℕ) → Contains v.items k ↔ (Contains numbers.now k × (k < done))) }
{
    let mut list = Vec::with_capacity(alloc, numbers.len())?;
    for k in numbers {
        if *k as usize >= done {
            continue;
        }
        list.push(*k)?;
    }
    Ok(list)
}

impl Entries {
    /// No entries, over so many left states.
    pub(crate) fn new(alloc: Global, states: u32) -> Result<Entries, AllocError>
        ensures { IfOk result (λ s. s ≡ record { states = states; rows = []; kept = [] }) }
    {
        Ok(Entries {
            entries: Vec::new(alloc),
            kept: Vec::new(alloc),
            by_state: ByState::new(alloc, states as usize)?,
        })
    }

    /// How many entries there are.
    pub(crate) fn len(&self) -> usize
        ensures value { result ≡ length self.now.rows }
        ensures list { IsEntryList self.now }
    {
        self.entries.len()
    }

    /// The state of the entry with this number.
    pub(crate) fn state(&self, k: u32) -> u32
        requires { k < length self.now.rows }
        ensures state { IsEntryAt self.now result k }
        ensures list { IsEntryList self.now }
    {
        self.entries[k as usize].state
    }

    /// The number of its set.
    pub(crate) fn set(&self, k: u32) -> usize
        requires { k < length self.now.rows }
        ensures { (e : EntryRow) × IsAt self.now.rows k e × (result ≡ e.set) }
    {
        self.entries[k as usize].set
    }

    /// Whether it is kept.
    pub(crate) fn is_kept(&self, k: u32) -> bool
        requires { k < length self.now.rows }
        ensures { IsTrue result ↔ Kept self.now k }
    {
        self.kept[k as usize]
    }

    /// Whether a kept entry covers the pair of this state and set.
    pub(crate) fn is_covered(
        &self,
        orders: &Orders,
        store: &MacroStore,
        state: u32,
        set: usize,
    ) -> bool
        requires orders { AreOrders self.now.states store.now.states orders.now }
        requires stored { AreStored store.now self.now }
        requires state { state < self.now.states }
        requires set { set < length store.now.rows }
        ensures { IsTrue result ↔ IsKeptOver (Holds orders.now.left) (Holds orders.now.right)
            (up_entries store.now self.now) (Kept self.now) state (Has (row_at store.now set)) }
    {
        let mut from = 0;
        while let Some(r) = orders.next_above(state as usize, from) {
            if has_below(orders, store, &self.entries, self.by_state.at(r), set) {
                return true;
            }
            from = r + 1;
        }
        false
    }

    /// Adds the step to the pair of this state and set, and takes out the kept entries that the
    /// pair covers.
    pub(crate) fn add(
        &mut self,
        orders: &Orders,
        store: &MacroStore,
        state: u32,
        set: usize,
        symbol: u32,
        kids: &[u32],
    ) -> Result<(), AllocError>
        requires orders { AreOrders self.old.states store.now.states orders.now }
        requires stored { AreStored store.now self.old }
        requires state { state < self.old.states }
        requires set { set < length store.now.rows }
        requires room { length self.old.rows < 4294967295 }
        ensures { IfOk result (λ u. Added (Holds orders.now.left) (Holds orders.now.right) store.now self.old
            (record { state = state; set = set; symbol = symbol; kids = kids.now }) self.new) }
    {
        // The number of entries tells the proof that each has a flag.
        let _entries = self.len();
        let mut from = 0;
        while let Some(r) = orders.next_below(state as usize, from) {
            self.take_out(orders, store, r, set);
            from = r + 1;
        }
        self.push(state, set, symbol, kids)?;
        Ok(())
    }

    /// Takes out the kept entries of this state whose sets this one is below.
    fn take_out(&mut self, orders: &Orders, store: &MacroStore, state: usize, set: usize)
        requires orders { AreOrders self.old.states store.now.states orders.now }
        requires stored { AreStored store.now self.old }
        requires state { state < self.old.states }
        requires set { set < length store.now.rows }
        ensures { TakesOut (λ e. (e.state ≡ state)
            × Below (Holds orders.now.right) (Has (row_at store.now set)) (Has (row_at store.now e.set))) self.old self.new }
    {
        let numbers = self.by_state.at(state);
        clear(&mut self.kept, orders, store, &self.entries, numbers, set);
        self.by_state.keep(state, &self.kept);
    }

    /// Appends a kept entry.
    fn push(&mut self, state: u32, set: usize, symbol: u32, kids: &[u32]) -> Result<(), AllocError>
        requires state { state < self.old.states }
        requires room { length self.old.rows < 4294967295 }
        ensures { IfOk result (λ _. self.new ≡ record {
          states = self.old.states;
          rows = self.old.rows ++ record { state = state; set = set; symbol = symbol; kids = kids.now } ∷ [];
          kept = self.old.kept ++ true ∷ [];
        }) }
    {
        let number = self.entries.len();
        let kids = SmallVec::from_slice(*self.entries.allocator(), kids)?;
        self.entries.push(Entry {
            state,
            set,
            symbol,
            kids,
        })?;
        let Ok(()) = self.kept.push(true) else {
            self.entries.truncate(number);
            return Err(AllocError);
        };
        let Ok(()) = self.by_state.add(state as usize, number as u32) else {
            self.kept.truncate(number);
            self.entries.truncate(number);
            return Err(AllocError);
        };
        Ok(())
    }

    /// For each of these states the kept entries of this state among the first `done` entries.
    pub(crate) fn candidates(&self, kids: &[u32], done: usize) -> Result<Vec<Vec<u32>>, AllocError>
        requires { All (λ q. q < self.now.states) kids.now }
        ensures { IfOk result (λ v. AreCandidates self.now done kids.now (map (λ l. l.items) v.items)) }
    {
        let alloc = *self.entries.allocator();
        let mut lists = Vec::with_capacity(alloc, kids.len())?;
        for q in kids {
            let list = numbers_below(alloc, self.by_state.at(*q as usize), done)?;
            lists.push(list)?;
        }
        Ok(lists)
    }

    /// The pairs of the kept entries, in rising order.
    pub(crate) fn kept_pairs(&self, store: &MacroStore) -> Result<Vec<Pair>, AllocError>
        requires stored { AreStored store.now self.now }
        requires apart { AreApart store.now self.now }
        ensures kept { IfOk result (λ v. ListsKept (up_entries store.now self.now) (Kept self.now) v.items) }
        ensures rising { IfOk result (λ v. AreRising v.items) }
        ensures few { IfOk result (λ v. length v.items ≤ length self.now.rows) }
    {
        let alloc = *self.entries.allocator();
        kept_pairs_of(alloc, &self.entries, &self.kept, store)
    }

    /// The tree of the last entry as nodes over these symbols, of which each is needed.
    pub(crate) fn tree(&self, symbols: &[Symbol]) -> Result<Nodes, AllocError>
        requires distinct { AllPairs ◌≢◌ symbols.now }
        requires few { length symbols.now < 4294967295 }
        requires nodes { AreNodes symbols.now (node_rows self.now) }
        ensures symbols { IfOk result (λ n. n.symbols ≡ symbols.now) }
        ensures list { IfOk result IsNodeList }
        ensures tree { IfOk result (λ n. (k : ℕ) (t : Tree) → length self.now.rows ≡ k + 1
            → IsTreeOf symbols.now (node_rows self.now) k t
            → (last : ℕ) × (length n.rows ≡ last + 1) × IsTreeOf n.symbols n.rows last t) }
        ensures needed { IfOk result (λ n. IsEachNeeded n.rows) }
    {
        let alloc = *self.entries.allocator();
        tree_of(alloc, &self.entries, symbols)
    }

    /// The entries as those of a trail.
    pub(crate) fn trail(&self, store: &MacroStore) -> Result<Vec<UpEntry>, AllocError>
        requires { AreStored store.now self.now }
        ensures { IfOk result (λ v. v.items ≡ up_entries store.now self.now) }
    {
        let alloc = *self.entries.allocator();
        trail_of(alloc, &self.entries, store)
    }
}
