//! Sets of states, each kept once.

ghost use Rattle.std.specs.Prelude.{◌≡◌, ◌<◌, [], length, IfOk, OnErr};
ghost use Rattle.tree_definitions.specs.Relation.{IsAt};
ghost use Rattle.ta_model.specs.Macrostates.{AreMacrostates, IsInterned, StoreGrows};

use bit_rows::Row;
use indexmap::IndexSet;
use std::alloc::{AllocError, Global};
use std::hash::{BuildHasherDefault, DefaultHasher};
use std::marker::Model;

/// Distinct sets of states, numbered from 0 in the order in which they came. A set is a row with a
/// place for each state. They are seen as the number of states and the list of rows.
///
/// The rows are looked up by a hash of their words (SipHash with a fixed key).
#[derive(Drop)]
pub struct MacroStore {
    states: usize,
    rows: IndexSet<Row, BuildHasherDefault<DefaultHasher>>,
}

impl Model for MacroStore {
    ghost use Rattle.ta_model.specs.Macrostates.{AreMacrostates, Macrostates};

    ghost Value = { Macrostates };

    ghost view = { λ m. record { states = m.states; rows = m.rows.keys } };

    ghost invariant = { λ m. AreMacrostates (record { states = m.states; rows = m.rows.keys }) };
}

impl MacroStore {
    /// No sets, for so many states.
    pub fn new(alloc: Global, states: usize) -> MacroStore
        ensures { result ≡ record { states = states; rows = [] } }
    {
        MacroStore {
            states,
            rows: IndexSet::with_hasher(alloc, BuildHasherDefault::new()),
        }
    }

    /// How many states a set has a place for.
    pub fn states(&self) -> usize
        ensures value { result ≡ self.now.states }
        ensures store { AreMacrostates self.now }
    {
        self.states
    }

    /// How many sets there are.
    pub fn len(&self) -> usize
        ensures value { result ≡ length self.now.rows }
        ensures store { AreMacrostates self.now }
    {
        self.rows.len()
    }

    /// The set with this number.
    pub fn row(&self, id: usize) -> &Row
        requires { id < length self.now.rows }
        ensures value { IsAt self.now.rows id result.now }
        ensures width { length result.now ≡ self.now.states }
        ensures store { AreMacrostates self.now }
    {
        self.rows.get_index(id).unwrap()
    }

    /// The number of the set, which comes last if it is new. A refusal leaves the sets as before.
    pub fn intern(&mut self, set: &Row) -> Result<usize, AllocError>
        requires { length set.now ≡ self.old.states }
        ensures ok { IfOk result (IsInterned self.old set.now self.new) }
        ensures err { OnErr result (self.new ≡ self.old) }
        ensures grows { StoreGrows self.old self.new }
        ensures store { AreMacrostates self.new }
    {
        if let Some(i) = self.rows.get_index_of(set) {
            return Ok(i);
        }
        let copy = set.copy()?;
        let Ok((i, _)) = self.rows.insert_full(copy) else {
            return Err(AllocError);
        };
        Ok(i)
    }
}
