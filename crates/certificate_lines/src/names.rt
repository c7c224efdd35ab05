//! State names and their places.

ghost use Rattle.std.specs.Prelude.{◌≡◌, ◌≢◌, ◌<◌, ◌++◌, ◌∷◌, [], length, AllPairs, Contains, IfOk, OnOk};
ghost use Rattle.certificate_lines.specs.Pairs.{state_in};

use indexmap::IndexSet;
use std::alloc::{AllocError, Global};
use std::hash::{BuildHasherDefault, DefaultHasher};
use std::marker::Model;
use ta_model::Name;

/// Distinct state names in order. They are seen as their list.
///
/// A name is looked up by a hash of its bytes (SipHash with a fixed key).
#[derive(Drop)]
pub struct StatePlaces {
    names: IndexSet<Name, BuildHasherDefault<DefaultHasher>>,
}

impl Model for StatePlaces {
    ghost use Rattle.std.specs.Prelude.{◌<◌, ℕ, List, length};

    ghost Value = { List (List ℕ) };

    ghost view = { λ p. p.names.keys };

    ghost invariant = { λ p. length p.names.keys < 4294967296 };
}

impl StatePlaces {
    /// No names, and room for so many.
    fn with_room(alloc: Global, room: usize) -> Result<StatePlaces, AllocError>
        ensures { IfOk result (λ p. p ≡ []) }
    {
        Ok(StatePlaces {
            names: IndexSet::with_capacity_and_hasher(alloc, room, BuildHasherDefault::new())?,
        })
    }

    /// Appends a name that the list lacks.
    fn append(&mut self, name: &Name) -> Result<(), AllocError>
        requires lacks { Contains self.old name.now → ⊥ }
        requires room { length self.old < 4294967295 }
        ensures { OnOk result (self.new ≡ self.old ++ name.now ∷ []) }
    {
        let copy = name.clone()?;
        let _bytes = copy.bytes();
        self.names.insert(copy)?;
        Ok(())
    }

    /// The names of a list of distinct ones, in its order.
    pub fn of(alloc: Global, names: &[Name]) -> Result<StatePlaces, AllocError>
        requires distinct { AllPairs ◌≢◌ names.now }
        requires few { length names.now < 4294967295 }
        ensures { IfOk result (λ p. p ≡ names.now) }
    {
        let mut places = StatePlaces::with_room(alloc, names.len())?;
        for name in names {
            places.append(name)?;
        }
        Ok(places)
    }

    /// The place of the name. Takes no memory.
    pub fn find(&self, name: &Name) -> Option<u32>
        ensures { result ≡ state_in self.now name.now }
    {
        match self.names.get_index_of(name) {
            Some(i) => Some(i as u32),
            None => None,
        }
    }
}
