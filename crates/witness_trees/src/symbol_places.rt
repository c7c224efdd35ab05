//! Symbols and their places in a list.

ghost use Rattle.std.specs.Prelude.{◌≡◌, ◌≢◌, ◌<◌, ◌++◌, ◌∷◌, [], length, AllPairs, Contains, IfNone, IfOk, IfSome, OnOk};
ghost use Rattle.tree_definitions.specs.Relation.{IsAt};
ghost use Rattle.witness_trees.specs.Judged.{place_in};
ghost use Rattle.witness_trees.specs.Nodes.{AreSymbols};

use indexmap::IndexSet;
use std::alloc::{AllocError, Global};
use std::fmt;
use std::hash::{BuildHasherDefault, DefaultHasher};
use std::marker::Model;
use ta_model::{Name, Symbol};

/// Distinct symbols in order. It is seen as their list.
///
/// The symbols are looked up by a hash of their bytes (SipHash with a fixed key).
#[derive(Drop)]
pub struct SymbolPlaces {
    symbols: IndexSet<Symbol, BuildHasherDefault<DefaultHasher>>,
}

impl Model for SymbolPlaces {
    ghost use Rattle.std.specs.Prelude.{List};
    ghost use Rattle.tree_definitions.specs.Tree.{Symbol as SymbolSpec};
    ghost use Rattle.witness_trees.specs.Nodes.{AreSymbols};

    ghost Value = { List SymbolSpec };

    ghost view = { λ p. p.symbols.keys };

    ghost invariant = { λ p. AreSymbols p.symbols.keys };
}

impl fmt::Debug for SymbolPlaces {
    fn fmt<W: fmt::Write>(&self, f: &mut fmt::Formatter<W>) -> fmt::Result {
        fmt::Debug::fmt(self.list(), f)
    }
}

impl SymbolPlaces {
    /// No symbols, and room for so many.
    fn with_room(alloc: Global, room: usize) -> Result<SymbolPlaces, AllocError>
        ensures { IfOk result (λ p. p ≡ []) }
    {
        Ok(SymbolPlaces {
            symbols: IndexSet::with_capacity_and_hasher(alloc, room, BuildHasherDefault::new())?,
        })
    }

    /// Appends a symbol that the list lacks.
    fn append(&mut self, symbol: &Symbol) -> Result<(), AllocError>
        requires lacks { Contains self.old symbol.now → ⊥ }
        requires room { length self.old < 4294967294 }
        ensures { OnOk result (self.new ≡ self.old ++ symbol.now ∷ []) }
    {
        let copy = symbol.clone()?;
        let _rank = copy.rank;
        self.symbols.insert(copy)?;
        Ok(())
    }

    /// The symbols of a list of distinct ones, in its order.
    pub fn of(alloc: Global, symbols: &[Symbol]) -> Result<SymbolPlaces, AllocError>
        requires distinct { AllPairs ◌≢◌ symbols.now }
        requires few { length symbols.now < 4294967295 }
        ensures { IfOk result (λ p. p ≡ symbols.now) }
    {
        let mut places = SymbolPlaces::with_room(alloc, symbols.len())?;
        for symbol in symbols {
            places.append(symbol)?;
        }
        Ok(places)
    }

    /// The symbols in order.
    pub(crate) fn list(&self) -> &[Symbol]
        ensures value { result.now ≡ self.now }
        ensures symbols { AreSymbols self.now }
    {
        self.symbols.as_slice()
    }

    /// The place of the symbol.
    pub(crate) fn find(&self, symbol: &Symbol) -> Option<u32>
        ensures found { IfSome result (λ i. IsAt self.now i symbol.now) }
        ensures none { IfNone result (Contains self.now symbol.now → ⊥) }
        ensures symbols { AreSymbols self.now }
    {
        match self.symbols.get_index_of(symbol) {
            Some(i) => Some(i as u32),
            None => None,
        }
    }

    /// The place of the symbol with this name and rank.
    pub fn find_called(&self, name: Name, rank: usize) -> Option<u32>
        ensures { result ≡ place_in self.now name rank }
    {
        // No symbol takes more children than a byte counts.
        let _symbols = self.list();
        if rank > 255 {
            return None;
        }
        let symbol = Symbol {
            name,
            rank: rank as u8,
        };
        self.find(&symbol)
    }
}
