//! A symbol of a ranked alphabet.

use crate::name::Name;
use std::alloc::AllocError;
use std::marker::Model;

/// A name with a rank, the number of children that it takes. Two symbols are equal exactly where
/// both parts are.
#[derive(Debug, Drop, PartialEq, Eq, PartialOrd, Ord, Hash)]
pub struct Symbol {
    pub name: Name,
    pub rank: u8,
}

impl Model for Symbol {
    ghost use Rattle.tree_definitions.specs.Tree.{Symbol as SymbolSpec};

    ghost Value = { SymbolSpec };

    ghost view = { λ s. record { name = s.name; rank = s.rank } };

    ghost inverse = { λ a. record { name = a.name; rank = a.rank } };
}

impl Clone for Symbol {
    ghost use Rattle.std.specs.Prelude.{◌≡◌};

    ghost is_clone = { λ a b. b ≡ a };

    fn clone(&self) -> Result<Symbol, AllocError> {
        Ok(Symbol {
            name: self.name.clone()?,
            rank: self.rank,
        })
    }
}
