//! The names of states, as they are printed.

ghost use Rattle.std.specs.Prelude.{◌≡◌, ◌<◌, ◌≤◌, length, IfOk, OnOk, take};
ghost use Rattle.timbuk_definitions.specs.Printed.{name_at};

use std::alloc::{AllocError, Global};
use std::marker::Model;
use ta_model::Name;
use word_table::Words;

/// The most names in one block.
const MOST_NAMES: usize = 1_000_000;

/// The most bytes of a name in the block.
const MOST_BYTES: usize = 1_000;

/// Names of places. The first of them stand in one block as well, one behind the other, where a cache
/// holds more of them. They are seen as the list of the names.
#[derive(Drop)]
pub struct PlacedNames<'a> {
    names: &'a [Name],
    block: Words,
}

impl<'a> Model for PlacedNames<'a> {
    ghost use Rattle.std.specs.Prelude.{◌≡◌, ℕ, List, length, take};

    ghost Value = { List (List ℕ) };

    ghost view = { λ n. n.names.now };

    ghost invariant = { λ n. n.block ≡ take (length n.block) n.names.now };
}

impl<'a> PlacedNames<'a> {
    /// The names, of which so many are put into one block as it takes.
    pub fn of(alloc: Global, names: &'a [Name]) -> Result<PlacedNames<'a>, AllocError>
        ensures { IfOk result (λ n. n ≡ names.now) }
    {
        let mut block = Words::new(alloc);
        for name in names {
            let bytes = name.bytes();
            if block.len() >= MOST_NAMES || bytes.len() > MOST_BYTES {
                break;
            }
            block.push(bytes)?;
        }
        Ok(PlacedNames { names, block })
    }

    /// How many names there are.
    #[inline]
    pub fn len(&self) -> usize
        ensures { result ≡ length self.now }
    {
        self.names.len()
    }

    /// The name of this place.
    #[inline]
    pub fn name(&self, place: u32) -> &[u8]
        requires { place < length self.now }
        ensures { result.now ≡ name_at self.now place }
    {
        if (place as usize) < self.block.len() {
            self.block.word(place)
        } else {
            self.names[place as usize].bytes()
        }
    }
}
