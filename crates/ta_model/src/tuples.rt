//! Child tuples in rising order.

ghost use Rattle.std.specs.Prelude.{◌≡◌, ◌<◌, length, slice_get, Some};
ghost use Rattle.ta_model.specs.Tuples.{IsRising, kids_of};

use crate::rule::Kids;
use std::marker::Model;

/// Distinct child tuples in rising dictionary order, where a proper prefix comes first. They are
/// seen as a list of lists.
#[derive(Debug, Drop)]
pub struct Tuples {
    items: Vec<Kids>,
}

impl Model for Tuples {
    ghost use Rattle.std.specs.Prelude.{ℕ, List};
    ghost use Rattle.ta_model.specs.Tuples.{IsRising, kids_of};

    ghost Value = { List (List ℕ) };

    ghost view = { λ t. kids_of t.items.items };

    ghost invariant = { λ t. IsRising (kids_of t.items.items) };
}

impl Tuples {
    /// The tuples of this list.
    pub fn new(items: Vec<Kids>) -> Tuples
        requires { IsRising (kids_of items.items) }
        ensures { result ≡ kids_of items.items }
    {
        Tuples { items }
    }

    /// How many tuples there are.
    pub fn len(&self) -> usize
        ensures value { result ≡ length self.now }
        ensures rising { IsRising self.now }
    {
        self.items.len()
    }

    /// The tuple at this place.
    pub fn at(&self, i: usize) -> &Kids
        requires { i < length self.now }
        ensures { slice_get self.now i ≡ Some result.now.items }
    {
        &self.items[i]
    }
}
