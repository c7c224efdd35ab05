//! The order of pairs.

ghost use Rattle.std.specs.Prelude.{◌≡◌, ◌↔◌, IsTrue};
ghost use Rattle.std.specs.Ordering.{nat_cmp};
ghost use Rattle.std.specs.Cmp.Lexicographic.{slice_cmp};
ghost use Rattle.listed_pairs.specs.Members.{members};
ghost use Rattle.listed_pairs.specs.Order as order;

use crate::pair::Pair;
use bit_rows::Row;
use std::cmp::Ordering;

/// Compares the lists of the members of two sets in dictionary order.
fn set_cmp(x: &Row, y: &Row) -> Ordering
    ensures { result ≡ slice_cmp nat_cmp (members x.now) (members y.now) }
{
    // The number of places tells the proof that a place fits.
    let _places = x.len();
    let mut from = 0;
    while let Some(i) = x.first_from(from) {
        let Some(j) = y.first_from(from) else {
            return Ordering::Greater;
        };
        if i != j {
            return i.cmp(&j);
        }
        from = i + 1;
    }
    match y.first_from(from) {
        Some(_) => Ordering::Less,
        None => Ordering::Equal,
    }
}

/// Compares two pairs: by their states, then by the lists of their members in dictionary order.
/// Takes no memory.
pub fn pair_cmp(x: &Pair, y: &Pair) -> Ordering
    ensures { result ≡ order.pair_cmp x.now y.now }
{
    match x.state.cmp(&y.state) {
        Ordering::Equal => set_cmp(&x.set, &y.set),
        other => other,
    }
}

/// Whether each pair precedes the next one. Takes no memory.
pub fn are_rising(pairs: &[Pair]) -> bool
    ensures { IsTrue result ↔ order.AreRising pairs.now }
{
    for i in 1..pairs.len() {
        match pair_cmp(&pairs[i - 1], &pairs[i]) {
            Ordering::Less => {}
            _ => return false,
        }
    }
    true
}
