//! What a choice sends to a place.

ghost use Rattle.std.specs.Prelude.{◌≡◌, ◌<◌, ◌↔◌, ◌⊎◌, ℕ, List, All, Contains, IfOk, length};
ghost use Rattle.tree_definitions.specs.DownTrail.{SentBy};
ghost use Rattle.tree_definitions.specs.Relation.{Has, IsAt};
ghost use Rattle.ta_model.specs.Tuples.{kids_of};

use bit_rows::Row;
use std::alloc::{AllocError, Global};
use ta_model::Kids;

/// The places in the list, as a row.
pub(crate) fn row_of(alloc: Global, places: &[u32], n: usize) -> Result<Row, AllocError>
    requires { All (λ q. q < n) places.now }
    ensures long { IfOk result (λ row. length row ≡ n) }
    ensures members { IfOk result (λ row. (q : ℕ) → Has row q ↔ Contains places.now q) }
{
    let mut row = Row::zeros(alloc, n)?;
    for q in places {
        row.set(*q as usize);
    }
    Ok(row)
}

/// Adds the tuple's member at this place, if it has one.
fn add_member(row: &mut Row, tuple: &[u32], place: usize)
    requires { All (λ q. q < length row.old) tuple.now }
    ensures long { length row.new ≡ length row.old }
    ensures members { (s : ℕ) → Has row.new s ↔ (IsAt tuple.now place s ⊎ Has row.old s) }
{
    if place < tuple.len() {
        row.set(tuple[place] as usize);
    }
}

/// Adds the tuple's member at this place, if it has one and the choice sends tuple k there.
fn add_sent(row: &mut Row, tuple: &[u32], choice: &[u8], k: usize, place: usize)
    requires { All (λ q. q < length row.old) tuple.now }
    ensures long { length row.new ≡ length row.old }
    ensures members { (s : ℕ) → Has row.new s ↔ ((IsAt choice.now k place × IsAt tuple.now place s) ⊎ Has row.old s) }
{
    if k >= choice.len() {
        return;
    }
    if choice[k] as usize != place {
        return;
    }
    add_member(row, tuple, place);
}

/// The members at this place of the tuples that the choice sends there, as a row of n places.
pub(crate) fn sent_to(
    alloc: Global,
    tuples: &[Kids],
    choice: &[u8],
    place: usize,
    n: usize,
) -> Result<Row, AllocError>
    requires { All (λ tuple. All (λ q. q < n) tuple) (kids_of tuples.now) }
    ensures long { IfOk result (λ row. length row ≡ n) }
    ensures members { IfOk result (λ row. (s : ℕ) → Has row s ↔ SentBy (kids_of tuples.now) choice.now place s) }
{
    let mut row = Row::zeros(alloc, n)?;
    for k in 0..tuples.len() {
        add_sent(&mut row, tuples[k].as_slice(), choice, k, place);
    }
    Ok(row)
}
