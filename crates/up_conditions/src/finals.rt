//! Which pairs reject.

ghost use Rattle.std.specs.Prelude.{◌≡◌, ◌<◌, ◌≤◌, ◌↔◌, ℕ, All, Contains, IsTrue, IfNone, IfOk, IfSome, length};
ghost use Rattle.tree_definitions.specs.Cover.{Pair, FitsPair, Rejects};
ghost use Rattle.tree_definitions.specs.Relation.{Has};
ghost use Rattle.listed_pairs.specs.Places.{IsFirst, IsNth};
ghost use Rattle.up_conditions.specs.Listed.{RejectsBy};
ghost use Rattle.listed_pairs.specs.Within.{AreWithin};

use bit_rows::Row;
use listed_pairs::Pair;
use std::alloc::{AllocError, Global};
use ta_model::Listed;

/// The places in the list, as a row.
pub(crate) fn row_of(alloc: Global, places: &[u32], n: usize) -> Result<Row, AllocError>
    requires { All (λ q. q < n) places.now }
    ensures long { IfOk result (λ row. length row ≡ n) }
    ensures members { IfOk result (λ row. (q : ℕ) → Has row q ↔ Contains places.now q) }
{
    let mut row = Row::zeros(alloc, n)?;
    for q in places {
        row.set(*q as usize);
    }
    Ok(row)
}

/// Whether the pair's state is final and its set has no final state.
pub(crate) fn rejects(left: &Row, right: &Row, pair: &Pair) -> bool
    requires state { pair.now.state < length left.now }
    requires set { length pair.now.set ≡ length right.now }
    ensures { IsTrue result ↔ RejectsBy left.now right.now pair.now }
{
    left.get(pair.state as usize) && !pair.set.meets(right)
}

/// The first pair that rejects.
fn first_by_rows(left: &Row, right: &Row, pairs: &[Pair]) -> Option<u32>
    requires fits { AreWithin (length left.now) (length right.now) pairs.now }
    requires few { length pairs.now < 4294967295 }
    ensures none { IfNone result ((pair : Pair) → Contains pairs.now pair → RejectsBy left.now right.now pair → ⊥) }
    ensures some { IfSome result (IsFirst (IsNth pairs.now (RejectsBy left.now right.now))) }
{
    for at in 0..pairs.len() {
        if rejects(left, right, &pairs[at]) {
            return Some(at as u32 + 1);
        }
    }
    None
}

/// The place of the first pair that rejects.
pub fn first_rejecting(
    alloc: Global,
    a: &Listed,
    b: &Listed,
    pairs: &[Pair],
) -> Result<Option<u32>, AllocError>
    requires fits { All (FitsPair a.now b.now) pairs.now }
    requires few { length pairs.now < 4294967295 }
    ensures none { IfOk result (λ first. IfNone first ((pair : Pair) → Contains pairs.now pair → Rejects a.now b.now pair → ⊥)) }
    ensures some { IfOk result (λ first. IfSome first (IsFirst (IsNth pairs.now (Rejects a.now b.now)))) }
{
    let left = row_of(alloc, a.finals(), a.states().len())?;
    let right = row_of(alloc, b.finals(), b.states().len())?;
    Ok(first_by_rows(&left, &right, pairs))
}
