//! Pairs at joint places by their states, and which states and sets they cover.

ghost use Rattle.std.specs.Prelude.{◌≡◌, ◌<◌, ◌↔◌, All, IsTrue, IfOk, length};
ghost use Rattle.tree_definitions.specs.Cover.{Pair};
ghost use Rattle.tree_definitions.specs.Relation.{Has, Holds};
ghost use Rattle.down_conditions.specs.Covering.{IsCoveredElsewhere, IsCoveredIn, IsHeld};
ghost use Rattle.down_conditions.specs.Filing.{AreByState};
ghost use Rattle.listed_pairs.specs.Within.{AreWithin};

use bit_matrix::Matrix;
use bit_rows::Row;
use listed_pairs::Pair;
use std::alloc::{AllocError, Global};
use trim_ops::RuleIndex;

/// For each state, the places of the pairs with it.
pub(crate) fn pairs_by_state(
    alloc: Global,
    pairs: &[Pair],
    states: usize,
) -> Result<RuleIndex, AllocError>
    requires within { All (λ pair. pair.state < states) pairs.now }
    requires few { length pairs.now < 4294967295 }
    ensures index { IfOk result (λ u. AreByState pairs.now u) }
    ensures size { IfOk result (λ u. length u ≡ states) }
{
    let mut index = RuleIndex::new(alloc, states)?;
    for (at, pair) in pairs.iter().enumerate() {
        index.add(pair.state as usize, at as u32)?;
    }
    Ok(index)
}

/// Whether a pair of the list, other than the one at `skip`, has its set below this one.
fn covers_in(both: &Matrix, pairs: &[Pair], list: &[u32], set: &Row, skip: usize) -> bool
    requires within { All (λ pair. length pair.set ≡ length both.now) pairs.now }
    requires list { All (λ k. k < length pairs.now) list.now }
    requires set { length set.now ≡ length both.now }
    ensures { IsTrue result ↔ IsCoveredIn (Holds both.now) pairs.now list.now skip (Has set.now) }
{
    for k in list {
        let place = *k as usize;
        let pair = &pairs[place];
        if place != skip && both.lifted_below(&pair.set, set) {
            return true;
        }
    }
    false
}

/// Whether a pair, other than the one at `skip`, covers the state with the set.
pub(crate) fn is_covered(
    both: &Matrix,
    pairs: &[Pair],
    by_state: &RuleIndex,
    state: usize,
    set: &Row,
    skip: usize,
) -> bool
    requires within { AreWithin (length both.now) (length both.now) pairs.now }
    requires by_state { AreByState pairs.now by_state.now }
    requires index { length by_state.now ≡ length both.now }
    requires state { state < length both.now }
    requires set { length set.now ≡ length both.now }
    ensures { IsTrue result ↔ IsCoveredElsewhere (Holds both.now) pairs.now skip state (Has set.now) }
{
    // The number of places tells the proof that one fits.
    let _places = both.size();
    let mut from = 0;
    while let Some(r) = both.row(state).first_from(from) {
        if covers_in(both, pairs, by_state.at(r), set, skip) {
            return true;
        }
        from = r + 1;
    }
    false
}

/// Whether the state is below a member of the set, or a pair covers it with the set.
pub(crate) fn is_held(
    both: &Matrix,
    pairs: &[Pair],
    by_state: &RuleIndex,
    state: usize,
    set: &Row,
) -> bool
    requires within { AreWithin (length both.now) (length both.now) pairs.now }
    requires by_state { AreByState pairs.now by_state.now }
    requires index { length by_state.now ≡ length both.now }
    requires state { state < length both.now }
    requires set { length set.now ≡ length both.now }
    ensures { IsTrue result ↔ IsHeld (Holds both.now) pairs.now state (Has set.now) }
{
    both.row_meets(state, set) || is_covered(both, pairs, by_state, state, set, pairs.len())
}
