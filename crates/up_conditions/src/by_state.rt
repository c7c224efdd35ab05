//! Pairs by their states, and which of them cover a state and a set.

ghost use Rattle.std.specs.Prelude.{◌≡◌, ◌≢◌, ◌<◌, ◌↔◌, ℕ, All, Contains, IsTrue, IfOk, length};
ghost use Rattle.tree_definitions.specs.Cover.{Pair};
ghost use Rattle.tree_definitions.specs.Relation.{Below, Has, Holds, IsAt};
ghost use Rattle.up_conditions.specs.Listed.{AreByState, IsCoveredElsewhere, IsCoveredIn};
ghost use Rattle.listed_pairs.specs.Within.{AreWithin};

use bit_matrix::Matrix;
use bit_rows::Row;
use listed_pairs::Pair;
use std::alloc::{AllocError, Global};
use trim_ops::RuleIndex;

/// For each state, the places of the pairs with it.
pub(crate) fn pairs_by_state(
    alloc: Global,
    pairs: &[Pair],
    states: usize,
) -> Result<RuleIndex, AllocError>
    requires within { All (λ pair. pair.state < states) pairs.now }
    requires few { length pairs.now < 4294967295 }
    ensures index { IfOk result (λ u. AreByState pairs.now u) }
    ensures size { IfOk result (λ u. length u ≡ states) }
{
    let mut index = RuleIndex::new(alloc, states)?;
    for (at, pair) in pairs.iter().enumerate() {
        index.add(pair.state as usize, at as u32)?;
    }
    Ok(index)
}

/// Whether a pair of the list, other than the one at `skip`, has its set below this one.
fn covers_in(right: &Matrix, pairs: &[Pair], list: &[u32], set: &Row, skip: usize) -> bool
    requires within { All (λ pair. length pair.set ≡ length right.now) pairs.now }
    requires list { All (λ k. k < length pairs.now) list.now }
    requires set { length set.now ≡ length right.now }
    ensures { IsTrue result ↔ IsCoveredIn (Holds right.now) pairs.now list.now skip (Has set.now) }
{
    for k in list {
        let place = *k as usize;
        let pair = &pairs[place];
        if place != skip && right.lifted_below(&pair.set, set) {
            return true;
        }
    }
    false
}

/// Whether a pair, other than the one at `skip`, covers the state with the set.
pub(crate) fn is_covered(
    left: &Matrix,
    right: &Matrix,
    pairs: &[Pair],
    by_state: &RuleIndex,
    state: usize,
    set: &Row,
    skip: usize,
) -> bool
    requires within { AreWithin (length left.now) (length right.now) pairs.now }
    requires by_state { AreByState pairs.now by_state.now }
    requires index { length by_state.now ≡ length left.now }
    requires state { state < length left.now }
    requires set { length set.now ≡ length right.now }
    ensures { IsTrue result ↔ IsCoveredElsewhere (Holds left.now) (Holds right.now) pairs.now skip state (Has set.now) }
{
    // The number of states tells the proof that a place fits.
    let _states = left.size();
    let mut from = 0;
    while let Some(r) = left.row(state).first_from(from) {
        if covers_in(right, pairs, by_state.at(r), set, skip) {
            return true;
        }
        from = r + 1;
    }
    false
}
