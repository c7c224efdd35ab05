//! Which entries the pairs of earlier ones cover.

ghost use Rattle.std.specs.Prelude.{◌≡◌, ◌<◌, ◌↔◌, ℕ, All, IfNone, IfOk, IfSome, IsTrue, length};
ghost use Rattle.tree_definitions.specs.Cover.{CoversUp};
ghost use Rattle.tree_definitions.specs.Relation.{Has, Holds, IsAt};
ghost use Rattle.tree_definitions.specs.UpTrail.{UpEntry as UpEntrySpec};
ghost use Rattle.listed_pairs.specs.Places.{IsFirst, IsNthAt};
ghost use Rattle.up_conditions.specs.Trailing.{AreEntriesWithin, AreFiledBefore, IsCoveredBefore, IsCoveredEntry, IsCoveredFrom};

use crate::entry::pair_of;
use bit_matrix::Matrix;
use bit_rows::Row;
use listed_pairs::UpEntry;
use std::alloc::{AllocError, Global};
use trim_ops::RuleIndex;

/// Whether the pair of an entry in the list has its set below this one.
fn covers_from(right: &Matrix, entries: &[UpEntry], list: &[u32], set: &Row) -> bool
    requires within { All (λ e. length e.pair.set ≡ length right.now) entries.now }
    requires list { All (λ k. k < length entries.now) list.now }
    requires set { length set.now ≡ length right.now }
    ensures { IsTrue result ↔ IsCoveredFrom (Holds right.now) entries.now list.now (Has set.now) }
{
    for k in list {
        let pair = pair_of(&entries[*k as usize]);
        if right.lifted_below(&pair.set, set) {
            return true;
        }
    }
    false
}

/// Whether the pair of an entry before this place, by the index of those, covers the state with
/// the set.
fn is_covered_before(
    left: &Matrix,
    right: &Matrix,
    entries: &[UpEntry],
    by_state: &RuleIndex,
    at: usize,
    state: usize,
    set: &Row,
) -> bool
    requires within { AreEntriesWithin (length left.now) (length right.now) entries.now }
    requires by_state { AreFiledBefore entries.now (length left.now) at by_state.now }
    requires at { at < length entries.now }
    requires state { state < length left.now }
    requires set { length set.now ≡ length right.now }
    ensures { IsTrue result ↔ IsCoveredBefore (Holds left.now) (Holds right.now) entries.now at state (Has set.now) }
{
    // The number of states tells the proof that a place fits.
    let _states = left.size();
    let mut from = 0;
    while let Some(r) = left.row(state).first_from(from) {
        if covers_from(right, entries, by_state.at(r), set) {
            return true;
        }
        from = r + 1;
    }
    false
}

/// The place of the first entry whose pair that of an earlier entry covers, by relations of A and
/// of B.
pub fn first_covered_entry(
    alloc: Global,
    left: &Matrix,
    right: &Matrix,
    entries: &[UpEntry],
) -> Result<Option<u32>, AllocError>
    requires within { AreEntriesWithin (length left.now) (length right.now) entries.now }
    requires few { length entries.now < 4294967295 }
    ensures none { IfOk result (λ first. IfNone first ((i j : ℕ) (later earlier : UpEntrySpec) → j < i → IsAt entries.now i later → IsAt entries.now j earlier
        → CoversUp (Holds left.now) (Holds right.now) earlier.pair later.pair.state (Has later.pair.set) → ⊥)) }
    ensures some { IfOk result (λ first. IfSome first (IsFirst (IsNthAt entries.now (IsCoveredEntry (Holds left.now) (Holds right.now) entries.now)))) }
{
    let mut by_state = RuleIndex::new(alloc, left.size())?;
    for at in 0..entries.len() {
        let pair = pair_of(&entries[at]);
        let state = pair.state as usize;
        if is_covered_before(left, right, entries, &by_state, at, state, &pair.set) {
            return Ok(Some(at as u32 + 1));
        }
        by_state.add(state, at as u32)?;
    }
    Ok(None)
}
