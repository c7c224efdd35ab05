//! Which pairs others cover.

ghost use Rattle.std.specs.Prelude.{◌≡◌, ◌≢◌, ◌<◌, ℕ, IfNone, IfOk, IfSome, length};
ghost use Rattle.tree_definitions.specs.Cover.{Pair, CoversUp};
ghost use Rattle.tree_definitions.specs.Relation.{Has, Holds, IsAt};
ghost use Rattle.up_conditions.specs.Listed.{AreByState, IsCovered};
ghost use Rattle.listed_pairs.specs.Within.{AreWithin};
ghost use Rattle.listed_pairs.specs.Places.{IsFirst, IsNthAt};

use crate::by_state::{is_covered, pairs_by_state};
use bit_matrix::Matrix;
use listed_pairs::Pair;
use std::alloc::{AllocError, Global};
use trim_ops::RuleIndex;

/// The first pair that the pair at another place covers.
fn first_by_index(
    left: &Matrix,
    right: &Matrix,
    pairs: &[Pair],
    by_state: &RuleIndex,
) -> Option<u32>
    requires within { AreWithin (length left.now) (length right.now) pairs.now }
    requires few { length pairs.now < 4294967295 }
    requires by_state { AreByState pairs.now by_state.now }
    requires index { length by_state.now ≡ length left.now }
    ensures none { IfNone result ((i j : ℕ) (x y : Pair) → i ≢ j → IsAt pairs.now i x → IsAt pairs.now j y → CoversUp (Holds left.now) (Holds right.now) x y.state (Has y.set) → ⊥) }
    ensures some { IfSome result (IsFirst (IsNthAt pairs.now (IsCovered (Holds left.now) (Holds right.now) pairs.now))) }
{
    for at in 0..pairs.len() {
        let pair = &pairs[at];
        if is_covered(
            left,
            right,
            pairs,
            by_state,
            pair.state as usize,
            &pair.set,
            at,
        ) {
            return Some(at as u32 + 1);
        }
    }
    None
}

/// The place of the first pair that the pair at another place covers, by relations of A and of B.
pub fn first_covered(
    alloc: Global,
    left: &Matrix,
    right: &Matrix,
    pairs: &[Pair],
) -> Result<Option<u32>, AllocError>
    requires within { AreWithin (length left.now) (length right.now) pairs.now }
    requires few { length pairs.now < 4294967295 }
    ensures none { IfOk result (λ first. IfNone first ((i j : ℕ) (x y : Pair) → i ≢ j → IsAt pairs.now i x → IsAt pairs.now j y → CoversUp (Holds left.now) (Holds right.now) x y.state (Has y.set) → ⊥)) }
    ensures some { IfOk result (λ first. IfSome first (IsFirst (IsNthAt pairs.now (IsCovered (Holds left.now) (Holds right.now) pairs.now)))) }
{
    let by_state = pairs_by_state(alloc, pairs, left.size())?;
    Ok(first_by_index(left, right, pairs, &by_state))
}
