//! Which pairs others cover.

ghost use Rattle.std.specs.Prelude.{◌≡◌, ◌<◌, ◌+◌, All, IfNone, IfOk, IfSome, length};
ghost use Rattle.tree_definitions.specs.Cover.{FitsPair};
ghost use Rattle.tree_definitions.specs.Relation.{Holds};
ghost use Rattle.down_conditions.specs.Covering.{AreApart, AreShifted, IsCovered};
ghost use Rattle.down_conditions.specs.Filing.{AreByState};
ghost use Rattle.listed_pairs.specs.Within.{AreWithin};
ghost use Rattle.listed_pairs.specs.Places.{IsFirst, IsNthAt};

use crate::by_state::{is_covered, pairs_by_state};
use crate::shift::shifted_pairs;
use bit_matrix::Matrix;
use listed_pairs::Pair;
use std::alloc::{AllocError, Global};
use ta_model::Listed;
use trim_ops::RuleIndex;

/// The first pair that one at another place covers, of pairs given at joint places too.
fn first_by_index(
    a: &Listed,
    both: &Matrix,
    pairs: &[Pair],
    wides: &[Pair],
    by_state: &RuleIndex,
) -> Option<u32>
    requires within { AreWithin (length both.now) (length both.now) wides.now }
    requires shifted { AreShifted (length a.now.states) pairs.now wides.now }
    requires few { length pairs.now < 4294967295 }
    requires by_state { AreByState wides.now by_state.now }
    requires index { length by_state.now ≡ length both.now }
    ensures none { IfNone result (AreApart a.now (Holds both.now) pairs.now) }
    ensures some { IfSome result (IsFirst (IsNthAt pairs.now (IsCovered a.now (Holds both.now) pairs.now))) }
{
    for at in 0..wides.len() {
        let wide = &wides[at];
        if is_covered(both, wides, by_state, wide.state as usize, &wide.set, at) {
            return Some(at as u32 + 1);
        }
    }
    None
}

/// The place of the first pair that one at another place covers, by a relation on A's states and
/// then B's.
pub fn first_covered(
    alloc: Global,
    a: &Listed,
    b: &Listed,
    both: &Matrix,
    pairs: &[Pair],
) -> Result<Option<u32>, AllocError>
    requires both { length both.now ≡ length a.now.states + length b.now.states }
    requires fits { All (FitsPair a.now b.now) pairs.now }
    requires few { length pairs.now < 4294967295 }
    ensures none { IfOk result (λ first. IfNone first (AreApart a.now (Holds both.now) pairs.now)) }
    ensures some { IfOk result (λ first. IfSome first (IsFirst (IsNthAt pairs.now (IsCovered a.now (Holds both.now) pairs.now)))) }
{
    let m = a.states().len();
    let n = both.size();
    let wides = shifted_pairs(alloc, pairs, m, n)?;
    let by_state = pairs_by_state(alloc, &wides, n)?;
    Ok(first_by_index(a, both, pairs, &wides, &by_state))
}
