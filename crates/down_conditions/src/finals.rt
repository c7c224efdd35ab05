//! Which final states no listed pair covers.

ghost use Rattle.std.specs.Prelude.{◌≡◌, ◌<◌, ◌+◌, ◌↔◌, ℕ, All, Contains, IfNone, IfOk, IfSome, length};
ghost use Rattle.tree_definitions.specs.Automaton.{IsFinal};
ghost use Rattle.tree_definitions.specs.Canonical.{canon};
ghost use Rattle.tree_definitions.specs.Cover.{FitsPair};
ghost use Rattle.tree_definitions.specs.DownCert.{IsCoveredDown};
ghost use Rattle.tree_definitions.specs.Relation.{Has, Holds};
ghost use Rattle.down_conditions.specs.Covering.{IsHeld, Shifted};
ghost use Rattle.down_conditions.specs.Filing.{AreByState};
ghost use Rattle.listed_pairs.specs.Within.{AreWithin};
ghost use Rattle.listed_pairs.specs.Places.{IsFirst, IsNth};

use crate::by_state::{is_held, pairs_by_state};
use crate::shift::shifted_pairs;
use bit_matrix::Matrix;
use bit_rows::Row;
use listed_pairs::Pair;
use std::alloc::{AllocError, Global};
use ta_model::Listed;
use trim_ops::RuleIndex;

/// The places in the list, m places further on, as a row of n places.
fn final_row(alloc: Global, places: &[u32], m: usize, n: usize) -> Result<Row, AllocError>
    requires { All (λ q. m + q < n) places.now }
    ensures long { IfOk result (λ row. length row ≡ n) }
    ensures members { IfOk result (λ row. (s : ℕ) → Has row s ↔ Shifted m (Contains places.now) s) }
{
    let mut row = Row::zeros(alloc, n)?;
    for q in places {
        row.set(m + *q as usize);
    }
    Ok(row)
}

/// The first of these states that neither the relation nor a pair covers with the set.
fn first_by_row(
    both: &Matrix,
    pairs: &[Pair],
    by_state: &RuleIndex,
    finals: &[u32],
    row: &Row,
) -> Option<u32>
    requires within { AreWithin (length both.now) (length both.now) pairs.now }
    requires by_state { AreByState pairs.now by_state.now }
    requires index { length by_state.now ≡ length both.now }
    requires finals { All (λ f. f < length both.now) finals.now }
    requires few { length finals.now < 4294967295 }
    requires row { length row.now ≡ length both.now }
    ensures none { IfNone result ((f : ℕ) → Contains finals.now f → IsHeld (Holds both.now) pairs.now f (Has row.now)) }
    ensures some { IfSome result (IsFirst (IsNth finals.now (λ f. IsHeld (Holds both.now) pairs.now f (Has row.now) → ⊥))) }
{
    for at in 0..finals.len() {
        if !is_held(both, pairs, by_state, finals[at] as usize, row) {
            return Some(at as u32 + 1);
        }
    }
    None
}

/// The number, in order of place, of the first final state of A that neither the relation nor a
/// listed pair covers with the final states of B.
pub fn first_uncovered_final(
    alloc: Global,
    a: &Listed,
    b: &Listed,
    both: &Matrix,
    pairs: &[Pair],
) -> Result<Option<u32>, AllocError>
    requires both { length both.now ≡ length a.now.states + length b.now.states }
    requires fits { All (FitsPair a.now b.now) pairs.now }
    requires few { length pairs.now < 4294967295 }
    ensures none { IfOk result (λ first. IfNone first ((f : ℕ) → IsFinal a.now f → IsCoveredDown a.now (Holds both.now) pairs.now f (IsFinal b.now))) }
    ensures some { IfOk result (λ first. IfSome first (IsFirst (IsNth (canon a.now).finals (λ f. IsCoveredDown a.now (Holds both.now) pairs.now f (IsFinal b.now) → ⊥)))) }
{
    let m = a.states().len();
    let n = both.size();
    let ours = a.canon()?;
    let row = final_row(alloc, b.finals(), m, n)?;
    let wides = shifted_pairs(alloc, pairs, m, n)?;
    let by_state = pairs_by_state(alloc, &wides, n)?;
    Ok(first_by_row(both, &wides, &by_state, ours.finals(), &row))
}
