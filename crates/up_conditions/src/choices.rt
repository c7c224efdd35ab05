//! Steps of B from listed pairs for the children of a rule, chosen one child after the other.
//!
//! Beside the choice so far stand the places of B's rules whose first children are in the chosen
//! sets.

ghost use Rattle.std.specs.Prelude.{◌≡◌, ◌<◌, ◌+◌, ◌^◌, ◌↔◌, ℕ, List, All, Contains, IsTrue, IfOk, length};
ghost use Rattle.tree_definitions.specs.Tree.{Symbol};
ghost use Rattle.tree_definitions.specs.Cover.{Post};
ghost use Rattle.tree_definitions.specs.Relation.{Has, Holds, IsAt, Row};
ghost use Rattle.tree_definitions.specs.UpCert.{IsCoveredUp};
ghost use Rattle.trim_ops.specs.Marking as marking;
ghost use Rattle.listed_pairs.specs.Within.{AreWithin};
ghost use Rattle.up_conditions.specs.Choosing.{AreOpen, HasKidIn, IsChoiceCovered, LeadsTo};
ghost use Rattle.up_conditions.specs.Listed.{AreByState};
ghost use Rattle.up_conditions.specs.Stepping.{AreListsOf, AreUnder};

use crate::by_state::is_covered;
use crate::step_index::StepIndex;
use bit_matrix::Matrix;
use bit_rows::Row;
use listed_pairs::Pair;
use std::alloc::{AllocError, Global};
use ta_model::{Listed, Rule};
use trim_ops::RuleIndex;

/// Whether the rule has a child at the place, in the set.
fn has_kid_in(rule: &Rule, place: usize, set: &Row) -> bool
    requires { marking.IsWithin (length set.now) rule.now }
    ensures { IsTrue result ↔ ((q : ℕ) × IsAt rule.now.kids place q × Has set.now q) }
{
    let kids = rule.kids.as_slice();
    if place >= kids.len() {
        return false;
    }
    set.get(kids[place] as usize)
}

/// The rules of the list whose child at the place is in the set.
fn with_kid_in(
    alloc: Global,
    rules: &[Rule],
    places: &[u32],
    place: usize,
    set: &Row,
) -> Result<Vec<u32>, AllocError>
    requires rules { marking.AreWithin (length set.now) rules.now }
    requires places { All (λ r. r < length rules.now) places.now }
    ensures within { IfOk result (λ v. All (λ r. r < length rules.now) v.items) }
    ensures members { IfOk result (λ v. (r : ℕ) → Contains v.items r ↔ (Contains places.now r × HasKidIn rules.now place set.now r)) }
{
    let mut found = Vec::new(alloc);
    for r in places {
        if has_kid_in(&rules[*r as usize], place, set) {
            found.push(*r)?;
        }
    }
    Ok(found)
}

/// The parents of the rules of the list that have so many children.
pub(crate) fn parents_at_end(
    alloc: Global,
    states: usize,
    rules: &[Rule],
    places: &[u32],
    count: usize,
) -> Result<Row, AllocError>
    requires rules { marking.AreWithin states rules.now }
    requires places { All (λ r. r < length rules.now) places.now }
    ensures long { IfOk result (λ row. length row ≡ states) }
    ensures members { IfOk result (λ row. (s : ℕ) → Has row s ↔ ((r : ℕ) × Contains places.now r × LeadsTo rules.now count s r)) }
{
    let mut row = Row::zeros(alloc, states)?;
    for r in places {
        let rule = &rules[*r as usize];
        if rule.kids.len() == count {
            row.set(rule.parent as usize);
        }
    }
    Ok(row)
}

/// Whether a listed pair covers the step from the whole choice to the parent.
fn end_is_covered(
    alloc: Global,
    b: &Listed,
    left: &Matrix,
    right: &Matrix,
    pairs: &[Pair],
    by_state: &RuleIndex,
    parent: u32,
    count: usize,
    places: &[u32],
) -> Result<bool, AllocError>
    requires right { length right.now ≡ length b.now.states }
    requires within { AreWithin (length left.now) (length right.now) pairs.now }
    requires by_state { AreByState pairs.now by_state.now }
    requires index { length by_state.now ≡ length left.now }
    requires parent { parent < length left.now }
    requires places { All (λ r. r < length b.now.rules) places.now }
    ensures { IfOk result (λ yes. (a : Symbol) (sets : List Row) → length sets ≡ count → AreOpen b.now a sets places.now
        → IsTrue yes ↔ IsCoveredUp (Holds left.now) (Holds right.now) pairs.now parent (Post b.now a sets)) }
{
    let row = parents_at_end(alloc, b.states().len(), b.rules(), places, count)?;
    let none = pairs.len();
    Ok(is_covered(left, right, pairs, by_state, parent as usize, &row, none))
}

/// The rules of the list, which are those under the symbol before a child is chosen, whose next
/// child is in the set.
pub(crate) fn with_next_kid_in(
    alloc: Global,
    b: &Listed,
    steps: &StepIndex,
    symbol: u32,
    places: &[u32],
    count: usize,
    set: &Row,
) -> Result<Vec<u32>, AllocError>
    requires steps { AreListsOf b.now steps.now }
    requires set { length set.now ≡ length b.now.states }
    requires places { All (λ r. r < length b.now.rules) places.now }
    requires start { count ≡ 0 → AreUnder b.now.rules symbol places.now }
    ensures within { IfOk result (λ v. All (λ r. r < length b.now.rules) v.items) }
    ensures members { IfOk result (λ v. (r : ℕ) → Contains v.items r ↔ (Contains places.now r × HasKidIn b.now.rules count set.now r)) }
{
    if count == 0 {
        return steps.under_from(alloc, b, symbol, set);
    }
    with_kid_in(alloc, b.rules(), places, count, set)
}

/// Whether listed pairs cover each step to the parent that goes on from the choice for so many
/// children, with listed pairs for these other ones.
pub(crate) fn choices_are_covered(
    alloc: Global,
    b: &Listed,
    steps: &StepIndex,
    left: &Matrix,
    right: &Matrix,
    pairs: &[Pair],
    by_state: &RuleIndex,
    symbol: u32,
    parent: u32,
    count: usize,
    kids: &[u32],
    places: &[u32],
) -> Result<bool, AllocError>
    requires steps { AreListsOf b.now steps.now }
    requires right { length right.now ≡ length b.now.states }
    requires within { AreWithin (length left.now) (length right.now) pairs.now }
    requires by_state { AreByState pairs.now by_state.now }
    requires index { length by_state.now ≡ length left.now }
    requires parent { parent < length left.now }
    requires kids { All (λ q. q < length left.now) kids.now }
    requires count { count + length kids.now < 2 ^ 64 }
    requires places { All (λ r. r < length b.now.rules) places.now }
    requires start { count ≡ 0 → AreUnder b.now.rules symbol places.now }
    ensures { IfOk result (λ yes. (a : Symbol) (sets : List Row) → length sets ≡ count → AreOpen b.now a sets places.now
        → IsTrue yes ↔ IsChoiceCovered b.now (Holds left.now) (Holds right.now) pairs.now a parent sets kids.now) }
{
    let Some((kid, others)) = kids.split_first() else {
        return end_is_covered(
            alloc, b, left, right, pairs, by_state, parent, count, places,
        );
    };
    let list = by_state.at(*kid as usize);
    for k in list {
        let pair = &pairs[*k as usize];
        let next = with_next_kid_in(alloc, b, steps, symbol, places, count, &pair.set)?;
        match choices_are_covered(
            alloc,
            b,
            steps,
            left,
            right,
            pairs,
            by_state,
            symbol,
            parent,
            count + 1,
            others,
            &next,
        ) {
            Ok(true) => {}
            Ok(false) => return Ok(false),
            Err(_) => return Err(AllocError),
        }
    }
    Ok(true)
}
