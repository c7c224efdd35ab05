//! Which rules have steps that no listed pair covers.

ghost use Rattle.std.specs.Prelude.{◌≡◌, ◌<◌, ◌↔◌, [], ◌∷◌, ℕ, List, Bool, true, false, All, IsTrue, IfNone, IfOk, IfSome, length};
ghost use Rattle.tree_definitions.specs.Tree.{Symbol};
ghost use Rattle.tree_definitions.specs.Automaton.{HasRule, Rule};
ghost use Rattle.tree_definitions.specs.Canonical.{canon};
ghost use Rattle.tree_definitions.specs.Cover.{FitsPair, Post};
ghost use Rattle.tree_definitions.specs.Relation.{Holds, Row};
ghost use Rattle.tree_definitions.specs.UpCert.{AreListed, IsCoveredUp};
ghost use Rattle.trim_ops.specs.Marking as marking;
ghost use Rattle.up_conditions.specs.Covering.{AreLabelled, IsOfPart, IsPartCovered, IsRuleCovered, IsUncoveredLeaf, IsUncoveredPart, IsUncoveredStep};
ghost use Rattle.up_conditions.specs.Listed.{AreByState};
ghost use Rattle.up_conditions.specs.Stepping.{AreListsOf};
ghost use Rattle.listed_pairs.specs.Within.{AreWithin};
ghost use Rattle.listed_pairs.specs.Places.{IsFirst, IsNth};

use crate::by_state::pairs_by_state;
use crate::choices::choices_are_covered;
use crate::step_index::StepIndex;
use bit_matrix::Matrix;
use listed_pairs::Pair;
use std::alloc::{AllocError, Global};
use ta_model::{Listed, Rule, Symbol};
use trim_ops::RuleIndex;

/// Whether listed pairs cover each step of the rule from listed pairs for its children.
fn rule_is_covered(
    alloc: Global,
    a: &Listed,
    b: &Listed,
    steps: &StepIndex,
    left: &Matrix,
    right: &Matrix,
    pairs: &[Pair],
    by_state: &RuleIndex,
    rule: &Rule,
) -> Result<bool, AllocError>
    requires steps { AreListsOf b.now steps.now }
    requires right { length right.now ≡ length b.now.states }
    requires within { AreWithin (length left.now) (length right.now) pairs.now }
    requires by_state { AreByState pairs.now by_state.now }
    requires index { length by_state.now ≡ length left.now }
    requires rule { marking.IsWithin (length left.now) rule.now }
    requires label { rule.now.symbol < length a.now.symbols }
    ensures { IfOk result (λ yes. IsTrue yes ↔ IsRuleCovered a.now b.now (Holds left.now) (Holds right.now) pairs.now rule.now) }
{
    let symbol = steps.place_of(b, &a.symbols()[rule.symbol as usize]);
    let places = steps.under(b, symbol);
    let kids = rule.kids.as_slice();
    // The number of children tells the proof that their places fit.
    let _count = kids.len();
    choices_are_covered(
        alloc,
        b,
        steps,
        left,
        right,
        pairs,
        by_state,
        symbol,
        rule.parent,
        0,
        kids,
        places,
    )
}

/// Whether the rule has no children, where that is asked, and else whether it has some.
fn is_of_part(rule: &Rule, leaves: bool) -> bool
    ensures { IsTrue result ↔ IsOfPart leaves rule.now }
{
    let is_leaf = rule.kids.is_empty();
    if leaves { is_leaf } else { !is_leaf }
}

/// Whether the rule is covered, if it is one without children or, as is asked, one with some.
fn part_is_covered(
    alloc: Global,
    leaves: bool,
    a: &Listed,
    b: &Listed,
    steps: &StepIndex,
    left: &Matrix,
    right: &Matrix,
    pairs: &[Pair],
    by_state: &RuleIndex,
    rule: &Rule,
) -> Result<bool, AllocError>
    requires steps { AreListsOf b.now steps.now }
    requires right { length right.now ≡ length b.now.states }
    requires within { AreWithin (length left.now) (length right.now) pairs.now }
    requires by_state { AreByState pairs.now by_state.now }
    requires index { length by_state.now ≡ length left.now }
    requires rule { marking.IsWithin (length left.now) rule.now }
    requires label { rule.now.symbol < length a.now.symbols }
    ensures { IfOk result (λ yes. IsTrue yes ↔ IsPartCovered leaves a.now b.now (Holds left.now) (Holds right.now) pairs.now rule.now) }
{
    if !is_of_part(rule, leaves) {
        return Ok(true);
    }
    rule_is_covered(alloc, a, b, steps, left, right, pairs, by_state, rule)
}

/// The first rule without children, or with some, that isn't covered.
fn first_of_part(
    alloc: Global,
    leaves: bool,
    a: &Listed,
    rules: &[Rule],
    b: &Listed,
    steps: &StepIndex,
    left: &Matrix,
    right: &Matrix,
    pairs: &[Pair],
    by_state: &RuleIndex,
) -> Result<Option<u32>, AllocError>
    requires steps { AreListsOf b.now steps.now }
    requires right { length right.now ≡ length b.now.states }
    requires within { AreWithin (length left.now) (length right.now) pairs.now }
    requires by_state { AreByState pairs.now by_state.now }
    requires index { length by_state.now ≡ length left.now }
    requires rules { marking.AreWithin (length left.now) rules.now }
    requires labels { AreLabelled (length a.now.symbols) rules.now }
    requires few { length rules.now < 4294967295 }
    ensures none { IfOk result (λ first. IfNone first (All (IsPartCovered leaves a.now b.now (Holds left.now) (Holds right.now) pairs.now) rules.now)) }
    ensures some { IfOk result (λ first. IfSome first (IsFirst (IsNth rules.now (IsUncoveredPart leaves a.now b.now (Holds left.now) (Holds right.now) pairs.now)))) }
{
    for i in 0..rules.len() {
        let rule = &rules[i];
        match part_is_covered(
            alloc, leaves, a, b, steps, left, right, pairs, by_state, rule,
        ) {
            Ok(true) => {}
            Ok(false) => return Ok(Some(i as u32 + 1)),
            Err(_) => return Err(AllocError),
        }
    }
    Ok(None)
}

/// The place, among the rules of the first automaton's canonical form, of the first one without
/// children, or with some, that isn't covered.
fn first_uncovered(
    alloc: Global,
    leaves: bool,
    a: &Listed,
    b: &Listed,
    left: &Matrix,
    right: &Matrix,
    pairs: &[Pair],
) -> Result<Option<u32>, AllocError>
    requires left { length left.now ≡ length a.now.states }
    requires right { length right.now ≡ length b.now.states }
    requires fits { All (FitsPair a.now b.now) pairs.now }
    requires few { length pairs.now < 4294967295 }
    ensures none { IfOk result (λ first. IfNone first (All (IsPartCovered leaves (canon a.now) b.now (Holds left.now) (Holds right.now) pairs.now) (canon a.now).rules)) }
    ensures some { IfOk result (λ first. IfSome first (IsFirst (IsNth (canon a.now).rules (IsUncoveredPart leaves (canon a.now) b.now (Holds left.now) (Holds right.now) pairs.now)))) }
{
    let ours = a.canon()?;
    let steps = StepIndex::of(alloc, b)?;
    let by_state = pairs_by_state(alloc, pairs, left.size())?;
    first_of_part(
        alloc,
        leaves,
        &ours,
        ours.rules(),
        b,
        &steps,
        left,
        right,
        pairs,
        &by_state,
    )
}

/// The place, among the rules of the first automaton's canonical form, of the first rule without
/// children whose step no listed pair covers.
pub fn first_uncovered_leaf(
    alloc: Global,
    a: &Listed,
    b: &Listed,
    left: &Matrix,
    right: &Matrix,
    pairs: &[Pair],
) -> Result<Option<u32>, AllocError>
    requires left { length left.now ≡ length a.now.states }
    requires right { length right.now ≡ length b.now.states }
    requires fits { All (FitsPair a.now b.now) pairs.now }
    requires few { length pairs.now < 4294967295 }
    ensures none { IfOk result (λ first. IfNone first ((x : Symbol) (p : ℕ) → HasRule a.now x [] p → IsCoveredUp (Holds left.now) (Holds right.now) pairs.now p (Post b.now x []))) }
    ensures some { IfOk result (λ first. IfSome first (IsFirst (IsNth (canon a.now).rules (IsUncoveredLeaf (canon a.now) b.now (Holds left.now) (Holds right.now) pairs.now)))) }
{
    first_uncovered(alloc, true, a, b, left, right, pairs)
}

/// The place, among the rules of the first automaton's canonical form, of the first rule with
/// children that has a step from listed pairs which no listed pair covers.
pub fn first_uncovered_rule(
    alloc: Global,
    a: &Listed,
    b: &Listed,
    left: &Matrix,
    right: &Matrix,
    pairs: &[Pair],
) -> Result<Option<u32>, AllocError>
    requires left { length left.now ≡ length a.now.states }
    requires right { length right.now ≡ length b.now.states }
    requires fits { All (FitsPair a.now b.now) pairs.now }
    requires few { length pairs.now < 4294967295 }
    ensures none { IfOk result (λ first. IfNone first ((x : Symbol) (q : ℕ) (qs : List ℕ) (p : ℕ) → HasRule a.now x (q ∷ qs) p → (sets : List Row) → AreListed pairs.now (q ∷ qs) sets → IsCoveredUp (Holds left.now) (Holds right.now) pairs.now p (Post b.now x sets))) }
    ensures some { IfOk result (λ first. IfSome first (IsFirst (IsNth (canon a.now).rules (IsUncoveredStep (canon a.now) b.now (Holds left.now) (Holds right.now) pairs.now)))) }
{
    first_uncovered(alloc, false, a, b, left, right, pairs)
}
