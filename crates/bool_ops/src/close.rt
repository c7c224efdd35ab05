//! The pairs of states that one tree reaches, and the pairs of rules between them.

ghost use Rattle.std.specs.Prelude.{◌≡◌, ◌≢◌, ◌↔◌, ◌<◌, ◌⊎◌, ◌≤◌, ◌^◌, ℕ, [], IfOk, IsErrOf, IsTrue, All, AllPairs, Contains, length};
ghost use Rattle.tree_definitions.specs.Automaton.{Rule as RuleSpec};
ghost use Rattle.tree_definitions.specs.Relation.{IsAt};
ghost use Rattle.bool_ops.specs.Closing.{AddsBelow, AreAlike, AreHeld, Grows, HasTooMany, IsClosed, Settled, SettledWith, both};
ghost use Rattle.bool_ops.specs.Filing.{HasSlots, IsFiled};
ghost use Rattle.bool_ops.specs.Paths.{IsByKids};
ghost use Rattle.trim_ops.specs.Marking.{AreWithin, IsByChild};

use crate::by_place::ByPlace;
use crate::error::OpError;
use crate::pairs::{Both, Pairs};
use crate::reached::Reached;
use std::alloc::AllocError;
use ta_model::Rule;
use trim_ops::RuleIndex;

/// The greatest number of states of a product.
pub(crate) const MOST_STATES: usize = 1_000_000;

/// The greatest number of rules of a product.
pub(crate) const MOST_RULES: usize = 2_000_000;

/// Whether both rules have the same symbol and as many children.
fn are_alike(left: &Rule, right: &Rule) -> bool
    ensures { IsTrue result ↔ AreAlike left.now right.now }
{
    left.symbol == right.symbol && left.kids.len() == right.kids.len()
}

/// Whether the children are pair by pair in the list.
fn are_held(pairs: &Reached, left: &[u32], right: &[u32]) -> bool
    requires { length left.now ≡ length right.now }
    ensures { IsTrue result ↔ AreHeld pairs.now left.now right.now }
{
    for (i, p) in left.iter().enumerate() {
        let x = Both {
            left: *p,
            right: right[i],
        };
        if !pairs.holds(x) {
            return false;
        }
    }
    true
}

/// Adds the pair of rules, unless there are more than `MOST_RULES`.
fn add_rules(list: &mut Pairs, x: Both) -> Result<(), AllocError>
    ensures { IfOk result (λ _. AddsBelow list.old 2000000 x list.new) }
{
    if MOST_RULES < list.len() {
        return Ok(());
    }
    list.add(x)
}

/// Adds the pair of states, unless there are more than `MOST_STATES`.
fn add_state(list: &mut Reached, x: Both) -> Result<(), AllocError>
    ensures { IfOk result (λ _. AddsBelow list.old 1000000 x list.new) }
{
    if MOST_STATES < list.len() {
        return Ok(());
    }
    list.add(x)
}

/// Takes the parents of two rules, and the rules, into the lists, if they are alike and their
/// children are there.
fn examine(
    ours: &[Rule],
    theirs: &[Rule],
    r: u32,
    s: u32,
    pairs: &mut Reached,
    found: &mut Pairs,
) -> Result<(), AllocError>
    requires left { r < length ours.now }
    requires right { s < length theirs.now }
    ensures grows { IfOk result (λ _. Grows ours.now theirs.now pairs.old found.old pairs.new found.new) }
    ensures settled { IfOk result (λ _. Settled ours.now theirs.now pairs.old pairs.new found.new r s) }
{
    let left = &ours[r as usize];
    let right = &theirs[s as usize];
    if !are_alike(left, right) {
        return Ok(());
    }
    if !are_held(pairs, left.kids.as_slice(), right.kids.as_slice()) {
        return Ok(());
    }
    let parents = Both {
        left: left.parent,
        right: right.parent,
    };
    add_state(pairs, parents)?;
    add_rules(found, Both { left: r, right: s })
}

/// Examines rule r with each rule of the list.
fn examine_each(
    ours: &[Rule],
    theirs: &[Rule],
    r: u32,
    list: &[u32],
    pairs: &mut Reached,
    found: &mut Pairs,
) -> Result<(), AllocError>
    requires left { r < length ours.now }
    requires list { All (λ s. s < length theirs.now) list.now }
    ensures grows { IfOk result (λ _. Grows ours.now theirs.now pairs.old found.old pairs.new found.new) }
    ensures settled { IfOk result (λ _. (s : ℕ) → Contains list.now s → Settled ours.now theirs.now pairs.old pairs.new found.new r s) }
{
    for s in list {
        examine(ours, theirs, r, *s, pairs, found)?;
    }
    Ok(())
}

/// Whether to look up the tuples of partners of the children, with one state at the place, takes fewer
/// steps than there are rules to examine.
fn are_fewer_tuples(pairs: &Reached, kids: &[u32], place: usize, rules: usize) -> bool
    ensures { IsTrue result → 2 ≤ length kids.now }
{
    if kids.len() < 2 || rules <= kids.len() {
        return false;
    }
    let mut tuples: usize = 1;
    let mut steps: usize = 0;
    for (i, k) in kids.iter().enumerate() {
        if i != place {
            tuples = tuples.saturating_mul(pairs.partners_of(*k).len());
        }
        steps = steps.saturating_add(tuples);
    }
    steps < rules
}

/// Examines rule r with each rule that has the pair's right state where r has its left state, and
/// partners of its other children.
fn explore_rule(
    ours: &[Rule],
    theirs: &[Rule],
    by_place: &ByPlace,
    r: u32,
    x: Both,
    pairs: &mut Reached,
    found: &mut Pairs,
) -> Result<(), AllocError>
    requires left { r < length ours.now }
    requires distinct { AllPairs ◌≢◌ by_place.now.slots }
    requires slots { HasSlots theirs.now by_place.now.slots }
    requires filed { IsFiled theirs.now by_place.now.slots by_place.now.lists }
    requires by_kids { IsByKids theirs.now by_place.now.by_kids.nodes by_place.now.by_kids.lists }
    ensures grows { IfOk result (λ _. Grows ours.now theirs.now pairs.old found.old pairs.new found.new) }
    ensures settled { IfOk result (λ _. SettledWith ours.now theirs.now pairs.old pairs.new found.new r x) }
{
    let left = &ours[r as usize];
    for (i, k) in left.kids.as_slice().iter().enumerate() {
        if *k != x.left {
            continue;
        }
        let list = by_place.at(left.symbol, i, x.right);
        if are_fewer_tuples(pairs, left.kids.as_slice(), i, list.len()) {
            let matching = by_place.by_kids.matching(pairs, left, i, x.right)?;
            examine_each(ours, theirs, r, &matching, pairs, found)?;
            continue;
        }
        examine_each(ours, theirs, r, list, pairs, found)?;
    }
    Ok(())
}

/// Examines the rules that have the pair among their children.
fn explore(
    ours: &[Rule],
    theirs: &[Rule],
    by_child: &RuleIndex,
    by_place: &ByPlace,
    x: Both,
    pairs: &mut Reached,
    found: &mut Pairs,
) -> Result<(), AllocError>
    requires state { x.left < length by_child.now }
    requires by_child { IsByChild ours.now by_child.now }
    requires distinct { AllPairs ◌≢◌ by_place.now.slots }
    requires slots { HasSlots theirs.now by_place.now.slots }
    requires filed { IsFiled theirs.now by_place.now.slots by_place.now.lists }
    requires by_kids { IsByKids theirs.now by_place.now.by_kids.nodes by_place.now.by_kids.lists }
    ensures grows { IfOk result (λ _. Grows ours.now theirs.now pairs.old found.old pairs.new found.new) }
    ensures settled { IfOk result (λ _. (r : ℕ) → SettledWith ours.now theirs.now pairs.old pairs.new found.new r x) }
{
    for r in by_child.at(x.left as usize) {
        explore_rule(ours, theirs, by_place, *r, x, pairs, found)?;
    }
    Ok(())
}

/// Examines the leaf rules.
fn start(
    ours: &[Rule],
    theirs: &[Rule],
    by_place: &ByPlace,
    pairs: &mut Reached,
    found: &mut Pairs,
) -> Result<(), AllocError>
    requires few { length ours.now < 2 ^ 32 }
    requires distinct { AllPairs ◌≢◌ by_place.now.slots }
    requires slots { HasSlots theirs.now by_place.now.slots }
    requires filed { IsFiled theirs.now by_place.now.slots by_place.now.lists }
    ensures grows { IfOk result (λ _. Grows ours.now theirs.now pairs.old found.old pairs.new found.new) }
    ensures settled { IfOk result (λ _. (r s : ℕ) (left right : RuleSpec) → IsAt ours.now r left → IsAt theirs.now s right
        → AreAlike left right → left.kids ≡ [] → Settled ours.now theirs.now pairs.old pairs.new found.new r s) }
{
    for (r, left) in ours.iter().enumerate() {
        if !left.kids.is_empty() {
            continue;
        }
        let list = by_place.at(left.symbol, 0, 0);
        examine_each(ours, theirs, r as u32, list, pairs, found)?;
    }
    Ok(())
}

/// Closes the pairs under the rules of both. Each pair is explored once, in the order in which they
/// came.
pub(crate) fn close(
    ours: &[Rule],
    theirs: &[Rule],
    by_child: &RuleIndex,
    by_place: &ByPlace,
    pairs: &mut Reached,
    found: &mut Pairs,
) -> Result<(), OpError>
    requires few { length ours.now < 2 ^ 32 }
    requires within { AreWithin (length by_child.now) ours.now }
    requires by_child { IsByChild ours.now by_child.now }
    requires distinct { AllPairs ◌≢◌ by_place.now.slots }
    requires slots { HasSlots theirs.now by_place.now.slots }
    requires filed { IsFiled theirs.now by_place.now.slots by_place.now.lists }
    requires by_kids { IsByKids theirs.now by_place.now.by_kids.nodes by_place.now.by_kids.lists }
    requires no_pairs { pairs.old ≡ [] }
    requires none_found { found.old ≡ [] }
    ensures closed { IfOk result (λ _. IsClosed ours.now theirs.now pairs.new found.new) }
    ensures states { IsErrOf result OpError.TooManyStates → HasTooMany ours.now theirs.now pairs.new }
    ensures rules { IsErrOf result OpError.TooManyRules → ⊥ }
{
    start(ours, theirs, by_place, pairs, found)?;
    let mut done = 0;
    while done < pairs.len() {
        if MOST_STATES < pairs.len() {
            return Err(OpError::TooManyStates);
        }
        let x = pairs.at(done);
        explore(ours, theirs, by_child, by_place, x, pairs, found)?;
        done += 1;
    }
    Ok(())
}
