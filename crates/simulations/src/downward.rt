//! The greatest downward simulation of a list of rules.

ghost use Rattle.std.specs.Prelude.{◌≡◌, ◌<◌, ◌≤◌, ◌↔◌, ◌^◌, ℕ, List, IsTrue, IfOk, All, length};
ghost use Rattle.std.specs.List.{AllZip};
ghost use Rattle.tree_definitions.specs.Relation.{Matrix, Holds, IsAt, IsSquare};
ghost use Rattle.trim_ops.specs.Marking.{AreWithin, IsWithin, IsByChild, IsByParent};
ghost use Rattle.simulations.specs.Clearing.{IsPartOf, IsMarked, Clearing, Seen};
ghost use Rattle.simulations.specs.DownCases.{IsAnswered, IsDownMatrix, GreatestBy, AreAnswered, IsCase, IsCaseBelow, IsCaseOf, IsUnder, AreUnder, RestsOn, IsSettled};

use crate::lost::{catch_up, full, next_marked, rows_of};
use crate::symbols::clear_by_symbols;
use bit_matrix::Matrix;
use bit_rows::Row;
use std::alloc::{AllocError, Global};
use ta_model::Rule;
use trim_ops::RuleIndex;

/// How often all rules are gone over before cleared pairs are kept for later: most pairs go then, and
/// what rests on them is looked at again in the next sweep anyway.
const EARLY_SWEEPS: usize = 2;

/// Whether each state of the first tuple is below the one at its place in the second.
fn kids_below(low: &[u32], high: &[u32], sim: &Matrix) -> bool
    requires low { All (λ q. q < length sim.now) low.now }
    requires high { All (λ q. q < length sim.now) high.now }
    ensures { IsTrue result ↔ AllZip (Holds sim.now) low.now high.now }
{
    if low.len() != high.len() {
        return false;
    }
    for i in 0..low.len() {
        if !sim.get(low[i] as usize, high[i] as usize) {
            return false;
        }
    }
    true
}

/// Whether one of the rules in the list, all of them to one state, answers the rule.
fn answered(rules: &[Rule], list: &[u32], rule: &Rule, sim: &Matrix) -> bool
    requires within { AreWithin (length sim.now) rules.now }
    requires rule { IsWithin (length sim.now) rule.now }
    requires list { All (λ s. s < length rules.now) list.now }
    ensures { (r : ℕ) → (lists : List (List ℕ)) → IsByParent rules.now lists → IsAt lists r list.now
        → IsTrue result ↔ IsAnswered rules.now (Holds sim.now) rule.now r }
{
    for s in list {
        let over = &rules[*s as usize];
        if over.symbol == rule.symbol
            && kids_below(rule.kids.as_slice(), over.kids.as_slice(), sim)
        {
            return true;
        }
    }
    false
}

/// Clears the pair of the rule's parent and r where no rule to r answers the rule.
fn examine(rules: &[Rule], to: &RuleIndex, i: usize, r: usize, sim: &mut Matrix, marks: &mut Row)
    requires within { AreWithin (length to.now) rules.now }
    requires to { IsByParent rules.now to.now }
    requires rule { i < length rules.now }
    requires above { r < length to.now }
    requires state { IsMarked (length to.now) sim.old marks.old }
    ensures clearing { Clearing (length to.now) (IsDownMatrix rules.now) sim.old marks.old sim.new marks.new }
    ensures answered { AreAnswered rules.now (IsCase rules.now i r) sim.old sim.new }
{
    let rule = &rules[i];
    let q = rule.parent as usize;
    if !sim.get(q, r) {
        return;
    }
    if answered(rules, to.at(r), rule, sim) {
        return;
    }
    sim.clear(q, r);
    marks.set(q);
}

/// Examines the rule at each state that its parent is below.
fn examine_row(rules: &[Rule], to: &RuleIndex, i: usize, sim: &mut Matrix, marks: &mut Row)
    requires within { AreWithin (length to.now) rules.now }
    requires to { IsByParent rules.now to.now }
    requires rule { i < length rules.now }
    requires state { IsMarked (length to.now) sim.old marks.old }
    ensures clearing { Clearing (length to.now) (IsDownMatrix rules.now) sim.old marks.old sim.new marks.new }
    ensures answered { AreAnswered rules.now (IsCaseBelow rules.now i (length to.now)) sim.old sim.new }
{
    // The number of states tells the proof that the next place fits.
    let _states = to.len();
    let rule = &rules[i];
    let q = rule.parent as usize;
    let mut from = 0;
    while let Some(r) = sim.row(q).first_from(from) {
        examine(rules, to, i, r, sim, marks);
        from = r + 1;
    }
}

/// Examines each rule at each state that its parent is below.
fn sweep(rules: &[Rule], to: &RuleIndex, sim: &mut Matrix, marks: &mut Row)
    requires within { AreWithin (length to.now) rules.now }
    requires to { IsByParent rules.now to.now }
    requires state { IsMarked (length to.now) sim.old marks.old }
    ensures clearing { Clearing (length to.now) (IsDownMatrix rules.now) sim.old marks.old sim.new marks.new }
    ensures settled { IsSettled rules.now sim.old sim.new }
{
    for i in 0..rules.len() {
        examine_row(rules, to, i, sim, marks);
    }
}

/// Sweeps a few times, after which few pairs are left that will be cleared.
fn sweep_early(rules: &[Rule], to: &RuleIndex, sim: &mut Matrix, marks: &mut Row)
    requires within { AreWithin (length to.now) rules.now }
    requires to { IsByParent rules.now to.now }
    requires state { IsMarked (length to.now) sim.old marks.old }
    ensures { Clearing (length to.now) (IsDownMatrix rules.now) sim.old marks.old sim.new marks.new }
{
    for _ in 0..EARLY_SWEEPS {
        sweep(rules, to, sim, marks);
    }
}

/// Examines a rule at the parent of each rule in the list with its symbol.
fn examine_under(
    rules: &[Rule],
    to: &RuleIndex,
    i: usize,
    above: &[u32],
    sim: &mut Matrix,
    marks: &mut Row,
)
    requires within { AreWithin (length to.now) rules.now }
    requires to { IsByParent rules.now to.now }
    requires rule { i < length rules.now }
    requires above { All (λ s. s < length rules.now) above.now }
    requires state { IsMarked (length to.now) sim.old marks.old }
    ensures clearing { Clearing (length to.now) (IsDownMatrix rules.now) sim.old marks.old sim.new marks.new }
    ensures answered { AreAnswered rules.now (IsUnder rules.now i above.now (length above.now)) sim.old sim.new }
{
    let rule = &rules[i];
    for s in above {
        let over = &rules[*s as usize];
        if over.symbol == rule.symbol {
            examine(rules, to, i, over.parent as usize, sim, marks);
        }
    }
}

/// Examines each rule of the first list at the parents of the rules in the second one.
fn examine_users(
    rules: &[Rule],
    to: &RuleIndex,
    below: &[u32],
    above: &[u32],
    sim: &mut Matrix,
    marks: &mut Row,
)
    requires within { AreWithin (length to.now) rules.now }
    requires to { IsByParent rules.now to.now }
    requires below { All (λ s. s < length rules.now) below.now }
    requires above { All (λ s. s < length rules.now) above.now }
    requires state { IsMarked (length to.now) sim.old marks.old }
    ensures clearing { Clearing (length to.now) (IsDownMatrix rules.now) sim.old marks.old sim.new marks.new }
    ensures answered { AreAnswered rules.now (AreUnder rules.now below.now (length below.now) above.now) sim.old sim.new }
{
    for i in below {
        examine_under(rules, to, *i as usize, above, sim, marks);
    }
}

/// Examines what rests on the pairs of one state, whose rules are in the list, and those lost.
fn spread(
    rules: &[Rule],
    by_child: &RuleIndex,
    to: &RuleIndex,
    below: &[u32],
    lost: &Row,
    sim: &mut Matrix,
    marks: &mut Row,
)
    requires within { AreWithin (length to.now) rules.now }
    requires by_child { IsByChild rules.now by_child.now }
    requires by_child_size { length by_child.now ≡ length to.now }
    requires to { IsByParent rules.now to.now }
    requires below { All (λ s. s < length rules.now) below.now }
    requires lost { length lost.now ≡ length to.now }
    requires state { IsMarked (length to.now) sim.old marks.old }
    ensures clearing { Clearing (length to.now) (IsDownMatrix rules.now) sim.old marks.old sim.new marks.new }
    ensures answered { AreAnswered rules.now (RestsOn rules.now by_child.now below.now lost.now (length to.now)) sim.old sim.new }
{
    let _states = to.len();
    let mut from = 0;
    while let Some(r) = lost.first_from(from) {
        examine_users(rules, to, below, by_child.at(r), sim, marks);
        from = r + 1;
    }
}

/// Clears pairs until the rest is a simulation.
fn refine(
    rules: &[Rule],
    by_child: &RuleIndex,
    to: &RuleIndex,
    seen: &mut [Row],
    sim: &mut Matrix,
    marks: &mut Row,
) -> Result<(), AllocError>
    requires within { AreWithin (length to.now) rules.now }
    requires by_child { IsByChild rules.now by_child.now }
    requires by_child_size { length by_child.now ≡ length to.now }
    requires to { IsByParent rules.now to.now }
    requires seen { Seen (length to.now) seen.old sim.old marks.old }
    requires settled { IsSettled rules.now seen.old sim.old }
    ensures square { IfOk result (λ _. IsSquare (length to.now) sim.new) }
    ensures simulation { IfOk result (λ _. IsDownMatrix rules.now sim.new) }
    ensures each { IfOk result (λ _. (m : Matrix) → IsDownMatrix rules.now m → IsPartOf m sim.old → IsPartOf m sim.new) }
{
    let _states = to.len();
    let mut from = 0;
    while let Some(q) = next_marked(marks, from) {
        marks.clear(q);
        let lost = catch_up(seen, sim, q)?;
        spread(rules, by_child, to, by_child.at(q), &lost, sim, marks);
        from = q + 1;
    }
    Ok(())
}

/// The greatest downward simulation: pairs are cleared from the full relation on.
pub(crate) fn greatest_down(
    alloc: Global,
    rules: &[Rule],
    by_child: &RuleIndex,
    to: &RuleIndex,
    symbols: usize,
) -> Result<Matrix, AllocError>
    requires within { AreWithin (length to.now) rules.now }
    requires by_child { IsByChild rules.now by_child.now }
    requires by_child_size { length by_child.now ≡ length to.now }
    requires to { IsByParent rules.now to.now }
    requires symbols { All (λ rule. rule.symbol < symbols) rules.now }
    requires few { length to.now ≤ 20000 }
    ensures square { IfOk result (λ sim. IsSquare (length to.now) sim) }
    ensures pairs { IfOk result (λ sim. (q r : ℕ) → Holds sim q r ↔ GreatestBy (length to.now) rules.now q r) }
{
    let mut sim = full(alloc, to.len())?;
    let mut early = Row::zeros(alloc, to.len())?;
    clear_by_symbols(alloc, rules, symbols, &mut sim, &mut early)?;
    sweep_early(rules, to, &mut sim, &mut early);
    let mut seen = rows_of(alloc, &sim)?;
    let mut marks = Row::zeros(alloc, to.len())?;
    sweep(rules, to, &mut sim, &mut marks);
    let rows = seen.as_mut_slice();
    refine(rules, by_child, to, rows, &mut sim, &mut marks)?;
    Ok(sim)
}
