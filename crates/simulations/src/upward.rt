//! The greatest upward simulation of a list of rules.

ghost use Rattle.std.specs.Prelude.{◌≡◌, ◌<◌, ◌≤◌, ◌↔◌, ℕ, IfOk, All, Contains, length};
ghost use Rattle.tree_definitions.specs.Relation.{Matrix, Has, Holds, IsAt, IsSquare};
ghost use Rattle.trim_ops.specs.Marking.{AreWithin, IsWithin, IsByChild, IsByParent};
ghost use Rattle.simulations.specs.Clearing.{IsPartOf, IsMarked, Clearing, Seen};
ghost use Rattle.simulations.specs.UpCases.{IsUpMatrix, KeepsFinals, ClearsOutside, GreatestUpBy, AreExchanged, IsUpCase, IsUpCaseBelow, IsUpCaseAt, IsUpCaseOf, IsExchangeOf, IsUpUnder, AreUpUnder, RestsOnParents, IsUpSettled};

use crate::lost::{catch_up, full, next_marked, rows_of};
use bit_matrix::Matrix;
use bit_rows::Row;
use child_exchange::{difference, exchanged};
use std::alloc::{AllocError, Global};
use ta_model::Rule;
use trim_ops::RuleIndex;

/// Clears the pair of the rule's child at place p and r where no rule with r there leads above its
/// parent.
fn examine(
    rules: &[Rule],
    by_child: &RuleIndex,
    rule: &Rule,
    p: usize,
    r: u32,
    sim: &mut Matrix,
    marks: &mut Row,
)
    requires within { AreWithin (length by_child.now) rules.now }
    requires by_child { IsByChild rules.now by_child.now }
    requires rule { Contains rules.now rule.now }
    requires place { p < length rule.now.kids }
    requires above { r < length by_child.now }
    requires state { IsMarked (length by_child.now) sim.old marks.old }
    ensures clearing { Clearing (length by_child.now) (IsUpMatrix rules.now) sim.old marks.old sim.new marks.new }
    ensures exchanged { AreExchanged rules.now (IsUpCase rule.now p r) sim.old sim.new }
{
    let q = rule.kids.as_slice()[p];
    if q == r {
        return;
    }
    if !sim.get(q as usize, r as usize) {
        return;
    }
    if exchanged(rules, by_child.at(r as usize), rule, p, r, sim) {
        return;
    }
    sim.clear(q as usize, r as usize);
    marks.set(q as usize);
}

/// Examines the rule at this place with each state that the child there is below.
fn examine_place(
    rules: &[Rule],
    by_child: &RuleIndex,
    rule: &Rule,
    p: usize,
    sim: &mut Matrix,
    marks: &mut Row,
)
    requires within { AreWithin (length by_child.now) rules.now }
    requires by_child { IsByChild rules.now by_child.now }
    requires rule { Contains rules.now rule.now }
    requires place { p < length rule.now.kids }
    requires state { IsMarked (length by_child.now) sim.old marks.old }
    ensures clearing { Clearing (length by_child.now) (IsUpMatrix rules.now) sim.old marks.old sim.new marks.new }
    ensures exchanged { AreExchanged rules.now (IsUpCaseBelow rule.now p (length by_child.now)) sim.old sim.new }
{
    // The number of states tells the proof that a place fits.
    let _states = sim.size();
    let q = rule.kids.as_slice()[p] as usize;
    let mut from = 0;
    while let Some(r) = sim.row(q).first_from(from) {
        examine(rules, by_child, rule, p, r as u32, sim, marks);
        from = r + 1;
    }
}

/// Examines the rule at each place.
fn examine_rule(
    rules: &[Rule],
    by_child: &RuleIndex,
    rule: &Rule,
    sim: &mut Matrix,
    marks: &mut Row,
)
    requires within { AreWithin (length by_child.now) rules.now }
    requires by_child { IsByChild rules.now by_child.now }
    requires rule { Contains rules.now rule.now }
    requires state { IsMarked (length by_child.now) sim.old marks.old }
    ensures clearing { Clearing (length by_child.now) (IsUpMatrix rules.now) sim.old marks.old sim.new marks.new }
    ensures exchanged { AreExchanged rules.now (IsUpCaseAt rule.now (length rule.now.kids)) sim.old sim.new }
{
    for p in 0..rule.kids.len() {
        examine_place(rules, by_child, rule, p, sim, marks);
    }
}

/// Examines each rule at each place.
fn sweep(rules: &[Rule], by_child: &RuleIndex, sim: &mut Matrix, marks: &mut Row)
    requires within { AreWithin (length by_child.now) rules.now }
    requires by_child { IsByChild rules.now by_child.now }
    requires state { IsMarked (length by_child.now) sim.old marks.old }
    ensures clearing { Clearing (length by_child.now) (IsUpMatrix rules.now) sim.old marks.old sim.new marks.new }
    ensures settled { IsUpSettled rules.now sim.old sim.new }
{
    for i in 0..rules.len() {
        examine_rule(rules, by_child, &rules[i], sim, marks);
    }
}

/// Where the second rule is the first with one child exchanged, examines the first there.
fn examine_exchange(
    rules: &[Rule],
    by_child: &RuleIndex,
    rule: &Rule,
    over: &Rule,
    sim: &mut Matrix,
    marks: &mut Row,
)
    requires within { AreWithin (length by_child.now) rules.now }
    requires by_child { IsByChild rules.now by_child.now }
    requires rule { Contains rules.now rule.now }
    requires over { IsWithin (length by_child.now) over.now }
    requires state { IsMarked (length by_child.now) sim.old marks.old }
    ensures clearing { Clearing (length by_child.now) (IsUpMatrix rules.now) sim.old marks.old sim.new marks.new }
    ensures exchanged { AreExchanged rules.now (IsExchangeOf rule.now over.now) sim.old sim.new }
{
    if over.symbol != rule.symbol {
        return;
    }
    let high = over.kids.as_slice();
    let Some(p) = difference(rule.kids.as_slice(), high) else {
        return;
    };
    examine(rules, by_child, rule, p, high[p], sim, marks);
}

/// Examines the rule with the children that it exchanges for one of the rules in the list.
fn examine_under(
    rules: &[Rule],
    by_child: &RuleIndex,
    rule: &Rule,
    above: &[u32],
    sim: &mut Matrix,
    marks: &mut Row,
)
    requires within { AreWithin (length by_child.now) rules.now }
    requires by_child { IsByChild rules.now by_child.now }
    requires rule { Contains rules.now rule.now }
    requires above { All (λ s. s < length rules.now) above.now }
    requires state { IsMarked (length by_child.now) sim.old marks.old }
    ensures clearing { Clearing (length by_child.now) (IsUpMatrix rules.now) sim.old marks.old sim.new marks.new }
    ensures exchanged { AreExchanged rules.now (IsUpUnder rules.now rule.now above.now (length above.now)) sim.old sim.new }
{
    for s in above {
        examine_exchange(rules, by_child, rule, &rules[*s as usize], sim, marks);
    }
}

/// Examines each rule of the first list by those of the second one.
fn examine_rules(
    rules: &[Rule],
    by_child: &RuleIndex,
    below: &[u32],
    above: &[u32],
    sim: &mut Matrix,
    marks: &mut Row,
)
    requires within { AreWithin (length by_child.now) rules.now }
    requires by_child { IsByChild rules.now by_child.now }
    requires below { All (λ s. s < length rules.now) below.now }
    requires above { All (λ s. s < length rules.now) above.now }
    requires state { IsMarked (length by_child.now) sim.old marks.old }
    ensures clearing { Clearing (length by_child.now) (IsUpMatrix rules.now) sim.old marks.old sim.new marks.new }
    ensures exchanged { AreExchanged rules.now (AreUpUnder rules.now below.now (length below.now) above.now) sim.old sim.new }
{
    for i in below {
        examine_under(rules, by_child, &rules[*i as usize], above, sim, marks);
    }
}

/// Examines what rests on the pairs of one state, to which the rules of the list lead, and those
/// lost.
fn spread(
    rules: &[Rule],
    by_child: &RuleIndex,
    by_parent: &RuleIndex,
    below: &[u32],
    lost: &Row,
    sim: &mut Matrix,
    marks: &mut Row,
)
    requires within { AreWithin (length by_child.now) rules.now }
    requires by_child { IsByChild rules.now by_child.now }
    requires by_parent { IsByParent rules.now by_parent.now }
    requires by_parent_size { length by_parent.now ≡ length by_child.now }
    requires below { All (λ s. s < length rules.now) below.now }
    requires lost { length lost.now ≡ length by_child.now }
    requires state { IsMarked (length by_child.now) sim.old marks.old }
    ensures clearing { Clearing (length by_child.now) (IsUpMatrix rules.now) sim.old marks.old sim.new marks.new }
    ensures exchanged { AreExchanged rules.now (RestsOnParents rules.now by_parent.now below.now lost.now (length by_child.now)) sim.old sim.new }
{
    let _states = by_child.len();
    let mut from = 0;
    while let Some(s) = lost.first_from(from) {
        examine_rules(rules, by_child, below, by_parent.at(s), sim, marks);
        from = s + 1;
    }
}

/// Clears pairs until the rest is a simulation of the rules.
fn refine(
    rules: &[Rule],
    by_child: &RuleIndex,
    by_parent: &RuleIndex,
    seen: &mut [Row],
    sim: &mut Matrix,
    marks: &mut Row,
) -> Result<(), AllocError>
    requires within { AreWithin (length by_child.now) rules.now }
    requires by_child { IsByChild rules.now by_child.now }
    requires by_parent { IsByParent rules.now by_parent.now }
    requires by_parent_size { length by_parent.now ≡ length by_child.now }
    requires seen { Seen (length by_child.now) seen.old sim.old marks.old }
    requires settled { IsUpSettled rules.now seen.old sim.old }
    ensures square { IfOk result (λ _. IsSquare (length by_child.now) sim.new) }
    ensures fewer { IfOk result (λ _. IsPartOf sim.new sim.old) }
    ensures settled { IfOk result (λ _. IsUpSettled rules.now sim.new sim.new) }
    ensures each { IfOk result (λ _. (m : Matrix) → IsUpMatrix rules.now m → IsPartOf m sim.old → IsPartOf m sim.new) }
{
    let _states = by_child.len();
    let mut from = 0;
    while let Some(q) = next_marked(marks, from) {
        marks.clear(q);
        let lost = catch_up(seen, sim, q)?;
        spread(
            rules,
            by_child,
            by_parent,
            by_parent.at(q),
            &lost,
            sim,
            marks,
        );
        from = q + 1;
    }
    Ok(())
}

/// Clears each pair of q with a state outside the row.
fn clear_outside(q: usize, is_final: &Row, sim: &mut Matrix)
    requires square { IsSquare (length is_final.now) sim.old }
    requires row { q < length is_final.now }
    ensures { ClearsOutside q (length is_final.now) is_final.now sim.old sim.new }
{
    for r in 0..is_final.len() {
        if !is_final.get(r) {
            sim.clear(q, r);
        }
    }
}

/// The places in the list, as a row.
fn row_of_finals(alloc: Global, finals: &[u32], n: usize) -> Result<Row, AllocError>
    requires { All (λ q. q < n) finals.now }
    ensures long { IfOk result (λ row. length row ≡ n) }
    ensures members { IfOk result (λ row. (q : ℕ) → Has row q ↔ Contains finals.now q) }
{
    let mut row = Row::zeros(alloc, n)?;
    for q in finals {
        row.set(*q as usize);
    }
    Ok(row)
}

/// The pairs in which the second state is final where the first is.
fn pairs_of_finals(alloc: Global, finals: &[u32], n: usize) -> Result<Matrix, AllocError>
    requires finals { All (λ q. q < n) finals.now }
    requires few { n ≤ 20000 }
    ensures square { IfOk result (λ m. IsSquare n m) }
    ensures finals { IfOk result (λ m. KeepsFinals finals.now m) }
    ensures each { IfOk result (λ start. (m : Matrix) → IsSquare n m → KeepsFinals finals.now m → IsPartOf m start) }
{
    let is_final = row_of_finals(alloc, finals, n)?;
    let mut sim = full(alloc, n)?;
    for q in finals {
        clear_outside(*q as usize, &is_final, &mut sim);
    }
    Ok(sim)
}

/// The greatest upward simulation: pairs are cleared from those that finals allow on.
pub(crate) fn greatest_up(
    alloc: Global,
    rules: &[Rule],
    finals: &[u32],
    by_child: &RuleIndex,
    by_parent: &RuleIndex,
) -> Result<Matrix, AllocError>
    requires within { AreWithin (length by_child.now) rules.now }
    requires finals { All (λ q. q < length by_child.now) finals.now }
    requires by_child { IsByChild rules.now by_child.now }
    requires by_parent { IsByParent rules.now by_parent.now }
    requires by_parent_size { length by_parent.now ≡ length by_child.now }
    requires few { length by_child.now ≤ 20000 }
    ensures square { IfOk result (λ sim. IsSquare (length by_child.now) sim) }
    ensures pairs { IfOk result (λ sim. (q r : ℕ) → Holds sim q r ↔ GreatestUpBy (length by_child.now) finals.now rules.now q r) }
{
    let mut sim = pairs_of_finals(alloc, finals, by_child.len())?;
    let mut early = Row::zeros(alloc, by_child.len())?;
    sweep(rules, by_child, &mut sim, &mut early);
    let mut seen = rows_of(alloc, &sim)?;
    let mut marks = Row::zeros(alloc, by_child.len())?;
    sweep(rules, by_child, &mut sim, &mut marks);
    let rows = seen.as_mut_slice();
    refine(rules, by_child, by_parent, rows, &mut sim, &mut marks)?;
    Ok(sim)
}
