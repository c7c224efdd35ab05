//! Pairs that fail by symbols alone: some rule leads to the first state under a symbol under which
//! none leads to the second.

ghost use Rattle.std.specs.Prelude.{◌≡◌, ◌<◌, ℕ, IfOk, All, length};
ghost use Rattle.tree_definitions.specs.Automaton.{Rule as RuleSpec};
ghost use Rattle.tree_definitions.specs.Relation.{Has, Holds, IsAt};
ghost use Rattle.trim_ops.specs.Marking.{AreWithin};
ghost use Rattle.simulations.specs.Clearing.{IsMarked, Clearing};
ghost use Rattle.simulations.specs.DownCases.{IsDownMatrix, HasParents};

use bit_matrix::Matrix;
use bit_rows::Row;
use std::alloc::{AllocError, Global};
use ta_model::Rule;

fn empty_rows(alloc: Global, count: usize, n: usize) -> Result<Vec<Row>, AllocError>
    ensures count { IfOk result (λ rows. length rows.items ≡ count) }
    ensures long { IfOk result (λ rows. All (λ row. length row ≡ n) rows.items) }
{
    let mut rows = Vec::with_capacity(alloc, count)?;
    for _ in 0..count {
        rows.push(Row::zeros(alloc, n)?)?;
    }
    Ok(rows)
}

/// For each symbol, the parents of the rules under it.
fn parents_by_symbol(
    alloc: Global,
    rules: &[Rule],
    symbols: usize,
    states: usize,
) -> Result<Vec<Row>, AllocError>
    requires within { AreWithin states rules.now }
    requires symbols { All (λ rule. rule.symbol < symbols) rules.now }
    ensures count { IfOk result (λ rows. length rows.items ≡ symbols) }
    ensures long { IfOk result (λ rows. All (λ row. length row ≡ states) rows.items) }
    ensures whole { IfOk result (λ rows. (i : ℕ) (rule : RuleSpec) → IsAt rules.now i rule → Holds rows.items rule.symbol rule.parent) }
{
    let mut rows = empty_rows(alloc, symbols, states)?;
    for rule in rules {
        let row = &mut rows[rule.symbol as usize];
        row.set(rule.parent as usize);
    }
    Ok(rows)
}

/// Clears the pair of the rule's parent and r where r is not in the row, which has the parents of
/// all rules under the same symbol.
fn judge(rules: &[Rule], i: usize, r: usize, has: &Row, sim: &mut Matrix, marks: &mut Row)
    requires within { AreWithin (length has.now) rules.now }
    requires rule { i < length rules.now }
    requires above { r < length has.now }
    requires whole { HasParents rules.now i has.now }
    requires state { IsMarked (length has.now) sim.old marks.old }
    ensures { Clearing (length has.now) (IsDownMatrix rules.now) sim.old marks.old sim.new marks.new }
{
    if has.get(r) {
        return;
    }
    let rule = &rules[i];
    let q = rule.parent as usize;
    if !sim.get(q, r) {
        return;
    }
    sim.clear(q, r);
    marks.set(q);
}

/// The same for each r that the rule's parent is below.
fn judge_row(rules: &[Rule], i: usize, has: &Row, sim: &mut Matrix, marks: &mut Row)
    requires within { AreWithin (length has.now) rules.now }
    requires rule { i < length rules.now }
    requires whole { HasParents rules.now i has.now }
    requires state { IsMarked (length has.now) sim.old marks.old }
    ensures { Clearing (length has.now) (IsDownMatrix rules.now) sim.old marks.old sim.new marks.new }
{
    let _states = has.len();
    let rule = &rules[i];
    let q = rule.parent as usize;
    let mut from = 0;
    while let Some(r) = sim.row(q).first_from(from) {
        judge(rules, i, r, has, sim, marks);
        from = r + 1;
    }
}

/// Clears pairs that fail by their symbols. Where there are more symbols than states this is left
/// out, since it takes a row for each symbol.
pub(crate) fn clear_by_symbols(
    alloc: Global,
    rules: &[Rule],
    symbols: usize,
    sim: &mut Matrix,
    marks: &mut Row,
) -> Result<(), AllocError>
    requires within { AreWithin (length sim.old) rules.now }
    requires symbols { All (λ rule. rule.symbol < symbols) rules.now }
    requires state { IsMarked (length sim.old) sim.old marks.old }
    ensures { IfOk result (λ _. Clearing (length sim.old) (IsDownMatrix rules.now) sim.old marks.old sim.new marks.new) }
{
    let states = sim.size();
    if symbols > states {
        return Ok(());
    }
    let rows = parents_by_symbol(alloc, rules, symbols, states)?;
    for i in 0..rules.len() {
        let rule = &rules[i];
        judge_row(rules, i, &rows[rule.symbol as usize], sim, marks);
    }
    Ok(())
}
