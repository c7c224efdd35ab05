//! States that the rules derive.
ghost use Rattle.std.specs.Prelude.{◌≡◌, ◌<◌, ◌≤◌, ◌↔◌, ◌⊎◌, ℕ, List, IsTrue, IfOk, IfSome, All, Contains, length, slice_index, replicate, false, not, count_by, ◌+◌};
ghost use Rattle.tree_definitions.specs.Relation.{Has};
ghost use Rattle.tree_definitions.specs.Relation.{IsAt};
ghost use Rattle.trim_ops.specs.Marking.{AreWithin, IsByChild, Derived, Marking, IsLater, IsFrom, Nothing};

use crate::index::RuleIndex;
use crate::marking::visit;
use bit_rows::Row;
use std::alloc::{AllocError, Global};
use ta_model::Rule;

fn zeros(alloc: Global, n: usize) -> Result<Vec<usize>, AllocError>
    ensures { IfOk result (λ v. v.items ≡ replicate n 0) }
{
    vec![in alloc; 0; n]
}

/// Visits each rule once.
fn start(
    rules: &[Rule],
    places: &mut [usize],
    row: &mut Row,
    todo: &mut Vec<u32>,
) -> Result<(), AllocError>
    requires within { AreWithin (length row.old) rules.now }
    requires marking { Marking rules.now (IsFrom 0) row.old todo.old.items places.old }
    ensures { IfOk result (λ _. Marking rules.now Nothing row.new todo.new.items places.new × (length row.new ≡ length row.old)) }
{
    for (at, rule) in rules.iter().enumerate() {
        visit(rule, &mut places[at], row, todo)?;
    }
    Ok(())
}

/// Moves on each rule of the list.
fn expand(
    rules: &[Rule],
    list: &[u32],
    places: &mut [usize],
    row: &mut Row,
    todo: &mut Vec<u32>,
) -> Result<(), AllocError>
    requires within { AreWithin (length row.old) rules.now }
    requires list { All (λ r. r < length rules.now) list.now }
    requires marking { Marking rules.now (IsLater list.now 0) row.old todo.old.items places.old }
    ensures { IfOk result (λ _. Marking rules.now Nothing row.new todo.new.items places.new × (length row.new ≡ length row.old) × (count_by not row.new + length todo.new.items ≡ count_by not row.old + length todo.old.items)) }
{
    for r in list {
        let at = *r as usize;
        visit(&rules[at], &mut places[at], row, todo)?;
    }
    Ok(())
}

/// The states that the rules derive. Each is expanded once, and each rule goes once over its children.
pub fn derived(alloc: Global, rules: &[Rule], by_child: &RuleIndex) -> Result<Row, AllocError>
    requires within { AreWithin (length by_child.now) rules.now }
    requires by_child { IsByChild rules.now by_child.now }
    ensures exact { IfOk result (λ row. (length row ≡ length by_child.now) × ((q : ℕ) → Has row q ↔ Derived rules.now q)) }
{
    let mut row = Row::zeros(alloc, by_child.len())?;
    let mut todo = Vec::new(alloc);
    let mut all = zeros(alloc, rules.len())?;
    let places = all.as_mut_slice();
    start(rules, places, &mut row, &mut todo)?;
    while let Some(q) = todo.pop() {
        expand(rules, by_child.at(q as usize), places, &mut row, &mut todo)?;
    }
    Ok(row)
}
