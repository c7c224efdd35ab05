//! Useful states.
ghost use Rattle.std.specs.Prelude.{◌≡◌, ◌<◌, ◌≤◌, ◌↔◌, ◌+◌, ℕ, List, IsTrue, IfOk, All, Contains, length, count_by, not, take};
ghost use Rattle.tree_definitions.specs.Relation.{Has};
ghost use Rattle.tree_definitions.specs.Relation.{IsAt};
ghost use Rattle.trim_ops.specs.Marking.{AreWithin, IsByParent, IsLater, Nothing};
ghost use Rattle.trim_ops.specs.Usefulness.{Useful, Spreading, MarksEach, AreRulesTo, Starting};

use crate::index::RuleIndex;
use crate::marking::mark;
use bit_rows::Row;
use std::alloc::{AllocError, Global};
use ta_model::Rule;

fn all_set(row: &Row, kids: &[u32]) -> bool
    requires { All (λ q. q < length row.now) kids.now }
    ensures { IsTrue result ↔ All (Has row.now) kids.now }
{
    for q in kids {
        if !row.get(*q as usize) {
            return false;
        }
    }
    true
}

fn mark_each(row: &mut Row, todo: &mut Vec<u32>, list: &[u32]) -> Result<(), AllocError>
    requires { All (λ q. q < length row.old) list.now }
    ensures { IfOk result (λ _. MarksEach row.old todo.old.items list.now row.new todo.new.items) }
{
    for q in list {
        mark(row, todo, *q)?;
    }
    Ok(())
}

/// Marks the children of each rule in the list whose children are all reached.
fn spread(
    rules: &[Rule],
    finals: &[u32],
    reached: &Row,
    list: &[u32],
    parent: u32,
    row: &mut Row,
    todo: &mut Vec<u32>,
) -> Result<(), AllocError>
    requires within { AreWithin (length row.old) rules.now }
    requires sizes { length reached.now ≡ length row.old }
    requires list { All (λ r. r < length rules.now) list.now }
    requires parents { AreRulesTo rules.now parent list.now }
    requires marked { Has row.old parent }
    requires spreading { Spreading rules.now finals.now reached.now (IsLater list.now 0) row.old todo.old.items }
    ensures size { IfOk result (λ _. length row.new ≡ length row.old) }
    ensures work { IfOk result (λ _. count_by not row.new + length todo.new.items ≡ count_by not row.old + length todo.old.items) }
    ensures spreading { IfOk result (λ _. Spreading rules.now finals.now reached.now Nothing row.new todo.new.items) }
{
    for r in list {
        let rule = &rules[*r as usize];
        if all_set(reached, rule.kids.as_slice()) {
            mark_each(row, todo, rule.kids.as_slice())?;
        }
    }
    Ok(())
}

/// Marks the reached final states.
fn start_finals(
    finals: &[u32],
    reached: &Row,
    row: &mut Row,
    todo: &mut Vec<u32>,
) -> Result<(), AllocError>
    requires sizes { length reached.now ≡ length row.old }
    requires finals { All (λ q. q < length row.old) finals.now }
    requires starting { Starting (take 0 finals.now) reached.now row.old todo.old.items }
    ensures size { IfOk result (λ _. length row.new ≡ length row.old) }
    ensures starting { IfOk result (λ _. Starting finals.now reached.now row.new todo.new.items) }
{
    for q in finals {
        if reached.get(*q as usize) {
            mark(row, todo, *q)?;
        }
    }
    Ok(())
}

/// The useful states: each is expanded once, and each rule is looked at once.
pub fn useful_of(
    alloc: Global,
    rules: &[Rule],
    by_parent: &RuleIndex,
    finals: &[u32],
    reached: &Row,
) -> Result<Row, AllocError>
    requires within { AreWithin (length reached.now) rules.now }
    requires finals { All (λ q. q < length reached.now) finals.now }
    requires by_parent { IsByParent rules.now by_parent.now }
    requires by_parent_size { length by_parent.now ≡ length reached.now }
    ensures size { IfOk result (λ row. length row ≡ length reached.now) }
    ensures exact { IfOk result (λ row. (q : ℕ) → Has row q ↔ Useful rules.now finals.now reached.now q) }
{
    let mut row = Row::zeros(alloc, reached.len())?;
    let mut todo = Vec::new(alloc);
    start_finals(finals, reached, &mut row, &mut todo)?;
    while let Some(q) = todo.pop() {
        spread(
            rules,
            finals,
            reached,
            by_parent.at(q as usize),
            q,
            &mut row,
            &mut todo,
        )?;
    }
    Ok(row)
}
