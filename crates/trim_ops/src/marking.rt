//! Marking one state, and moving one rule on.
ghost use Rattle.std.specs.Prelude.{◌≡◌, ◌<◌, ◌≤◌, ◌↔◌, ℕ, IsTrue, IfOk, All, length, slice_index};
ghost use Rattle.tree_definitions.specs.Relation.{Has};
ghost use Rattle.trim_ops.specs.Marking.{Marks, Moves, Visits};

use bit_rows::Row;
use std::alloc::AllocError;
use ta_model::Rule;

/// Marks a state, and keeps it for later if it is new.
pub(crate) fn mark(row: &mut Row, todo: &mut Vec<u32>, q: u32) -> Result<(), AllocError>
    requires { q < length row.old }
    ensures { IfOk result (λ _. Marks row.old todo.old.items q row.new todo.new.items) }
{
    if !row.get(q as usize) {
        row.set(q as usize);
        todo.push(q)?;
    }
    Ok(())
}

/// The first place from this one on whose child isn't marked, or the number of children.
pub(crate) fn moved(kids: &[u32], place: usize, row: &Row) -> usize
    requires place { place ≤ length kids.now }
    requires kids { All (λ q. q < length row.now) kids.now }
    ensures { Moves row.now kids.now place result }
{
    for at in place..kids.len() {
        if !row.get(kids[at] as usize) {
            return at;
        }
    }
    kids.len()
}

/// Moves a rule on, and marks its parent where all its children are marked.
pub(crate) fn visit(
    rule: &Rule,
    place: &mut usize,
    row: &mut Row,
    todo: &mut Vec<u32>,
) -> Result<(), AllocError>
    requires place { place.old ≤ length rule.now.kids }
    requires kids { All (λ q. q < length row.old) rule.now.kids }
    requires parent { rule.now.parent < length row.old }
    ensures { IfOk result (λ _. Visits rule.now place.old row.old todo.old.items place.new row.new todo.new.items) }
{
    *place = moved(rule.kids.as_slice(), *place, row);
    if *place == rule.kids.len() {
        mark(row, todo, rule.parent)?;
    }
    Ok(())
}
