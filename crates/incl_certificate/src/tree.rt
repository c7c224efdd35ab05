//! The conditions of a tree.

ghost use Rattle.std.specs.Prelude.{◌<◌, ◌↔◌, ℕ, All, IfOk, OnOk, IsErrOf, IsTrue, length};
ghost use Rattle.tree_definitions.specs.Witness.{NoCert};
ghost use Rattle.incl_certificate.specs.Checked.{FailsTree};
ghost use Rattle.incl_certificate.specs.Trees.{HasSome, IsAccepted};

use crate::checking::CheckError;
use bit_rows::Row;
use std::alloc::{AllocError, Global};
use ta_model::Listed;
use witness_trees::{Nodes, reach};

/// Whether some place of the list is set in the row.
fn has_any(row: &Row, places: &[u32]) -> bool
    requires { All (λ q. q < length row.now) places.now }
    ensures { IsTrue result ↔ HasSome row.now places.now }
{
    for q in places {
        if row.get(*q as usize) {
            return true;
        }
    }
    false
}

/// Whether the tree of the last node is accepted.
fn accepts(alloc: Global, nodes: &Nodes, a: &Listed) -> Result<bool, AllocError>
    requires { 0 < length nodes.now.rows }
    ensures { IfOk result (λ accepted. IsTrue accepted ↔ IsAccepted a.now nodes.now) }
{
    let reached = reach(alloc, nodes, a)?;
    let last = &reached[nodes.len() as usize - 1];
    Ok(has_any(last, a.finals()))
}

/// Judges the conditions of a tree.
pub(crate) fn check_tree(
    alloc: Global,
    a: &Listed,
    b: &Listed,
    nodes: &Nodes,
) -> Result<(), CheckError>
    requires { 0 < length nodes.now.rows }
    ensures holds { OnOk result (NoCert a.now b.now nodes.now.symbols nodes.now.rows) }
    ensures fails { (condition place : ℕ) → IsErrOf result (CheckError.Fails condition place) → FailsTree a.now b.now nodes.now condition place }
{
    if !accepts(alloc, nodes, a)? {
        return Err(CheckError::Fails {
            condition: 6,
            place: nodes.len(),
        });
    }
    if accepts(alloc, nodes, b)? {
        return Err(CheckError::Fails {
            condition: 7,
            place: nodes.len(),
        });
    }
    Ok(())
}
