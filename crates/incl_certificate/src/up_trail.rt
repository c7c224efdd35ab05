//! The conditions of an upward trail.

ghost use Rattle.std.specs.Prelude.{ℕ, OnOk, IsErrOf};
ghost use Rattle.tree_definitions.specs.Relation.{Holds};
ghost use Rattle.tree_definitions.specs.UpTrail.{UpTrail};
ghost use Rattle.certificate_kinds.specs.Certificates.{FitsUpTrail};
ghost use Rattle.incl_certificate.specs.Checked.{AreUp, FailsUpTrail};

use crate::checking::CheckError;
use bit_matrix::Matrix;
use listed_pairs::UpEntry;
use std::alloc::Global;
use ta_model::Listed;
use up_conditions::{
    first_covered_entry, first_rejecting_entry, first_wrong_step, is_up_simulation,
};

/// Judges whether the relations are upward simulations, one of each automaton.
fn check_relations(
    alloc: Global,
    a: &Listed,
    b: &Listed,
    left: &Matrix,
    right: &Matrix,
    budget: u64,
    entries: &[UpEntry],
) -> Result<(), CheckError>
    requires { FitsUpTrail a.now b.now left.now right.now budget entries.now }
    ensures holds { OnOk result (AreUp a.now b.now left.now right.now) }
    ensures fails { (condition place : ℕ) → IsErrOf result (CheckError.Fails condition place) → FailsUpTrail a.now b.now left.now right.now entries.now condition place }
{
    if !is_up_simulation(alloc, a, left)? {
        return Err(CheckError::Fails {
            condition: 1,
            place: 1,
        });
    }
    if !is_up_simulation(alloc, b, right)? {
        return Err(CheckError::Fails {
            condition: 1,
            place: 2,
        });
    }
    Ok(())
}

/// Judges the conditions of an upward trail.
pub(crate) fn check_up_trail(
    alloc: Global,
    a: &Listed,
    b: &Listed,
    left: &Matrix,
    right: &Matrix,
    budget: u64,
    entries: &[UpEntry],
) -> Result<(), CheckError>
    requires { FitsUpTrail a.now b.now left.now right.now budget entries.now }
    ensures holds { OnOk result (UpTrail a.now b.now (Holds left.now) (Holds right.now) budget entries.now) }
    ensures fails { (condition place : ℕ) → IsErrOf result (CheckError.Fails condition place) → FailsUpTrail a.now b.now left.now right.now entries.now condition place }
{
    // The call tells the proof that the automaton is narrow.
    let _symbols = a.symbols();
    check_relations(alloc, a, b, left, right, budget, entries)?;
    if let Some(place) = first_wrong_step(alloc, a, b, entries)? {
        return Err(CheckError::Fails {
            condition: 8,
            place,
        });
    }
    if let Some(place) = first_rejecting_entry(alloc, a, b, entries)? {
        return Err(CheckError::Fails {
            condition: 9,
            place,
        });
    }
    match first_covered_entry(alloc, left, right, entries)? {
        Some(place) => Err(CheckError::Fails {
            condition: 10,
            place,
        }),
        None => Ok(()),
    }
}
