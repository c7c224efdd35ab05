//! The conditions of an upward certificate.

ghost use Rattle.std.specs.Prelude.{ℕ, OnOk, IsErrOf};
ghost use Rattle.tree_definitions.specs.Language.{Included};
ghost use Rattle.tree_definitions.specs.Relation.{Holds};
ghost use Rattle.tree_definitions.specs.UpCert.{UpCert};
ghost use Rattle.certificate_kinds.specs.Certificates.{FitsUp};
ghost use Rattle.incl_certificate.specs.Checked.{AreUp, FailsUp};

use crate::checking::CheckError;
use bit_matrix::Matrix;
use listed_pairs::Pair;
use std::alloc::Global;
use ta_model::Listed;
use up_conditions::{
    first_covered, first_rejecting, first_uncovered_leaf, first_uncovered_rule, is_up_simulation,
};

/// Judges whether the relations are upward simulations, one of each automaton.
fn check_relations(
    alloc: Global,
    a: &Listed,
    b: &Listed,
    left: &Matrix,
    right: &Matrix,
    pairs: &[Pair],
) -> Result<(), CheckError>
    requires { FitsUp a.now b.now left.now right.now pairs.now }
    ensures holds { OnOk result (AreUp a.now b.now left.now right.now) }
    ensures fails { (condition place : ℕ) → IsErrOf result (CheckError.Fails condition place) → FailsUp a.now b.now left.now right.now pairs.now condition place }
{
    if !is_up_simulation(alloc, a, left)? {
        return Err(CheckError::Fails {
            condition: 1,
            place: 1,
        });
    }
    if !is_up_simulation(alloc, b, right)? {
        return Err(CheckError::Fails {
            condition: 1,
            place: 2,
        });
    }
    Ok(())
}

/// Judges the conditions of an upward certificate.
pub(crate) fn check_up(
    alloc: Global,
    a: &Listed,
    b: &Listed,
    left: &Matrix,
    right: &Matrix,
    pairs: &[Pair],
) -> Result<(), CheckError>
    requires { FitsUp a.now b.now left.now right.now pairs.now }
    ensures holds { OnOk result (UpCert a.now b.now (Holds left.now) (Holds right.now) pairs.now) }
    ensures fails { (condition place : ℕ) → IsErrOf result (CheckError.Fails condition place) → FailsUp a.now b.now left.now right.now pairs.now condition place }
    ensures inclusion { OnOk result (Included a.now b.now) }
{
    check_relations(alloc, a, b, left, right, pairs)?;
    if let Some(place) = first_rejecting(alloc, a, b, pairs)? {
        return Err(CheckError::Fails {
            condition: 2,
            place,
        });
    }
    if let Some(place) = first_uncovered_leaf(alloc, a, b, left, right, pairs)? {
        return Err(CheckError::Fails {
            condition: 3,
            place,
        });
    }
    if let Some(place) = first_uncovered_rule(alloc, a, b, left, right, pairs)? {
        return Err(CheckError::Fails {
            condition: 4,
            place,
        });
    }
    match first_covered(alloc, left, right, pairs)? {
        Some(place) => Err(CheckError::Fails {
            condition: 5,
            place,
        }),
        None => Ok(()),
    }
}
