//! The conditions of a downward certificate. There is none of the number 4.

ghost use Rattle.std.specs.Prelude.{ℕ, OnOk, IsErrOf};
ghost use Rattle.tree_definitions.specs.Language.{Included};
ghost use Rattle.tree_definitions.specs.Relation.{Holds};
ghost use Rattle.tree_definitions.specs.DownCert.{DownCert};
ghost use Rattle.certificate_kinds.specs.Certificates.{FitsDown};
ghost use Rattle.incl_certificate.specs.Checked.{FailsDown};

use crate::checking::CheckError;
use bit_matrix::Matrix;
use down_conditions::{first_covered, first_refuted, first_uncovered_final, is_down_simulation};
use listed_pairs::Pair;
use std::alloc::Global;
use ta_model::Listed;

/// Judges the conditions of a downward certificate.
pub(crate) fn check_down(
    alloc: Global,
    a: &Listed,
    b: &Listed,
    both: &Matrix,
    pairs: &[Pair],
) -> Result<(), CheckError>
    requires { FitsDown a.now b.now both.now pairs.now }
    ensures holds { OnOk result (DownCert a.now b.now (Holds both.now) pairs.now) }
    ensures fails { (condition place : ℕ) → IsErrOf result (CheckError.Fails condition place) → FailsDown a.now b.now both.now pairs.now condition place }
    ensures inclusion { OnOk result (Included a.now b.now) }
{
    // The calls tell the proof that no list has a repeat.
    let _first = a.states();
    let _second = b.states();
    if !is_down_simulation(alloc, a, b, both)? {
        return Err(CheckError::Fails {
            condition: 1,
            place: 1,
        });
    }
    if let Some(place) = first_uncovered_final(alloc, a, b, both, pairs)? {
        return Err(CheckError::Fails {
            condition: 2,
            place,
        });
    }
    if let Some(place) = first_refuted(alloc, a, b, both, pairs)? {
        return Err(CheckError::Fails {
            condition: 3,
            place,
        });
    }
    match first_covered(alloc, a, b, both, pairs)? {
        Some(place) => Err(CheckError::Fails {
            condition: 5,
            place,
        }),
        None => Ok(()),
    }
}
