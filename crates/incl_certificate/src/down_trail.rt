//! The conditions of a downward trail, whose rules are those of the first automaton's canonical form.

ghost use Rattle.std.specs.Prelude.{◌≡◌, ◌+◌, ℕ, OnOk, IsErrOf, length};
ghost use Rattle.tree_definitions.specs.Canonical.{canon};
ghost use Rattle.tree_definitions.specs.DownTrail.{DownTrail};
ghost use Rattle.tree_definitions.specs.Relation.{Holds};
ghost use Rattle.listed_pairs.specs.DownEntries.{AreDownEntries, entries_of};
ghost use Rattle.certificate_kinds.specs.Certificates.{FitsDownTrail};
ghost use Rattle.incl_certificate.specs.Checked.{FailsDownTrail};

use crate::checking::CheckError;
use bit_matrix::Matrix;
use down_conditions::is_down_simulation;
use down_trails::{first_covered_alone, first_repeated_entry, first_wrong_entry};
use listed_pairs::DownEntry;
use std::alloc::Global;
use ta_model::Listed;

/// Judges the conditions of a downward trail of an automaton in canonical form.
fn check_entries(
    alloc: Global,
    a: &Listed,
    b: &Listed,
    both: &Matrix,
    budget: u64,
    entries: &[DownEntry],
) -> Result<(), CheckError>
    requires both { length both.now ≡ length a.now.states + length b.now.states }
    requires entries { AreDownEntries a.now b.now budget (entries_of entries.now) }
    ensures holds { OnOk result (DownTrail a.now b.now (Holds both.now) budget (entries_of entries.now)) }
    ensures fails { (condition place : ℕ) → IsErrOf result (CheckError.Fails condition place)
        → FailsDownTrail a.now b.now both.now (entries_of entries.now) condition place }
{
    if !is_down_simulation(alloc, a, b, both)? {
        return Err(CheckError::Fails {
            condition: 1,
            place: 1,
        });
    }
    if let Some(place) = first_wrong_entry(alloc, a, b, entries)? {
        return Err(CheckError::Fails {
            condition: 8,
            place,
        });
    }
    if let Some(place) = first_covered_alone(alloc, a, b, both, entries)? {
        return Err(CheckError::Fails {
            condition: 9,
            place,
        });
    }
    match first_repeated_entry(alloc, a, b, entries)? {
        Some(place) => Err(CheckError::Fails {
            condition: 10,
            place,
        }),
        None => Ok(()),
    }
}

/// Judges the conditions of a downward trail.
pub(crate) fn check_down_trail(
    alloc: Global,
    a: &Listed,
    b: &Listed,
    both: &Matrix,
    budget: u64,
    entries: &[DownEntry],
) -> Result<(), CheckError>
    requires { FitsDownTrail a.now b.now both.now budget (entries_of entries.now) }
    ensures holds { OnOk result (DownTrail (canon a.now) b.now (Holds both.now) budget (entries_of entries.now)) }
    ensures fails { (condition place : ℕ) → IsErrOf result (CheckError.Fails condition place)
        → FailsDownTrail (canon a.now) b.now both.now (entries_of entries.now) condition place }
{
    let canonical = a.canon()?;
    check_entries(alloc, &canonical, b, both, budget, entries)
}
