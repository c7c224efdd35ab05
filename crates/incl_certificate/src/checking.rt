//! The conditions of a certificate.

ghost use Rattle.std.specs.Prelude.{IfOk, IfErr};
ghost use Rattle.certificate_kinds.specs.Certificates.{Fits};
ghost use Rattle.incl_certificate.specs.Checked.{FailsFirst, Holds, MeansInclusion};

use crate::down_trail::check_down_trail;
use crate::downward::check_down;
use crate::tree::check_tree;
use crate::up_trail::check_up_trail;
use crate::upward::check_up;
use certificate_kinds::Certificate;
use std::alloc::{AllocError, Global};
use ta_model::Listed;
use thiserror::Error;

/// What a certificate shows.
#[derive(Clone, Copy, Debug, PartialEq, Eq)]
pub enum Verdict {
    /// Each tree that the first automaton accepts is accepted by the second.
    Included,
    /// Some tree is accepted by the first automaton and not by the second.
    NotIncluded,
    /// Nothing: a search came to its budget.
    Undecided,
}

/// Why a certificate shows nothing.
#[derive(Clone, Copy, Debug, PartialEq, Eq, Error)]
pub enum CheckError {
    /// The first condition that fails, and where.
    #[error("condition {condition} fails at place {place}")]
    Fails { condition: u8, place: u32 },
    #[error("out of memory")]
    Memory,
}

impl From<AllocError> for CheckError {
    ghost use Rattle.std.specs.Prelude.{◌≡◌};
    ghost use Rattle.incl_certificate.specs.declared.checking.CheckError.TheVariants.{Memory};

    ghost from_gives = { λ _ e. e ≡ Memory };

    fn from(_error: AllocError) -> CheckError {
        CheckError::Memory
    }
}

/// Judges the conditions of a certificate that fits, in rising order. Where it answers `Included`,
/// each tree that the first automaton accepts is accepted by the second.
pub fn check(alloc: Global, a: &Listed, b: &Listed, c: &Certificate) -> Result<Verdict, CheckError>
    requires { Fits a.now b.now c.now }
    ensures holds { IfOk result (Holds a.now b.now c.now) }
    ensures fails { IfErr result (FailsFirst a.now b.now c.now) }
    ensures inclusion { IfOk result (MeansInclusion a.now b.now) }
{
    match c {
        Certificate::Up { left, right, pairs } => {
            check_up(alloc, a, b, left, right, pairs)?;
            Ok(Verdict::Included)
        }
        Certificate::Down { both, pairs } => {
            check_down(alloc, a, b, both, pairs)?;
            Ok(Verdict::Included)
        }
        Certificate::Tree { nodes } => {
            check_tree(alloc, a, b, nodes)?;
            Ok(Verdict::NotIncluded)
        }
        Certificate::UpTrail {
            left,
            right,
            budget,
            entries,
        } => {
            check_up_trail(alloc, a, b, left, right, *budget, entries)?;
            Ok(Verdict::Undecided)
        }
        Certificate::DownTrail {
            both,
            budget,
            entries,
        } => {
            check_down_trail(alloc, a, b, both, *budget, entries)?;
            Ok(Verdict::Undecided)
        }
    }
}
