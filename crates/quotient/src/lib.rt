//! Reduction: an automaton whose useful states are merged where each is below the other.
//!
//! `classes` works on a relation, `merge` on an automaton as lists, and `reduce` on any table.
#![tactic(auto)]

mod classes;
mod merge;

ghost use Rattle.std.specs.Prelude.{IfOk, IsErrOf};
ghost use Rattle.tree_definitions.specs.Language.{SameLanguage};
ghost use Rattle.ta_model.specs.Listing.{IsListed};
ghost use Rattle.quotient.specs.Merged.{HasMoreUseful, IsCanonicalQuotient};

use crate::merge::collapse;
use simulations::{SimError, down};
use std::alloc::{AllocError, Global};
use ta_model::{Listed, Table};
use trim_ops::useful;

/// Why an automaton isn't reduced.
#[derive(Clone, Copy, Debug, PartialEq, Eq)]
pub enum ReduceError {
    /// It has more than 20,000 useful states.
    TooLarge,
    Memory,
}

impl From<AllocError> for ReduceError {
    ghost use Rattle.std.specs.Prelude.{◌≡◌};
    ghost use Rattle.quotient.specs.declared.ReduceError.TheVariants.{Memory};

    ghost from_gives = { λ _ e. e ≡ Memory };

    fn from(_error: AllocError) -> ReduceError {
        ReduceError::Memory
    }
}

/// The quotient of the automaton by the greatest downward simulation, in canonical form: without
/// its useless states, with the others merged where each is below the other. A class has the name
/// of its first state, and the classes stand in the order of these.
pub fn reduce<T: Table>(alloc: Global, t: &T) -> Result<Listed, ReduceError>
    ensures automaton { IfOk result (IsCanonicalQuotient (T.automaton t.now)) }
    ensures language { IfOk result (SameLanguage (T.automaton t.now)) }
    ensures listed { IfOk result IsListed }
    ensures few { IfOk result (λ _. HasMoreUseful (T.automaton t.now) 20000 → ⊥) }
    ensures large { IsErrOf result ReduceError.TooLarge → HasMoreUseful (T.automaton t.now) 20000 }
{
    let keep = useful(alloc, t)?;
    let part = t.restricted(&keep)?;
    let _states = part.states();
    let below = match down(alloc, &part) {
        Ok(below) => below,
        Err(SimError::TooLarge) => return Err(ReduceError::TooLarge),
        Err(SimError::Memory) => return Err(ReduceError::Memory),
    };
    let list = part.listed()?;
    let merged = collapse(alloc, &list, &below)?;
    Ok(merged)
}
