//! The limits that two automata decide, before anything is built from them.

ghost use Rattle.std.specs.Prelude.{◌≡◌, ◌≤◌, ◌<◌, ◌⊎◌, IfOk, IsErrOf, length};
ghost use Rattle.tree_definitions.specs.Joint.{joint_symbols};

use crate::asking::InclusionError;
use ranked_alphabet::{Alphabet, AlphabetError};
use std::alloc::{AllocError, Global};
use ta_model::Listed;

/// The most symbols that two automata may have together.
const MOST_SYMBOLS: usize = 65_535;

/// The most states between which there is a relation.
const MOST_STATES: usize = 20_000;

/// The symbols of the automaton.
fn alphabet_of(alloc: Global, a: &Listed) -> Result<Alphabet, AllocError>
    ensures { IfOk result (λ symbols. symbols ≡ a.now.symbols) }
{
    match Alphabet::of(alloc, a.symbols()) {
        Ok(alphabet) => Ok(alphabet),
        Err(AlphabetError::Memory) => Err(AllocError),
        Err(AlphabetError::Full) => unreachable!(),
    }
}

/// `Symbols` where together the two have too many symbols.
fn judge_symbols(alloc: Global, a: &Listed, b: &Listed) -> Result<(), InclusionError>
    ensures few { IfOk result (λ _. length (joint_symbols a.now.symbols b.now.symbols) ≤ 65535) }
    ensures many { IsErrOf result InclusionError.Symbols → 65535 < length (joint_symbols a.now.symbols b.now.symbols) }
    ensures other { IsErrOf result InclusionError.Relation → ⊥ }
{
    // So few are not too many, even where none is shared.
    if a.symbols().len() + b.symbols().len() <= MOST_SYMBOLS {
        return Ok(());
    }
    let Ok(ours) = alphabet_of(alloc, a) else {
        return Err(InclusionError::Memory);
    };
    let Ok(theirs) = alphabet_of(alloc, b) else {
        return Err(InclusionError::Memory);
    };
    match ours.merge(&theirs) {
        Ok(_) => Ok(()),
        Err(AlphabetError::Full) => Err(InclusionError::Symbols),
        Err(AlphabetError::Memory) => Err(InclusionError::Memory),
    }
}

/// `Symbols` where together the two have too many symbols, and else `Relation` where one of them has
/// too many states.
pub(crate) fn judge_limits(alloc: Global, a: &Listed, b: &Listed) -> Result<(), InclusionError>
    ensures few_symbols { IfOk result (λ _. length (joint_symbols a.now.symbols b.now.symbols) ≤ 65535) }
    ensures few_states { IfOk result (λ _. (length a.now.states ≤ 20000) × (length b.now.states ≤ 20000)) }
    ensures symbols { IsErrOf result InclusionError.Symbols → 65535 < length (joint_symbols a.now.symbols b.now.symbols) }
    ensures relation { IsErrOf result InclusionError.Relation
        → (length (joint_symbols a.now.symbols b.now.symbols) ≤ 65535)
        × ((20000 < length a.now.states) ⊎ (20000 < length b.now.states)) }
{
    if let Err(error) = judge_symbols(alloc, a, b) {
        return Err(error);
    }
    if a.states().len() > MOST_STATES {
        return Err(InclusionError::Relation);
    }
    if b.states().len() > MOST_STATES {
        return Err(InclusionError::Relation);
    }
    Ok(())
}
