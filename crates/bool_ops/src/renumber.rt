//! The rules of both automata over one list of symbols.

ghost use Rattle.std.specs.Prelude.{◌≡◌, ◌<◌, ◌≤◌, IfOk, All, length, map};
ghost use Rattle.std.specs.List.{AllZip};
ghost use Rattle.tree_definitions.specs.Joint.{joint_symbols};
ghost use Rattle.tree_definitions.specs.Relation.{IsAt};
ghost use Rattle.ranked_alphabet.specs.Alphabets.{IsAlphabet};
ghost use Rattle.bool_ops.specs.Joined.{renumbered};

use ranked_alphabet::{Alphabet, AlphabetError};
use smallvec::SmallVec;
use std::alloc::{AllocError, Global};
use ta_model::{Listed, Rule};

/// The symbols of the automaton.
fn alphabet_of(alloc: Global, a: &Listed) -> Result<Alphabet, AllocError>
    ensures { IfOk result (λ symbols. symbols ≡ a.now.symbols) }
{
    match Alphabet::of(alloc, a.symbols()) {
        Ok(alphabet) => Ok(alphabet),
        Err(AlphabetError::Memory) => Err(AllocError),
        Err(AlphabetError::Full) => unreachable!(),
    }
}

/// The symbols of both, those of the right behind those of the left that they aren't among, and the
/// number of each symbol of the right.
pub(crate) fn joined_symbols(
    alloc: Global,
    left: &Listed,
    right: &Listed,
) -> Result<(Alphabet, Vec<u32>), AllocError>
    requires { length (joint_symbols left.now.symbols right.now.symbols) ≤ 65535 }
    ensures symbols { IfOk result (λ r. r.0 ≡ joint_symbols left.now.symbols right.now.symbols) }
    ensures numbers { IfOk result (λ r. AllZip (IsAt r.0) r.1.items right.now.symbols) }
    ensures alphabet { IfOk result (λ r. IsAlphabet r.0) }
{
    let ours = alphabet_of(alloc, left)?;
    let theirs = alphabet_of(alloc, right)?;
    match ours.merge(&theirs) {
        Ok(joined) => Ok(joined),
        Err(AlphabetError::Memory) => Err(AllocError),
        Err(AlphabetError::Full) => unreachable!(),
    }
}

/// The rules, each symbol replaced by its number.
pub(crate) fn renumber(
    alloc: Global,
    rules: &[Rule],
    numbers: &[u32],
) -> Result<Vec<Rule>, AllocError>
    requires { All (λ rule. rule.symbol < length numbers.now) rules.now }
    ensures { IfOk result (λ v. v.items ≡ map (renumbered numbers.now) rules.now) }
{
    let mut renumbered = Vec::with_capacity(alloc, rules.len())?;
    for rule in rules {
        renumbered.push(Rule {
            symbol: numbers[rule.symbol as usize],
            kids: SmallVec::from_slice(alloc, rule.kids.as_slice())?,
            parent: rule.parent,
        })?;
    }
    Ok(renumbered)
}
