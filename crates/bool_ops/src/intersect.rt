//! The product of two automata, however they are kept.

ghost use Rattle.std.specs.Prelude.{◌≡◌, ◌≢◌, ◌≤◌, ◌↔◌, IfOk, OnOk, IsErrOf, AllPairs, length};
ghost use Rattle.tree_definitions.specs.Automaton.{HasRule};
ghost use Rattle.tree_definitions.specs.Joint.{joint_symbols};
ghost use Rattle.tree_definitions.specs.Language.{Accepts};
ghost use Rattle.tree_definitions.specs.Tree.{Tree};
ghost use Rattle.ranked_alphabet.specs.Alphabets.{IsAlphabet};
ghost use Rattle.ta_model.specs.Listing.{IsListed};
ghost use Rattle.bool_ops.specs.Closing.{IsClosed};
ghost use Rattle.bool_ops.specs.Joined.{StandFor};
ghost use Rattle.bool_ops.specs.Results.{HasMoreRules, HasMoreStates, IsCanonicalProduct};

use crate::by_place::ByPlace;
use crate::close::{MOST_RULES, close};
use crate::error::OpError;
use crate::pairs::Pairs;
use crate::product::{finals, in_order, names, row_of, rules_of};
use crate::reached::Reached;
use crate::renumber::{joined_symbols, renumber};
use ranked_alphabet::Alphabet;
use std::alloc::Global;
use ta_model::{Joint, Listed, Name, Rule};
use trim_ops::rules_by_child;

/// The product of both, of the pairs of states and of rules that were found.
fn assemble(
    alloc: Global,
    left: &Listed,
    right: &Listed,
    alphabet: &Alphabet,
    theirs: &[Rule],
    pairs: &Pairs,
    found: &Pairs,
) -> Result<Listed, OpError>
    requires left { IsListed left.now }
    requires right { IsListed right.now }
    requires few_symbols { length (joint_symbols left.now.symbols right.now.symbols) ≤ 65535 }
    requires symbols { alphabet.now ≡ joint_symbols left.now.symbols right.now.symbols }
    requires stand { StandFor alphabet.now (HasRule left.now) (HasRule right.now) left.now.rules theirs.now }
    requires distinct { AllPairs ◌≢◌ theirs.now }
    requires closed { IsClosed left.now.rules theirs.now pairs.now found.now }
    requires few { length found.now ≤ 2000000 }
    ensures product { IfOk result (λ p. IsCanonicalProduct left.now right.now p) }
    ensures listed { IfOk result IsListed }
    ensures few_states { IfOk result (λ p. length p.states ≤ 1000000) }
    ensures few_rules { IfOk result (λ p. length p.rules ≤ 2000000) }
    ensures states { IsErrOf result OpError.TooManyStates → ⊥ }
    ensures rules { IsErrOf result OpError.TooManyRules → ⊥ }
{
    let states = in_order(alloc, pairs)?;
    let _pairs = found.len();
    let left_finals = row_of(alloc, left.states().len(), left.finals())?;
    let right_finals = row_of(alloc, right.states().len(), right.finals())?;
    let finals = finals(alloc, &states, &left_finals, &right_finals)?;
    let rules = rules_of(alloc, left.rules(), theirs, &states, found)?;
    let names = names(alloc, &states)?;
    let name = Name::known(alloc, b"isect")?;
    let symbols = Vec::from_clones(alloc, alphabet.symbols())?;
    let product = Listed::new(name, symbols, names, finals, rules);
    let _name = product.name();
    let canonical = product.canon()?;
    let _rules = canonical.rules();
    Ok(canonical)
}

/// The product of both in canonical form.
fn product_of(alloc: Global, left: &Listed, right: &Listed) -> Result<Listed, OpError>
    requires left { IsListed left.now }
    requires right { IsListed right.now }
    requires few_symbols { length (joint_symbols left.now.symbols right.now.symbols) ≤ 65535 }
    ensures product { IfOk result (λ p. IsCanonicalProduct left.now right.now p) }
    ensures listed { IfOk result IsListed }
    ensures few_states { IfOk result (λ p. length p.states ≤ 1000000) }
    ensures few_rules { IfOk result (λ p. length p.rules ≤ 2000000) }
    ensures states { IsErrOf result OpError.TooManyStates → HasMoreStates left.now right.now 1000000 }
    ensures rules { IsErrOf result OpError.TooManyRules → HasMoreRules left.now right.now 2000000 }
    ensures states_first { IsErrOf result OpError.TooManyRules → ¬ HasMoreStates left.now right.now 1000000 }
    ensures fewer_states { OnOk result (¬ HasMoreStates left.now right.now 1000000) }
    ensures fewer_rules { OnOk result (¬ HasMoreRules left.now right.now 2000000) }
{
    let (alphabet, numbers) = joined_symbols(alloc, left, right)?;
    let theirs = renumber(alloc, right.rules(), &numbers)?;
    let by_child = rules_by_child(alloc, left.rules(), left.states().len())?;
    let by_place = ByPlace::new(alloc, &theirs)?;
    let mut pairs = Reached::new(alloc);
    let mut found = Pairs::new(alloc);
    if let Err(error) = close(
        left.rules(),
        &theirs,
        &by_child,
        &by_place,
        &mut pairs,
        &mut found,
    ) {
        let _pairs = pairs.len();
        return Err(error);
    }
    if MOST_RULES < found.len() {
        return Err(OpError::TooManyRules);
    }
    assemble(
        alloc,
        left,
        right,
        &alphabet,
        &theirs,
        pairs.pairs(),
        &found,
    )
}

/// The product of both automata in canonical form, named `isect`. Its states are the pairs of places
/// I and J that one tree reaches together, named `pI_J`, in order of I and then J. It has
/// at most 1,000,000 states and 2,000,000 rules.
pub fn isect<J: Joint>(alloc: Global, j: &J) -> Result<Listed, OpError>
    ensures automaton { IfOk result (λ p. IsCanonicalProduct (J.left j.now) (J.right j.now) p) }
    ensures language { IfOk result (λ p. (t : Tree) → Accepts p t ↔ (Accepts (J.left j.now) t × Accepts (J.right j.now) t)) }
    ensures listed { IfOk result IsListed }
    ensures few_states { IfOk result (λ p. length p.states ≤ 1000000) }
    ensures few_rules { IfOk result (λ p. length p.rules ≤ 2000000) }
    ensures states { IsErrOf result OpError.TooManyStates → HasMoreStates (J.left j.now) (J.right j.now) 1000000 }
    ensures rules { IsErrOf result OpError.TooManyRules → HasMoreRules (J.left j.now) (J.right j.now) 2000000 }
    ensures states_first { IsErrOf result OpError.TooManyRules → ¬ HasMoreStates (J.left j.now) (J.right j.now) 1000000 }
    ensures fewer_states { OnOk result (¬ HasMoreStates (J.left j.now) (J.right j.now) 1000000) }
    ensures fewer_rules { OnOk result (¬ HasMoreRules (J.left j.now) (J.right j.now) 2000000) }
{
    let _symbols = j.symbols();
    let (left, right) = j.listed()?;
    product_of(alloc, &left, &right)
}
