//! The union of two automata.

ghost use Rattle.std.specs.Prelude.{◌≡◌, ◌≢◌, ◌<◌, ◌≤◌, ◌+◌, ℕ, List, All, AllPairs, IfOk, length, map, ◌++◌, codes};
ghost use Rattle.std.specs.List.{AllZip};
ghost use Rattle.tree_definitions.specs.Joint.{right, joint_symbols};
ghost use Rattle.tree_definitions.specs.Name.{IsName};
ghost use Rattle.tree_definitions.specs.Relation.{IsAt};
ghost use Rattle.tree_definitions.specs.Union.{IsUnion};
ghost use Rattle.ta_model.specs.Pairing.{ArePaired};
ghost use Rattle.explicit_ta.specs.Pair.{joint_rules, marked};

use crate::pair::rules_of_both;
use std::alloc::{AllocError, Global};
use ta_model::{Listed, Name, Rule, Symbol};

/// The name with the mark behind it.
fn marked_name(alloc: Global, name: &Name, mark: &[u8]) -> Result<Name, AllocError>
    requires { IsName (name.now ++ mark.now) }
    ensures { IfOk result (λ n. n ≡ name.now ++ mark.now) }
{
    let mut bytes = Vec::from_slice(alloc, name.bytes())?;
    bytes.extend_from_slice(mark)?;
    Name::known(alloc, &bytes)
}

/// Appends the names with the mark behind each.
fn add_marked(
    alloc: Global,
    names: &[Name],
    mark: &[u8],
    all: &mut Vec<Name>,
) -> Result<(), AllocError>
    requires { All (λ n. IsName (n ++ mark.now)) names.now }
    ensures { IfOk result (λ _. all.new.items ≡ all.old.items ++ marked mark.now names.now) }
{
    for name in names {
        all.push(marked_name(alloc, name, mark)?)?;
    }
    Ok(())
}

/// The final states of both at joint places.
fn finals_of_both(
    alloc: Global,
    left: &[u32],
    right: &[u32],
    states: u32,
) -> Result<Vec<u32>, AllocError>
    requires { All (λ s. states + s < 4294967296) right.now }
    ensures { IfOk result (λ v. v.items ≡ left.now ++ map (λ s. states + s) right.now) }
{
    let mut finals = Vec::from_slice(alloc, left)?;
    for s in right {
        finals.push(states + *s)?;
    }
    Ok(finals)
}

/// The union of the two, over these joint symbols and with these places of the right ones.
pub fn union_of(
    left: &Listed,
    right: &Listed,
    symbols: &[Symbol],
    places: &[u32],
) -> Result<Listed, AllocError>
    requires paired { ArePaired left.now right.now }
    requires symbols { symbols.now ≡ joint_symbols left.now.symbols right.now.symbols }
    requires distinct { AllPairs ◌≢◌ symbols.now }
    requires places { AllZip (IsAt symbols.now) places.now right.now.symbols }
    ensures union { IfOk result (λ u. IsUnion left.now right.now u) }
    ensures rules { IfOk result (λ u. u.rules ≡ joint_rules left.now right.now places.now) }
    ensures states { IfOk result (λ u. length u.states ≡ length left.now.states + length right.now.states) }
{
    let alloc = left.allocator();
    let states = left.states().len() as u32;
    let name = Name::known(alloc, b"union")?;
    let joint = Vec::from_clones(alloc, symbols)?;
    let mut names = Vec::new(alloc);
    add_marked(alloc, left.states(), b"_1", &mut names)?;
    add_marked(alloc, right.states(), b"_2", &mut names)?;
    let finals = finals_of_both(alloc, left.finals(), right.finals(), states)?;
    let rules = rules_of_both(alloc, left, right, places)?;
    Ok(Listed::new(name, joint, names, finals, rules))
}
