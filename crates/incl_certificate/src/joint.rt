//! The symbols of two automata together.

ghost use Rattle.std.specs.Prelude.{◌≡◌, ◌≢◌, ◌↔◌, ◌∷◌, [], AllPairs, IfOk, IsTrue, OnOk, length, take};
ghost use Rattle.std.specs.List.{list_any};
ghost use Rattle.tree_definitions.specs.Joint.{joint_symbols, same_symbol};
ghost use Rattle.witness_trees.specs.Nodes.{IsNodeList};
ghost use Rattle.incl_certificate.specs.Joint.{lacking};

use indexmap::IndexSet;
use std::alloc::{AllocError, Global};
use std::hash::{BuildHasherDefault, DefaultHasher};
use ta_model::Symbol;
use witness_trees::Nodes;

/// Distinct symbols in order, looked up by a hash of their bytes (SipHash with a fixed key).
pub type SymbolSet = IndexSet<Symbol, BuildHasherDefault<DefaultHasher>>;

/// Puts the symbol behind the others, unless it is there.
fn add(set: &mut SymbolSet, symbol: &Symbol) -> Result<(), AllocError>
    ensures { OnOk result (set.new.keys ≡ joint_symbols set.old.keys (symbol.now ∷ [])) }
{
    if set.contains(symbol) {
        return Ok(());
    }
    let copy = symbol.clone()?;
    set.insert(copy)?;
    Ok(())
}

/// Puts the symbols of a list of distinct ones behind the others, but for those that are there.
fn add_each(set: &mut SymbolSet, symbols: &[Symbol]) -> Result<(), AllocError>
    requires { AllPairs ◌≢◌ symbols.now }
    ensures { OnOk result (set.new.keys ≡ joint_symbols set.old.keys symbols.now) }
{
    for symbol in symbols {
        add(set, symbol)?;
    }
    Ok(())
}

/// The symbols of the first list, then those of the second that the first lacks.
pub fn joint_of(alloc: Global, first: &[Symbol], second: &[Symbol]) -> Result<SymbolSet, AllocError>
    requires first { AllPairs ◌≢◌ first.now }
    requires second { AllPairs ◌≢◌ second.now }
    ensures { IfOk result (λ joint. joint.keys ≡ joint_symbols first.now second.now) }
{
    let mut joint = IndexSet::with_hasher(alloc, BuildHasherDefault::new());
    add_each(&mut joint, first)?;
    add_each(&mut joint, second)?;
    Ok(joint)
}

/// Whether these are the symbols of the first list, then those of the second that the first lacks.
pub fn are_joint(first: &[Symbol], second: &[Symbol], nodes: &Nodes) -> bool
    ensures joint { IsTrue result ↔ (nodes.now.symbols ≡ joint_symbols first.now second.now) }
    ensures list { IsNodeList nodes.now }
{
    let symbols = nodes.symbols();
    if symbols.len() < first.len() {
        return false;
    }
    let (front, back) = symbols.split_at(first.len());
    if front != first {
        return false;
    }
    are_lacking(nodes, first.len(), second, back)
}

/// Whether the symbol is among the first ones of the nodes' symbols, so many.
fn is_before(nodes: &Nodes, count: usize, symbol: &Symbol) -> bool
    ensures { result ≡ list_any (same_symbol symbol.now) (take count nodes.now.symbols) }
{
    match nodes.find(symbol) {
        Some(i) => (i as usize) < count,
        None => false,
    }
}

/// Whether these are the symbols of the second list that are not among the first ones of the nodes'
/// symbols, so many.
fn are_lacking(nodes: &Nodes, count: usize, second: &[Symbol], symbols: &[Symbol]) -> bool
    ensures { IsTrue result ↔ (symbols.now ≡ lacking (take count nodes.now.symbols) second.now) }
{
    let mut rest = symbols;
    for symbol in second {
        if !is_before(nodes, count, symbol) {
            let Some((next, others)) = rest.split_first() else {
                return false;
            };
            if *next != *symbol {
                return false;
            }
            rest = others;
        }
    }
    rest.is_empty()
}
