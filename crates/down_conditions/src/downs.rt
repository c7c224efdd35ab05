//! The child tuples of B's rules under a symbol to a set, by the places of the rules.

ghost use Rattle.std.specs.Prelude.{◌≡◌, ◌<◌, ◌^◌, ◌↔◌, ◌⊎◌, ℕ, All, Contains, IfOk, length};
ghost use Rattle.tree_definitions.specs.Relation.{Has};
ghost use Rattle.down_conditions.specs.Filing.{AreBySymbol};
ghost use Rattle.down_conditions.specs.Refuting.{AreDowns, IsChosen};

use bit_rows::Row;
use ranked_alphabet::{Alphabet, AlphabetError};
use std::alloc::{AllocError, Global};
use ta_model::{Listed, Rule, Symbol};
use trim_ops::RuleIndex;

/// The symbols of the automaton, to be looked up.
pub fn alphabet_of(alloc: Global, b: &Listed) -> Result<Alphabet, AllocError>
    ensures { IfOk result (λ alphabet. alphabet ≡ b.now.symbols) }
{
    match Alphabet::of(alloc, b.symbols()) {
        Ok(alphabet) => Ok(alphabet),
        Err(AlphabetError::Memory) => Err(AllocError),
        Err(AlphabetError::Full) => unreachable!(),
    }
}

/// For each symbol, given by its place, the places of the rules with it.
pub fn rules_by_symbol(
    alloc: Global,
    rules: &[Rule],
    symbols: usize,
) -> Result<RuleIndex, AllocError>
    requires within { All (λ rule. rule.symbol < symbols) rules.now }
    requires few { length rules.now < 2 ^ 32 }
    ensures index { IfOk result (λ u. AreBySymbol rules.now u) }
    ensures size { IfOk result (λ u. length u ≡ symbols) }
{
    let mut index = RuleIndex::new(alloc, symbols)?;
    for (r, rule) in rules.iter().enumerate() {
        index.add(rule.symbol as usize, r as u32)?;
    }
    Ok(index)
}

/// Adds the rule's place where its parent is in the set.
fn keep(chosen: &mut Vec<u32>, rule: &Rule, r: u32, set: &Row) -> Result<(), AllocError>
    requires { rule.now.parent < length set.now }
    ensures { IfOk result (λ _. (x : ℕ) → Contains chosen.new.items x ↔ (Contains chosen.old.items x ⊎ ((x ≡ r) × Has set.now rule.now.parent))) }
{
    if !set.get(rule.parent as usize) {
        return Ok(());
    }
    chosen.push(r)?;
    Ok(())
}

/// Those rules of the list whose parent is in the set.
fn rules_to(alloc: Global, b: &Listed, list: &[u32], set: &Row) -> Result<Vec<u32>, AllocError>
    requires list { All (λ r. r < length b.now.rules) list.now }
    requires set { length set.now ≡ length b.now.states }
    ensures { IfOk result (λ v. (r : ℕ) → Contains v.items r ↔ IsChosen b.now.rules list.now set.now (length list.now) r) }
{
    let mut chosen = Vec::new(alloc);
    for r in list {
        keep(&mut chosen, &b.rules()[*r as usize], *r, set)?;
    }
    Ok(chosen)
}

/// The rules of B under the symbol whose parent is in the set, none where B lacks the symbol.
pub fn downs(
    alloc: Global,
    b: &Listed,
    alphabet: &Alphabet,
    by_symbol: &RuleIndex,
    symbol: &Symbol,
    set: &Row,
) -> Result<Vec<u32>, AllocError>
    requires alphabet { alphabet.now ≡ b.now.symbols }
    requires by_symbol { AreBySymbol b.now.rules by_symbol.now }
    requires size { length by_symbol.now ≡ length b.now.symbols }
    requires set { length set.now ≡ length b.now.states }
    ensures within { IfOk result (λ v. All (λ r. r < length b.now.rules) v.items) }
    ensures downs { IfOk result (λ v. AreDowns b.now symbol.now set.now v.items) }
{
    // The call tells the proof that the automaton is narrow.
    let _symbols = b.symbols();
    let Some(k) = alphabet.find(symbol) else {
        return Ok(Vec::new(alloc));
    };
    rules_to(alloc, b, by_symbol.at(k as usize), set)
}
