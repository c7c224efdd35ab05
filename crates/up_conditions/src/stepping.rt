//! The step of B from the sets of listed pairs.

ghost use Rattle.std.specs.Prelude.{◌≡◌, ◌<◌, ◌^◌, ◌↔◌, ◌⊎◌, ℕ, List, All, IsTrue, IfOk, length};
ghost use Rattle.tree_definitions.specs.Automaton.{Rule};
ghost use Rattle.tree_definitions.specs.Cover.{Post};
ghost use Rattle.tree_definitions.specs.Relation.{Has, Row};
ghost use Rattle.trim_ops.specs.Marking.{AreWithin, IsWithin};
ghost use Rattle.up_conditions.specs.Listed.{AreBySymbol};
ghost use Rattle.up_conditions.specs.Stepping.{AreInSets, AreSets, IsParentAt};

use bit_rows::Row;
use listed_pairs::Pair;
use ranked_alphabet::Alphabet;
use std::alloc::{AllocError, Global};
use ta_model::{Listed, Rule, Symbol};
use trim_ops::RuleIndex;

/// For each symbol, given by its place, the places of the rules with it.
pub fn rules_by_symbol(
    alloc: Global,
    rules: &[Rule],
    symbols: usize,
) -> Result<RuleIndex, AllocError>
    requires within { All (λ rule. rule.symbol < symbols) rules.now }
    requires few { length rules.now < 2 ^ 32 }
    ensures index { IfOk result (λ u. AreBySymbol rules.now u) }
    ensures size { IfOk result (λ u. length u ≡ symbols) }
{
    let mut index = RuleIndex::new(alloc, symbols)?;
    for (r, rule) in rules.iter().enumerate() {
        index.add(rule.symbol as usize, r as u32)?;
    }
    Ok(index)
}

/// Whether each child is in the set of the pair at the chosen place.
fn are_in_sets(pairs: &[Pair], chosen: &[u32], kids: &[u32]) -> bool
    requires within { All (λ pair. All (λ q. q < length pair.set) kids.now) pairs.now }
    requires chosen { All (λ k. k < length pairs.now) chosen.now }
    ensures { IsTrue result ↔ AreInSets pairs.now chosen.now kids.now }
{
    if chosen.len() != kids.len() {
        return false;
    }
    for i in 0..chosen.len() {
        let pair = &pairs[chosen[i] as usize];
        if !pair.set.get(kids[i] as usize) {
            return false;
        }
    }
    true
}

/// Adds the rule's parent where its children are in the sets.
fn add_parent(rule: &Rule, pairs: &[Pair], chosen: &[u32], row: &mut Row)
    requires rule { IsWithin (length row.old) rule.now }
    requires sets { All (λ pair. length pair.set ≡ length row.old) pairs.now }
    requires chosen { All (λ k. k < length pairs.now) chosen.now }
    ensures long { length row.new ≡ length row.old }
    ensures members { (s : ℕ) → Has row.new s ↔ (Has row.old s ⊎ ((rule.now.parent ≡ s) × AreInSets pairs.now chosen.now rule.now.kids)) }
{
    if are_in_sets(pairs, chosen, rule.kids.as_slice()) {
        row.set(rule.parent as usize);
    }
}

/// The parents of the rules in the list whose children are in the sets.
fn parents_of(
    alloc: Global,
    states: usize,
    rules: &[Rule],
    list: &[u32],
    pairs: &[Pair],
    chosen: &[u32],
) -> Result<Row, AllocError>
    requires rules { AreWithin states rules.now }
    requires list { All (λ r. r < length rules.now) list.now }
    requires sets { All (λ pair. length pair.set ≡ states) pairs.now }
    requires chosen { All (λ k. k < length pairs.now) chosen.now }
    ensures long { IfOk result (λ row. length row ≡ states) }
    ensures members { IfOk result (λ row. (s : ℕ) → Has row s ↔ ((k : ℕ) × IsParentAt rules.now list.now pairs.now chosen.now k s)) }
{
    let mut row = Row::zeros(alloc, states)?;
    for r in list {
        add_parent(&rules[*r as usize], pairs, chosen, &mut row);
    }
    Ok(row)
}

/// The step of the automaton under a symbol from the sets of the pairs at the chosen places. The
/// row is empty where the automaton lacks the symbol.
pub fn post(
    alloc: Global,
    b: &Listed,
    symbols: &Alphabet,
    by_symbol: &RuleIndex,
    symbol: &Symbol,
    pairs: &[Pair],
    chosen: &[u32],
) -> Result<Row, AllocError>
    requires symbols { symbols.now ≡ b.now.symbols }
    requires by_symbol { AreBySymbol b.now.rules by_symbol.now }
    requires size { length by_symbol.now ≡ length b.now.symbols }
    requires sets { All (λ pair. length pair.set ≡ length b.now.states) pairs.now }
    requires chosen { All (λ k. k < length pairs.now) chosen.now }
    ensures long { IfOk result (λ row. length row ≡ length b.now.states) }
    ensures members { IfOk result (λ row. (sets : List Row) → AreSets pairs.now chosen.now sets → (s : ℕ) → Has row s ↔ Post b.now symbol.now sets s) }
{
    let states = b.states().len();
    let Some(k) = symbols.find(symbol) else {
        return Row::zeros(alloc, states);
    };
    parents_of(
        alloc,
        states,
        b.rules(),
        by_symbol.at(k as usize),
        pairs,
        chosen,
    )
}
