//! The rules of B by symbol and by first child, to look its steps up.

ghost use Rattle.std.specs.Prelude.{◌≡◌, ◌<◌, ◌≤◌, ◌+◌, ◌↔◌, ◌⊎◌, ◌^◌, [], ℕ, All, Contains, IfOk, length};
ghost use Rattle.tree_definitions.specs.Relation.{Has};
ghost use Rattle.ta_model.specs.Listing.{IsListed};
ghost use Rattle.trim_ops.specs.Marking as marking;
ghost use Rattle.up_conditions.specs.Listed.{AreFiled};
ghost use Rattle.up_conditions.specs.Stepping.{AreListsOf, AreUnder, IsPlaceOf, IsUnder, IsUnderFrom, first_kid};

use crate::stepping::rules_by_symbol;
use bit_rows::Row;
use ranked_alphabet::{Alphabet, AlphabetError};
use std::alloc::{AllocError, Global};
use std::marker::Model;
use ta_model::{Listed, Rule, Symbol};
use trim_ops::RuleIndex;

/// The symbols of an automaton, and the places of its rules by symbol and by first child.
#[derive(Drop)]
pub(crate) struct StepIndex {
    alphabet: Alphabet,
    by_symbol: RuleIndex,
    by_first: RuleIndex,
}

impl Model for StepIndex {
    ghost use Rattle.up_conditions.specs.Stepping.{StepLists};

    ghost Value = { StepLists };

    ghost view = { λ s. record { symbols = s.alphabet; by_symbol = s.by_symbol; by_first = s.by_first } };
}

/// The first child, or the number of states where there is none.
fn first_or(rule: &Rule, states: usize) -> usize
    ensures { result ≡ first_kid states rule.now }
{
    let kids = rule.kids.as_slice();
    if kids.is_empty() {
        return states;
    }
    kids[0] as usize
}

/// For each state the places of the rules with it as the first child, and then of those without
/// children.
fn rules_by_first(alloc: Global, rules: &[Rule], states: usize) -> Result<RuleIndex, AllocError>
    requires within { marking.AreWithin states rules.now }
    requires few { length rules.now < 2 ^ 32 }
    requires states { states < 2 ^ 32 }
    ensures index { IfOk result (λ u. AreFiled (first_kid states) rules.now u) }
    ensures size { IfOk result (λ u. length u ≡ states + 1) }
{
    let mut index = RuleIndex::new(alloc, states + 1)?;
    for r in 0..rules.len() {
        let first = first_or(&rules[r], states);
        index.add(first, r as u32)?;
    }
    Ok(index)
}

/// Adds the rules of the list that are under the symbol.
fn with_more(
    rules: &[Rule],
    list: &[u32],
    symbol: u32,
    mut found: Vec<u32>,
) -> Result<Vec<u32>, AllocError>
    requires { All (λ r. r < length rules.now) list.now }
    ensures { IfOk result (λ v. (r : ℕ) → Contains v.items r ↔ (Contains found.items r ⊎ (Contains list.now r × IsUnder rules.now symbol r))) }
{
    for r in list {
        let rule = &rules[*r as usize];
        if rule.symbol == symbol {
            found.push(*r)?;
        }
    }
    Ok(found)
}

impl StepIndex {
    pub(crate) fn of(alloc: Global, b: &Listed) -> Result<StepIndex, AllocError>
        ensures { IfOk result (λ s. AreListsOf b.now s) }
    {
        let alphabet = match Alphabet::of(alloc, b.symbols()) {
            Ok(alphabet) => alphabet,
            Err(AlphabetError::Memory) => return Err(AllocError),
            Err(AlphabetError::Full) => unreachable!(),
        };
        let by_symbol = rules_by_symbol(alloc, b.rules(), b.symbols().len() + 1)?;
        let by_first = rules_by_first(alloc, b.rules(), b.states().len())?;
        Ok(StepIndex {
            alphabet,
            by_symbol,
            by_first,
        })
    }

    /// The place of the symbol, or the number of symbols where it is none of B's.
    pub(crate) fn place_of(&self, b: &Listed, symbol: &Symbol) -> u32
        requires { AreListsOf b.now self.now }
        ensures place { IsPlaceOf b.now.symbols symbol.now result }
        ensures listed { IsListed b.now }
    {
        let count = b.symbols().len();
        match self.alphabet.find(symbol) {
            Some(k) => k,
            None => count as u32,
        }
    }

    /// The places of the rules under the symbol at this place.
    pub(crate) fn under<'a>(&'a self, b: &Listed, symbol: u32) -> &'a [u32]
        requires lists { AreListsOf b.now self.now }
        requires symbol { symbol ≤ length b.now.symbols }
        ensures under { AreUnder b.now.rules symbol result.now }
        ensures within { All (λ r. r < length b.now.rules) result.now }
    {
        self.by_symbol.at(symbol as usize)
    }

    /// The places of the rules under the symbol at this place whose first child is in the set.
    pub(crate) fn under_from(
        &self,
        alloc: Global,
        b: &Listed,
        symbol: u32,
        set: &Row,
    ) -> Result<Vec<u32>, AllocError>
        requires lists { AreListsOf b.now self.now }
        requires set { length set.now ≡ length b.now.states }
        ensures { IfOk result (λ v. (r : ℕ) → Contains v.items r ↔ ((q : ℕ) × Has set.now q × IsUnderFrom b.now.rules symbol q r)) }
    {
        let mut found = Vec::new(alloc);
        let mut from = 0;
        while let Some(q) = set.first_from(from) {
            found = with_more(b.rules(), self.by_first.at(q), symbol, found)?;
            from = q + 1;
        }
        Ok(found)
    }
}
