//! An automaton as lists.

ghost use Rattle.std.specs.Prelude.{◌≡◌, ◌≢◌, IfOk, AllPairs};
ghost use Rattle.std.specs.List.Sorted.{IsPermutation};
ghost use Rattle.std.specs.Ordering.{nat_cmp};
ghost use Rattle.tree_definitions.specs.Canonical.{canon, in_order, rule_cmp};
ghost use Rattle.ta_model.specs.Listing.{IsListed};

use crate::name::Name;
use crate::rule::Rule;
use crate::symbol::Symbol;
use std::alloc::{AllocError, Global};
use std::marker::Model;

/// A narrow automaton: a name, symbols, state names, places of final states and rules, each list without
/// repeats and each place in range. At most 65,535 symbols, and fewer than 4,294,967,295 states and
/// rules.
#[derive(Debug, Drop)]
pub struct Listed {
    name: Name,
    symbols: Vec<Symbol>,
    states: Vec<Name>,
    finals: Vec<u32>,
    rules: Vec<Rule>,
}

impl Model for Listed {
    ghost use Rattle.tree_definitions.specs.Automaton.{Automaton};
    ghost use Rattle.ta_model.specs.Listing.{IsListed};

    ghost Value = { Automaton };

    ghost view = { λ a. record {
      bits = 0;
      name = a.name;
      symbols = a.symbols.items;
      states = a.states.items;
      finals = a.finals.items;
      rules = a.rules.items;
    } };

    ghost invariant = { λ a. IsListed (record {
      bits = 0;
      name = a.name;
      symbols = a.symbols.items;
      states = a.states.items;
      finals = a.finals.items;
      rules = a.rules.items;
    }) };
}

/// The numbers in rising order.
fn finals_in_order(alloc: Global, finals: &[u32]) -> Result<Vec<u32>, AllocError>
    requires { AllPairs ◌≢◌ finals.now }
    ensures permutation { IfOk result (λ v. IsPermutation finals.now v.items) }
    ensures sorted { IfOk result (λ v. v.items ≡ in_order nat_cmp finals.now) }
{
    let mut sorted = Vec::from_slice(alloc, finals)?;
    sorted.sort()?;
    Ok(sorted)
}

/// The rules in rising order.
fn rules_in_order(alloc: Global, rules: &[Rule]) -> Result<Vec<Rule>, AllocError>
    requires { AllPairs ◌≢◌ rules.now }
    ensures permutation { IfOk result (λ v. IsPermutation rules.now v.items) }
    ensures sorted { IfOk result (λ v. v.items ≡ in_order rule_cmp rules.now) }
{
    let mut sorted = Vec::from_clones(alloc, rules)?;
    sorted.sort()?;
    Ok(sorted)
}

impl Listed {
    /// The automaton with these lists.
    pub fn new(
        name: Name,
        symbols: Vec<Symbol>,
        states: Vec<Name>,
        finals: Vec<u32>,
        rules: Vec<Rule>,
    ) -> Listed
        requires { IsListed (record {
          bits = 0;
          name = name;
          symbols = symbols.items;
          states = states.items;
          finals = finals.items;
          rules = rules.items;
        }) }
        ensures { result ≡ record {
          bits = 0;
          name = name;
          symbols = symbols.items;
          states = states.items;
          finals = finals.items;
          rules = rules.items;
        } }
    {
        Listed {
            name,
            symbols,
            states,
            finals,
            rules,
        }
    }

    /// The allocator of its lists.
    pub fn allocator(&self) -> Global {
        *self.rules.allocator()
    }

    pub fn name(&self) -> &Name
        ensures value { result.now ≡ self.now.name }
        ensures listed { IsListed self.now }
    {
        &self.name
    }

    pub fn symbols(&self) -> &[Symbol]
        ensures value { result.now ≡ self.now.symbols }
        ensures listed { IsListed self.now }
    {
        &self.symbols
    }

    pub fn states(&self) -> &[Name]
        ensures value { result.now ≡ self.now.states }
        ensures listed { IsListed self.now }
    {
        &self.states
    }

    /// Places of final states.
    pub fn finals(&self) -> &[u32]
        ensures value { result.now ≡ self.now.finals }
        ensures listed { IsListed self.now }
    {
        &self.finals
    }

    pub fn rules(&self) -> &[Rule]
        ensures value { result.now ≡ self.now.rules }
        ensures listed { IsListed self.now }
    {
        &self.rules
    }

    /// The same automaton with its finals and its rules in rising order.
    pub fn canon(&self) -> Result<Listed, AllocError>
        ensures { IfOk result (λ a. a ≡ canon self.now) }
    {
        let alloc = *self.rules.allocator();
        let name = self.name.clone()?;
        let symbols = Vec::from_clones(alloc, &self.symbols)?;
        let states = Vec::from_clones(alloc, &self.states)?;
        let finals = finals_in_order(alloc, &self.finals)?;
        let rules = rules_in_order(alloc, &self.rules)?;
        Ok(Listed {
            name,
            symbols,
            states,
            finals,
            rules,
        })
    }
}
