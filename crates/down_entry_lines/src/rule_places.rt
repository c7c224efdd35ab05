//! Rules and their places.

ghost use Rattle.std.specs.Prelude.{◌≡◌, ◌≢◌, ◌<◌, ◌++◌, ◌∷◌, [], length, AllPairs, Contains, IfOk, OnOk};
ghost use Rattle.down_entry_lines.specs.Entries.{rule_place};

use indexmap::IndexSet;
use std::alloc::{AllocError, Global};
use std::hash::{BuildHasherDefault, DefaultHasher};
use std::marker::Model;
use ta_model::Rule;

/// Distinct rules in order. They are seen as their list.
///
/// A rule is looked up by a hash of its places (SipHash with a fixed key).
#[derive(Drop)]
pub(crate) struct RulePlaces {
    rules: IndexSet<Rule, BuildHasherDefault<DefaultHasher>>,
}

impl Model for RulePlaces {
    ghost use Rattle.std.specs.Prelude.{◌<◌, List, length};
    ghost use Rattle.tree_definitions.specs.Automaton.{Rule as RuleSpec};

    ghost Value = { List RuleSpec };

    ghost view = { λ p. p.rules.keys };

    ghost invariant = { λ p. length p.rules.keys < 4294967296 };
}

impl RulePlaces {
    /// No rules, and room for so many.
    fn with_room(alloc: Global, room: usize) -> Result<RulePlaces, AllocError>
        ensures { IfOk result (λ p. p ≡ []) }
    {
        Ok(RulePlaces {
            rules: IndexSet::with_capacity_and_hasher(alloc, room, BuildHasherDefault::new())?,
        })
    }

    /// Appends a rule that the list lacks.
    fn append(&mut self, rule: &Rule) -> Result<(), AllocError>
        requires lacks { Contains self.old rule.now → ⊥ }
        requires room { length self.old < 4294967295 }
        ensures { OnOk result (self.new ≡ self.old ++ rule.now ∷ []) }
    {
        let copy = rule.clone()?;
        self.rules.insert(copy)?;
        Ok(())
    }

    /// The rules of a list of distinct ones, in its order.
    pub(crate) fn of(alloc: Global, rules: &[Rule]) -> Result<RulePlaces, AllocError>
        requires distinct { AllPairs ◌≢◌ rules.now }
        requires few { length rules.now < 4294967295 }
        ensures { IfOk result (λ p. p ≡ rules.now) }
    {
        let mut places = RulePlaces::with_room(alloc, rules.len())?;
        for rule in rules {
            places.append(rule)?;
        }
        Ok(places)
    }

    /// The place of the rule. Takes no memory.
    pub(crate) fn find(&self, rule: &Rule) -> Option<u32>
        ensures { result ≡ rule_place self.now rule.now }
    {
        match self.rules.get_index_of(rule) {
            Some(i) => Some(i as u32),
            None => None,
        }
    }
}
