//! Rules in order of their children.

ghost use Rattle.std.specs.Prelude.{◌≡◌, ◌≢◌, ◌↔◌, AllPairs, Contains, IfOk};
ghost use Rattle.std.specs.List.Sorted.{IsNonDecreasingBy};
ghost use Rattle.tree_definitions.specs.Automaton.{Rule as RuleSpec};
ghost use Rattle.explicit_ta.specs.Index.{HaveSameRules};

use std::alloc::{AllocError, Global};
use std::marker::Model;
use ta_model::Rule;

/// Rules in order of their children, those with the same children in order of their symbols.
#[derive(Drop)]
pub struct ByKids {
    rules: Vec<Rule>,
}

impl Model for ByKids {
    ghost use Rattle.std.specs.Prelude.{List};
    ghost use Rattle.std.specs.List.Sorted.{IsSorted};
    ghost use Rattle.tree_definitions.specs.Automaton.{Rule as RuleSpec};
    ghost use Rattle.explicit_ta.specs.Index.{children_cmp};

    ghost Value = { List RuleSpec };

    ghost view = { λ b. b.rules.items };

    ghost invariant = { λ b. IsSorted children_cmp b.rules.items };
}

impl ByKids {
    /// These rules.
    pub fn new(alloc: Global, rules: &[Rule]) -> Result<ByKids, AllocError>
        ensures same { IfOk result (λ b. HaveSameRules b rules.now) }
        ensures distinct { AllPairs ◌≢◌ rules.now → IfOk result (λ b. AllPairs ◌≢◌ b) }
    {
        let mut sorted = Vec::from_clones(alloc, rules)?;
        sorted.sort_by(|r, s| {
            r.kids
                .as_slice()
                .cmp(s.kids.as_slice())
                .then(r.symbol.cmp(&s.symbol))
        })?;
        Ok(ByKids { rules: sorted })
    }

    /// The rules with these children, by symbol.
    pub fn at(&self, kids: &[u32]) -> &[Rule]
        ensures members { (r : RuleSpec) → Contains result.now r ↔ (Contains self.now r × (r.kids ≡ kids.now)) }
        ensures rising { IsNonDecreasingBy (λ (r : RuleSpec). r.symbol) result.now }
        ensures distinct { AllPairs ◌≢◌ self.now → AllPairs ◌≢◌ result.now }
    {
        let from = self
            .rules
            .partition_point(|r| r.kids.as_slice().cmp(kids).is_lt());
        let rest = &self.rules[from..];
        let to = rest.partition_point(|r| r.kids.as_slice().cmp(kids).is_le());
        &rest[..to]
    }
}
