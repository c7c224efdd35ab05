//! Rules in order, to look them up.

ghost use Rattle.std.specs.Prelude.{◌↔◌, Contains, IfOk, IsTrue};
ghost use Rattle.tree_definitions.specs.Automaton.{Rule as RuleSpec};

use std::alloc::{AllocError, Global};
use std::marker::Model;
use ta_model::Rule;

/// Rules in rising order.
#[derive(Drop)]
pub(crate) struct SortedRules {
    rules: Vec<Rule>,
}

impl Model for SortedRules {
    ghost use Rattle.std.specs.Prelude.{List};
    ghost use Rattle.std.specs.List.Sorted.{IsSorted};
    ghost use Rattle.tree_definitions.specs.Automaton.{Rule as RuleSpec};
    ghost use Rattle.tree_definitions.specs.Canonical.{rule_cmp};

    ghost Value = { List RuleSpec };

    ghost view = { λ s. s.rules.items };

    ghost invariant = { λ s. IsSorted rule_cmp s.rules.items };
}

impl SortedRules {
    /// These rules.
    pub(crate) fn new(alloc: Global, rules: &[Rule]) -> Result<SortedRules, AllocError>
        ensures { IfOk result (λ s. (rule : RuleSpec) → Contains s rule ↔ Contains rules.now rule) }
    {
        let mut sorted = Vec::from_clones(alloc, rules)?;
        sorted.sort()?;
        Ok(SortedRules { rules: sorted })
    }

    /// Whether this rule is among them.
    pub(crate) fn has(&self, rule: &Rule) -> bool
        ensures { IsTrue result ↔ Contains self.now rule.now }
    {
        match self.rules.binary_search(rule) {
            Ok(_) => true,
            Err(_) => false,
        }
    }
}
