//! The rule at a place of an automaton's canonical form, found without making that form.

ghost use Rattle.std.specs.Prelude.{◌≡◌, ◌↔◌, Contains, IfNone, IfSome, IsTrue, count_by};
ghost use Rattle.tree_definitions.specs.Automaton.{Rule as RuleSpec};
ghost use Rattle.tree_definitions.specs.Canonical.{canon, rule_cmp};
ghost use Rattle.tree_definitions.specs.Relation.{IsAt};
ghost use Rattle.incl_certificate.specs.Preceding.{precedes};

use std::cmp::Ordering;
use ta_model::{Listed, Rule};

/// How many of the rules precede this one in canonical order.
fn rank_of(rules: &[Rule], rule: &Rule) -> usize
    ensures { result ≡ count_by (λ other. precedes other rule.now) rules.now }
{
    rules
        .iter()
        .filter(|other| (**other).cmp(rule) == Ordering::Less)
        .count()
}

/// Whether one of the rules stands at this place of the canonical form.
fn stands_at(a: &Listed, rule: &Rule, place: u32) -> bool
    requires { Contains a.now.rules rule.now }
    ensures { IsTrue result ↔ IsAt (canon a.now).rules place rule.now }
{
    rank_of(a.rules(), rule) == place as usize
}

/// The rule at this place of the canonical form, where it has this parent. Takes no memory, and goes
/// over all rules for each with the parent.
pub(crate) fn rule_at(a: &Listed, place: u32, parent: u32) -> Option<&Rule>
    ensures some { IfSome result (λ rule. IsAt (canon a.now).rules place rule.now × (rule.now.parent ≡ parent)) }
    ensures none { IfNone result ((rule : RuleSpec) → IsAt (canon a.now).rules place rule → rule.parent ≡ parent → ⊥) }
{
    let rules = a.rules();
    for rule in rules {
        let parents = rule.parent == parent;
        if parents && stands_at(a, rule, place) {
            return Some(rule);
        }
    }
    None
}
