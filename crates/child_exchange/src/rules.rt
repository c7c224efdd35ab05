//! Rules that are another one with a child exchanged.

ghost use Rattle.std.specs.Prelude.{◌<◌, ◌↔◌, ℕ, All, Contains, IsTrue, length};
ghost use Rattle.tree_definitions.specs.Automaton.{Rule};
ghost use Rattle.tree_definitions.specs.Relation.{Holds, IsAt};
ghost use Rattle.child_exchange.specs.Exchanging.{IsExchanged};

use crate::tuples::is_exchange;
use bit_matrix::Matrix;
use ta_model::Rule;

/// Whether one of the rules in the list is the rule with r at place p, and leads above its parent.
/// The list has the place of each rule with r at place p. Takes no memory.
pub fn exchanged(rules: &[Rule], list: &[u32], rule: &Rule, p: usize, r: u32, sim: &Matrix) -> bool
    requires parents { All (λ over. over.parent < length sim.now) rules.now }
    requires parent { rule.now.parent < length sim.now }
    requires place { p < length rule.now.kids }
    requires list { All (λ s. s < length rules.now) list.now }
    requires whole { (s : ℕ) (over : Rule) → IsAt rules.now s over → IsAt over.kids p r → Contains list.now s }
    ensures { IsTrue result ↔ IsExchanged rules.now (Holds sim.now) rule.now p r }
{
    for s in list {
        let over = &rules[*s as usize];
        if over.symbol == rule.symbol
            && is_exchange(rule.kids.as_slice(), p, r, over.kids.as_slice())
            && sim.get(rule.parent as usize, over.parent as usize)
        {
            return true;
        }
    }
    false
}
