//! Whether a relation is a downward simulation from one automaton to another.

ghost use Rattle.std.specs.Prelude.{◌≡◌, ◌<◌, ◌≤◌, ◌+◌, ◌↔◌, ℕ, List, All, IsTrue, IfOk, length};
ghost use Rattle.std.specs.List.{AllZip};
ghost use Rattle.tree_definitions.specs.Tree.{Symbol};
ghost use Rattle.tree_definitions.specs.Automaton.{IsLabel};
ghost use Rattle.tree_definitions.specs.Relation.{Holds, IsAt};
ghost use Rattle.trim_ops.specs.Marking.{IsByParent, IsWithin};
ghost use Rattle.down_conditions.specs.Between.{IsAnswered, IsDownBetween, IsRuleDown, IsSought, IsStateDown};

use crate::downs::alphabet_of;
use bit_matrix::Matrix;
use ranked_alphabet::Alphabet;
use std::alloc::{AllocError, Global};
use ta_model::{Listed, Rule};
use trim_ops::{RuleIndex, rules_by_parent};

/// Whether the children, l places further on, are below those of the second tuple, h places
/// further on.
fn kids_below(low: &[u32], l: usize, high: &[u32], h: usize, both: &Matrix) -> bool
    requires low { All (λ q. l + q < length both.now) low.now }
    requires high { All (λ q. h + q < length both.now) high.now }
    ensures { IsTrue result ↔ AllZip (λ x y. Holds both.now (l + x) (h + y)) low.now high.now }
{
    // The number of places tells the proof that one fits.
    let _places = both.size();
    if low.len() != high.len() {
        return false;
    }
    for i in 0..low.len() {
        if !both.get(l + low[i] as usize, h + high[i] as usize) {
            return false;
        }
    }
    true
}

/// Whether one of the rules in the list, all of them to one state, has this symbol and children
/// above those of the rule.
fn answered(
    high: &Listed,
    list: &[u32],
    symbol: u32,
    rule: &Rule,
    l: usize,
    h: usize,
    both: &Matrix,
) -> bool
    requires high { h + length high.now.states ≤ length both.now }
    requires rule { All (λ q. l + q < length both.now) rule.now.kids }
    requires list { All (λ s. s < length high.now.rules) list.now }
    ensures { (r : ℕ) (lists : List (List ℕ)) → IsByParent high.now.rules lists → IsAt lists r list.now
        → (a : Symbol) → IsLabel high.now symbol a → IsTrue result ↔ IsAnswered high.now (Holds both.now) l h a rule.now.kids r }
{
    let rules = high.rules();
    for s in list {
        let over = &rules[*s as usize];
        if over.symbol == symbol
            && kids_below(rule.kids.as_slice(), l, over.kids.as_slice(), h, both)
        {
            return true;
        }
    }
    false
}

/// Whether a rule to r with this symbol, if there is one, has children above those of the rule.
fn has_answer(
    high: &Listed,
    by_parent: &RuleIndex,
    symbol: Option<u32>,
    rule: &Rule,
    r: usize,
    l: usize,
    h: usize,
    both: &Matrix,
) -> bool
    requires high { h + length high.now.states ≤ length both.now }
    requires rule { All (λ q. l + q < length both.now) rule.now.kids }
    requires by_parent { IsByParent high.now.rules by_parent.now }
    requires state { r < length by_parent.now }
    ensures { (a : Symbol) → IsSought high.now a symbol → IsTrue result ↔ IsAnswered high.now (Holds both.now) l h a rule.now.kids r }
{
    match symbol {
        Some(k) => answered(high, by_parent.at(r), k, rule, l, h, both),
        None => false,
    }
}

/// Whether each state above the rule's parent has such a rule.
fn answered_all(
    high: &Listed,
    by_parent: &RuleIndex,
    symbol: Option<u32>,
    rule: &Rule,
    l: usize,
    h: usize,
    both: &Matrix,
) -> bool
    requires high { h + length high.now.states ≤ length both.now }
    requires rule { All (λ q. l + q < length both.now) rule.now.kids }
    requires parent { l + rule.now.parent < length both.now }
    requires by_parent { IsByParent high.now.rules by_parent.now }
    requires size { length by_parent.now ≡ length high.now.states }
    ensures { (a : Symbol) → IsSought high.now a symbol → IsTrue result ↔ IsStateDown high.now (Holds both.now) l h a rule.now.kids rule.now.parent }
{
    let _places = both.size();
    let end = h + high.states().len();
    let q = l + rule.parent as usize;
    let mut from = h;
    while let Some(r) = both.row(q).first_from(from) {
        if r >= end {
            return true;
        }
        if !has_answer(high, by_parent, symbol, rule, r - h, l, h, both) {
            return false;
        }
        from = r + 1;
    }
    true
}

/// Whether each state above the rule's parent has a rule with the same symbol and children above.
fn rule_is_down(
    low: &Listed,
    high: &Listed,
    alphabet: &Alphabet,
    by_parent: &RuleIndex,
    rule: &Rule,
    l: usize,
    h: usize,
    both: &Matrix,
) -> bool
    requires high { h + length high.now.states ≤ length both.now }
    requires alphabet { alphabet.now ≡ high.now.symbols }
    requires by_parent { IsByParent high.now.rules by_parent.now }
    requires size { length by_parent.now ≡ length high.now.states }
    requires symbol { rule.now.symbol < length low.now.symbols }
    requires rule { All (λ q. l + q < length both.now) rule.now.kids }
    requires parent { l + rule.now.parent < length both.now }
    ensures { IsTrue result ↔ IsRuleDown low.now high.now (Holds both.now) l h rule.now }
{
    // The call tells the proof that the automaton is narrow.
    let _symbols = high.symbols();
    let symbol = alphabet.find(&low.symbols()[rule.symbol as usize]);
    answered_all(high, by_parent, symbol, rule, l, h, both)
}

/// Whether it is so for each rule of the first automaton.
fn rules_are_down(
    low: &Listed,
    high: &Listed,
    alphabet: &Alphabet,
    by_parent: &RuleIndex,
    l: usize,
    h: usize,
    both: &Matrix,
) -> bool
    requires low { l + length low.now.states ≤ length both.now }
    requires high { h + length high.now.states ≤ length both.now }
    requires alphabet { alphabet.now ≡ high.now.symbols }
    requires by_parent { IsByParent high.now.rules by_parent.now }
    requires size { length by_parent.now ≡ length high.now.states }
    ensures { IsTrue result ↔ IsDownBetween low.now high.now (Holds both.now) l h }
{
    let rules = low.rules();
    for i in 0..rules.len() {
        if !rule_is_down(low, high, alphabet, by_parent, &rules[i], l, h, both) {
            return false;
        }
    }
    true
}

/// Whether the relation is a downward simulation from the first automaton, whose states stand l
/// places further on, to the second one, whose states stand h places further on.
pub(crate) fn is_down_between(
    alloc: Global,
    low: &Listed,
    high: &Listed,
    l: usize,
    h: usize,
    both: &Matrix,
) -> Result<bool, AllocError>
    requires low { l + length low.now.states ≤ length both.now }
    requires high { h + length high.now.states ≤ length both.now }
    ensures { IfOk result (λ yes. IsTrue yes ↔ IsDownBetween low.now high.now (Holds both.now) l h) }
{
    let alphabet = alphabet_of(alloc, high)?;
    let by_parent = rules_by_parent(alloc, high.rules(), high.states().len())?;
    Ok(rules_are_down(low, high, &alphabet, &by_parent, l, h, both))
}
