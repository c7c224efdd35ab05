//! An automaton whose states are merged by their classes.

ghost use Rattle.std.specs.Prelude.{◌≡◌, ◌<◌, ◌≤◌, ℕ, All, IfOk, length, map, slice_index};
ghost use Rattle.std.specs.List.{AllZip};
ghost use Rattle.tree_definitions.specs.Relation.{Holds, IsAt};
ghost use Rattle.ta_model.specs.Listing.{IsListed};
ghost use Rattle.quotient.specs.Grouping.{HasRulesOnce, HasStatesOnce, IsCollapse, IsTransitive, merged};

use crate::classes::{leaders, numbering};
use bit_matrix::Matrix;
use smallvec::SmallVec;
use std::alloc::{AllocError, Global};
use ta_model::{Listed, Name, Rule};

/// The names at these places.
fn names_at(alloc: Global, names: &[Name], places: &[u32]) -> Result<Vec<Name>, AllocError>
    requires { All (λ q. q < length names.now) places.now }
    ensures { IfOk result (λ v. AllZip (IsAt names.now) places.now v.items) }
{
    let mut found = Vec::with_capacity(alloc, places.len())?;
    for q in places {
        let name = &names[*q as usize];
        found.push(name.clone()?)?;
    }
    Ok(found)
}

/// The classes of these states.
fn merged_states(alloc: Global, states: &[u32], classes: &[u32]) -> Result<Vec<u32>, AllocError>
    requires { All (λ q. q < length classes.now) states.now }
    ensures { IfOk result (λ v. v.items ≡ map (slice_index classes.now) states.now) }
{
    let mut merged = Vec::with_capacity(alloc, states.len())?;
    for q in states {
        merged.push(classes[*q as usize])?;
    }
    Ok(merged)
}

/// The rule with each state replaced by its class.
fn merged_rule(alloc: Global, rule: &Rule, classes: &[u32]) -> Result<Rule, AllocError>
    requires kids { All (λ q. q < length classes.now) rule.now.kids }
    requires parent { rule.now.parent < length classes.now }
    ensures { IfOk result (λ r. r ≡ merged classes.now rule.now) }
{
    let mut kids = SmallVec::new(alloc);
    for q in rule.kids.as_slice() {
        kids.push(classes[*q as usize])?;
    }
    Ok(Rule {
        symbol: rule.symbol,
        kids,
        parent: classes[rule.parent as usize],
    })
}

/// The rules with each state replaced by its class.
fn merged_rules(alloc: Global, rules: &[Rule], classes: &[u32]) -> Result<Vec<Rule>, AllocError>
    requires kids { All (λ r. All (λ q. q < length classes.now) r.kids) rules.now }
    requires parents { All (λ r. r.parent < length classes.now) rules.now }
    ensures { IfOk result (λ v. v.items ≡ map (merged classes.now) rules.now) }
{
    let mut merged = Vec::with_capacity(alloc, rules.len())?;
    for rule in rules {
        merged.push(merged_rule(alloc, rule, classes)?)?;
    }
    Ok(merged)
}

/// The states without repeats.
fn states_once(states: Vec<u32>) -> Result<Vec<u32>, AllocError>
    ensures { IfOk result (λ v. HasStatesOnce states.items v.items) }
{
    let mut once = states;
    once.sort()?;
    once.dedup();
    Ok(once)
}

/// The rules without repeats.
fn rules_once(rules: Vec<Rule>) -> Result<Vec<Rule>, AllocError>
    ensures { IfOk result (λ v. HasRulesOnce rules.items v.items) }
{
    let mut once = rules;
    once.sort()?;
    once.dedup();
    Ok(once)
}

/// The automaton with the states of each class merged, in canonical form.
pub(crate) fn collapse(alloc: Global, a: &Listed, matrix: &Matrix) -> Result<Listed, AllocError>
    requires size { length matrix.now ≡ length a.now.states }
    requires reflexive { (q : ℕ) → q < length matrix.now → Holds matrix.now q q }
    requires transitive { IsTransitive (Holds matrix.now) }
    ensures automaton { IfOk result (IsCollapse a.now (Holds matrix.now)) }
    ensures listed { IfOk result IsListed }
{
    let _size = matrix.size();
    let leaders = leaders(alloc, matrix)?;
    let (firsts, classes) = numbering(alloc, &leaders)?;
    let name = a.name().clone()?;
    let symbols = Vec::from_clones(alloc, a.symbols())?;
    let names = names_at(alloc, a.states(), &firsts)?;
    let finals = states_once(merged_states(alloc, a.finals(), &classes)?)?;
    let rules = rules_once(merged_rules(alloc, a.rules(), &classes)?)?;
    let merged = Listed::new(name, symbols, names, finals, rules);
    let canonical = merged.canon()?;
    let _rules = canonical.rules();
    Ok(canonical)
}
