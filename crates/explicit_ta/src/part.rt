//! An automaton with some of its states alone.

ghost use Rattle.std.specs.Prelude.{◌≡◌, ◌≢◌, ◌↔◌, ◌<◌, ℕ, All, AllPairs, Contains, IfOk, length, map, filter, slice_index};
ghost use Rattle.std.specs.List.{AllZip};
ghost use Rattle.tree_definitions.specs.Automaton.{Rule as RuleSpec};
ghost use Rattle.tree_definitions.specs.Relation.{Has, IsAt};
ghost use Rattle.ta_model.specs.Listing.{IsListed};
ghost use Rattle.ta_model.specs.Restriction.{IsRestriction};
ghost use Rattle.explicit_ta.specs.Moves.{renamed, is_in, is_between, IsNumbering};

use bit_rows::Row;
use smallvec::SmallVec;
use std::alloc::{AllocError, Global};
use ta_model::{Listed, Name, Rule};

/// The kept states in their order, and new numbers for the states.
fn numbering(alloc: Global, keep: &Row) -> Result<(Vec<u32>, Vec<u32>), AllocError>
    requires { length keep.now < 4294967295 }
    ensures { IfOk result (λ r. IsNumbering keep.now r.0.items r.1.items (length keep.now)) }
{
    let mut kept = Vec::new(alloc);
    let mut numbers = Vec::with_capacity(alloc, keep.len())?;
    for q in 0..keep.len() as u32 {
        numbers.push(kept.as_slice().len() as u32)?;
        if keep.get(q as usize) {
            kept.push(q)?;
        }
    }
    Ok((kept, numbers))
}

/// The names at these places.
fn names_at(alloc: Global, names: &[Name], places: &[u32]) -> Result<Vec<Name>, AllocError>
    requires { All (λ q. q < length names.now) places.now }
    ensures { IfOk result (λ v. AllZip (IsAt names.now) places.now v.items) }
{
    let mut found = Vec::with_capacity(alloc, places.len())?;
    for q in places {
        let name = &names[*q as usize];
        found.push(name.clone()?)?;
    }
    Ok(found)
}

/// The new numbers of the kept ones of these states.
fn kept_numbers(
    alloc: Global,
    states: &[u32],
    keep: &Row,
    numbers: &[u32],
) -> Result<Vec<u32>, AllocError>
    requires within { All (λ q. q < length keep.now) states.now }
    requires numbers { length numbers.now ≡ length keep.now }
    ensures { IfOk result (λ v. v.items ≡ map (slice_index numbers.now) (filter (is_in keep.now) states.now)) }
{
    let mut kept = Vec::new(alloc);
    for q in states {
        if keep.get(*q as usize) {
            kept.push(numbers[*q as usize])?;
        }
    }
    Ok(kept)
}

/// The rule with this symbol and new numbers for its states.
pub fn renamed_rule(
    alloc: Global,
    rule: &Rule,
    symbol: u32,
    numbers: &[u32],
) -> Result<Rule, AllocError>
    requires kids { All (λ q. q < length numbers.now) rule.now.kids }
    requires parent { rule.now.parent < length numbers.now }
    ensures { IfOk result (λ r. r ≡ renamed numbers.now symbol rule.now) }
{
    let mut kids = SmallVec::new(alloc);
    for q in rule.kids.as_slice() {
        kids.push(numbers[*q as usize])?;
    }
    Ok(Rule {
        symbol,
        kids,
        parent: numbers[rule.parent as usize],
    })
}

/// Whether all states of the rule are kept.
fn is_kept(keep: &Row, rule: &Rule) -> bool
    requires kids { All (λ q. q < length keep.now) rule.now.kids }
    requires parent { rule.now.parent < length keep.now }
    ensures { result ≡ is_between keep.now rule.now }
{
    if !keep.get(rule.parent as usize) {
        return false;
    }
    for q in rule.kids.as_slice() {
        if !keep.get(*q as usize) {
            return false;
        }
    }
    true
}

/// The rules between kept states, with new numbers.
fn rules_between(
    alloc: Global,
    rules: &[Rule],
    keep: &Row,
    numbers: &[u32],
) -> Result<Vec<Rule>, AllocError>
    requires kids { All (λ r. All (λ q. q < length keep.now) r.kids) rules.now }
    requires parents { All (λ r. r.parent < length keep.now) rules.now }
    requires numbers { length numbers.now ≡ length keep.now }
    ensures { IfOk result (λ v. v.items ≡ map (λ r. renamed numbers.now r.symbol r) (filter (is_between keep.now) rules.now)) }
{
    let mut kept = Vec::new(alloc);
    for rule in rules {
        if is_kept(keep, rule) {
            kept.push(renamed_rule(alloc, rule, rule.symbol, numbers)?)?;
        }
    }
    Ok(kept)
}

/// The automaton with the kept states alone, where `left` are its rules with kept parents.
pub fn part_of(a: &Listed, left: &[Rule], keep: &Row) -> Result<Listed, AllocError>
    requires width { length keep.now ≡ length a.now.states }
    requires distinct { AllPairs ◌≢◌ left.now }
    requires rules { (r : RuleSpec) → Contains left.now r ↔ (Contains a.now.rules r × Has keep.now r.parent) }
    ensures { IfOk result (λ part. IsRestriction a.now keep.now part) }
{
    let alloc = a.allocator();
    let states = a.states();
    let (kept, numbers) = numbering(alloc, keep)?;
    let name = a.name().clone()?;
    let symbols = Vec::from_clones(alloc, a.symbols())?;
    let names = names_at(alloc, states, &kept)?;
    let finals = kept_numbers(alloc, a.finals(), keep, &numbers)?;
    let rules = rules_between(alloc, left, keep, &numbers)?;
    Ok(Listed::new(name, symbols, names, finals, rules))
}
