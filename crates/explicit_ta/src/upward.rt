//! Rules by their children.

ghost use Rattle.std.specs.Prelude.{◌≡◌, ◌≢◌, ◌<◌, ◌↔◌, ℕ, List, All, AllPairs, Contains, IfOk, OnOk, length};
ghost use Rattle.std.specs.List.Sorted.{IsNonDecreasingBy};
ghost use Rattle.ta_model.specs.Tuples.{kids_of};
ghost use Rattle.shared_clusters.specs.Clusters.{AreTuplesOf};
ghost use Rattle.explicit_ta.specs.Index.{AreLeads, AreParentsUnder, AreUpClassesAt, AddsClass, AreUses, ListsUses, GainsUses};

use crate::by_kids::ByKids;
use crate::downward::clusters_of;
use bit_rows::Row;
use shared_clusters::{Clusters, copied};
use smallvec::SmallVec;
use std::alloc::{AllocError, Global};
use ta_model::{Kids, Rule, UpClass};

/// Adds a use of the rule for each of its children.
fn add_uses(alloc: Global, lines: &mut Vec<Rule>, rule: &Rule) -> Result<(), AllocError>
    ensures { OnOk result (GainsUses lines.old.items lines.new.items rule.now.kids rule.now.kids) }
{
    let kids = rule.kids.as_slice();
    for q in kids {
        let copy = SmallVec::from_slice(alloc, kids)?;
        lines.push(Rule {
            symbol: 0,
            kids: copy,
            parent: *q,
        })?;
    }
    Ok(())
}

/// A use of each rule for each of its children.
fn lines_of(alloc: Global, rules: &[Rule]) -> Result<Vec<Rule>, AllocError>
    ensures { IfOk result (λ v. ListsUses v.items rules.now) }
{
    let mut lines = Vec::new(alloc);
    for rule in rules {
        add_uses(alloc, &mut lines, rule)?;
    }
    Ok(lines)
}

/// For each state the child tuples of the rules in which it stands, under the symbol 0.
pub fn uses_of(alloc: Global, states: u32, rules: &[Rule]) -> Result<Clusters, AllocError>
    requires { All (λ r. All (λ q. q < states) r.kids) rules.now }
    ensures { IfOk result (λ t. AreUses t states rules.now) }
{
    let mut lines = lines_of(alloc, rules)?;
    // In order, so that each tuple comes behind those that are there.
    lines.sort()?;
    clusters_of(alloc, states, &lines)
}

/// The distinct child tuples of the rules in which q stands as a child.
pub fn tuples_from(alloc: Global, uses: &Clusters, q: u32) -> Result<Vec<Kids>, AllocError>
    requires { q < length uses.now }
    ensures { IfOk result (λ v. AreTuplesOf uses.now q 0 (kids_of v.items)) }
{
    copied(alloc, uses.tuples(q, 0))
}

/// The symbols and parents of the rules with these children, by symbol.
pub fn leads(alloc: Global, rules: &ByKids, kids: &[u32]) -> Result<Vec<(u32, u32)>, AllocError>
    ensures members { IfOk result (λ v. AreLeads rules.now kids.now v.items) }
    ensures rising { IfOk result (λ v. IsNonDecreasingBy (λ x. x.0) v.items) }
    ensures distinct { AllPairs ◌≢◌ rules.now → IfOk result (λ v. AllPairs ◌≢◌ v.items) }
{
    let mut pairs = Vec::new(alloc);
    for rule in rules.at(kids) {
        pairs.push((rule.symbol, rule.parent))?;
    }
    Ok(pairs)
}

/// The pairs with the symbol.
fn under(pairs: &[(u32, u32)], symbol: u32) -> &[(u32, u32)]
    requires { IsNonDecreasingBy (λ x. x.0) pairs.now }
    ensures { (a p : ℕ) → Contains result.now (a, p) ↔ (Contains pairs.now (a, p) × (a ≡ symbol)) }
{
    let from = pairs.partition_point(|x| x.0 < symbol);
    let rest = &pairs[from..];
    let to = rest.partition_point(|x| x.0 <= symbol);
    &rest[..to]
}

/// The parents under the symbol, among so many states.
fn parents_under(
    alloc: Global,
    states: u32,
    pairs: &[(u32, u32)],
    symbol: u32,
) -> Result<Row, AllocError>
    requires rising { IsNonDecreasingBy (λ x. x.0) pairs.now }
    requires within { All (λ x. x.1 < states) pairs.now }
    ensures { IfOk result (λ row. AreParentsUnder states pairs.now symbol row) }
{
    let mut row = Row::zeros(alloc, states as usize)?;
    let here = under(pairs, symbol);
    for x in here {
        row.set(x.1 as usize);
    }
    Ok(row)
}

/// The class of the two lists of pairs under the symbol.
fn up_class_under(
    alloc: Global,
    states: u32,
    first: &[(u32, u32)],
    second: &[(u32, u32)],
    symbol: u32,
) -> Result<UpClass, AllocError>
    requires first_rising { IsNonDecreasingBy (λ x. x.0) first.now }
    requires first_within { All (λ x. x.1 < states) first.now }
    requires second_rising { IsNonDecreasingBy (λ x. x.0) second.now }
    requires second_within { All (λ x. x.1 < states) second.now }
    ensures symbol { IfOk result (λ c. c.symbol ≡ symbol) }
    ensures first { IfOk result (λ c. AreParentsUnder states first.now symbol c.first) }
    ensures second { IfOk result (λ c. AreParentsUnder states second.now symbol c.second) }
{
    Ok(UpClass {
        symbol,
        first: parents_under(alloc, states, first, symbol)?,
        second: parents_under(alloc, states, second, symbol)?,
    })
}

/// Adds the class under the symbol, unless the last class is that.
fn add_class(
    alloc: Global,
    states: u32,
    first: &[(u32, u32)],
    second: &[(u32, u32)],
    symbol: u32,
    classes: &mut Vec<UpClass>,
) -> Result<(), AllocError>
    requires first_rising { IsNonDecreasingBy (λ x. x.0) first.now }
    requires first_within { All (λ x. x.1 < states) first.now }
    requires second_rising { IsNonDecreasingBy (λ x. x.0) second.now }
    requires second_within { All (λ x. x.1 < states) second.now }
    requires some { (p : ℕ) × Contains first.now (symbol, p) }
    ensures { OnOk result (AddsClass states first.now second.now symbol classes.old.items classes.new.items) }
{
    if let Some(last) = classes.last() {
        if last.symbol == symbol {
            return Ok(());
        }
    }
    let class = up_class_under(alloc, states, first, second, symbol)?;
    classes.push(class)?;
    Ok(())
}

/// The classes of the two lists of pairs, one for each symbol of the first.
pub fn up_classes_at(
    alloc: Global,
    states: u32,
    first: &[(u32, u32)],
    second: &[(u32, u32)],
) -> Result<Vec<UpClass>, AllocError>
    requires first_rising { IsNonDecreasingBy (λ x. x.0) first.now }
    requires first_within { All (λ x. x.1 < states) first.now }
    requires second_rising { IsNonDecreasingBy (λ x. x.0) second.now }
    requires second_within { All (λ x. x.1 < states) second.now }
    ensures { IfOk result (λ v. AreUpClassesAt states first.now second.now first.now v.items) }
{
    let mut classes = Vec::new(alloc);
    for x in first {
        add_class(alloc, states, first, second, x.0, &mut classes)?;
    }
    Ok(classes)
}
