//! Rules by their parents.

ghost use Rattle.std.specs.Prelude.{◌≡◌, ◌<◌, ◌↔◌, ◌+◌, ◌++◌, ℕ, List, All, Contains, IfOk, OnOk, length, map};
ghost use Rattle.ta_model.specs.Tuples.{kids_of};
ghost use Rattle.ta_model.specs.Classes.{AreAll};
ghost use Rattle.shared_clusters.specs.Clusters.{AreSymbolsOf, AreTuplesOf, symbols_of, HasRule as Keeps};
ghost use Rattle.explicit_ta.specs.Index.{AreRulesOf, IsClassAt, AreClassesAt, ListsThese};

use crate::distinct::{append, distinct};
use shared_clusters::{Clusters, copied};
use smallvec::SmallVec;
use std::alloc::{AllocError, Global};
use ta_model::{Class, Kids, Rule, Tuples};

/// The table of these rules.
pub fn clusters_of(alloc: Global, parents: u32, rules: &[Rule]) -> Result<Clusters, AllocError>
    requires { All (λ r. r.parent < parents) rules.now }
    ensures { IfOk result (λ t. AreRulesOf t parents rules.now) }
{
    let mut clusters = Clusters::new(alloc, parents)?;
    for rule in rules {
        clusters.insert(rule)?;
    }
    Ok(clusters)
}

/// The symbols under which the parent has rules.
pub fn symbols_under(alloc: Global, clusters: &Clusters, q: u32) -> Result<Vec<u32>, AllocError>
    requires { q < length clusters.now }
    ensures value { IfOk result (λ v. v.items ≡ symbols_of clusters.now q) }
    ensures symbols { IfOk result (λ v. AreSymbolsOf clusters.now q v.items) }
{
    let mut symbols = Vec::new(alloc);
    while let Some(a) = clusters.symbol_at(q, symbols.as_slice().len()) {
        symbols.push(a)?;
    }
    Ok(symbols)
}

/// The class of q and r under the symbol.
fn class_under(
    alloc: Global,
    clusters: &Clusters,
    symbol: u32,
    q: u32,
    r: u32,
) -> Result<Class, AllocError>
    requires first { q < length clusters.now }
    requires second { r < length clusters.now }
    ensures symbol { IfOk result (λ c. c.symbol ≡ symbol) }
    ensures first { IfOk result (λ c. AreTuplesOf clusters.now q symbol c.first) }
    ensures second { IfOk result (λ c. AreTuplesOf clusters.now r symbol c.second) }
{
    Ok(Class {
        symbol,
        first: Tuples::new(copied(alloc, clusters.tuples(q, symbol))?),
        second: Tuples::new(copied(alloc, clusters.tuples(r, symbol))?),
    })
}

/// The classes of q and r, one for each symbol of q.
pub fn classes_at(
    alloc: Global,
    clusters: &Clusters,
    q: u32,
    r: u32,
) -> Result<Vec<Class>, AllocError>
    requires first { q < length clusters.now }
    requires second { r < length clusters.now }
    ensures classes { IfOk result (λ v. AreClassesAt clusters.now q r (symbols_of clusters.now q) v.items) }
    ensures symbols { IfOk result (λ _. AreSymbolsOf clusters.now q (symbols_of clusters.now q)) }
{
    let symbols = symbols_under(alloc, clusters, q)?;
    let mut classes = Vec::with_capacity(alloc, symbols.len())?;
    for a in &symbols {
        classes.push(class_under(alloc, clusters, *a, q, r)?)?;
    }
    Ok(classes)
}

/// The distinct child tuples of the rules with parent q.
pub fn tuples_to(alloc: Global, clusters: &Clusters, q: u32) -> Result<Vec<Kids>, AllocError>
    requires { q < length clusters.now }
    ensures { IfOk result (λ v. AreAll (λ kids. (a : ℕ) × Keeps clusters.now (record { symbol = a; kids = kids; parent = q })) (kids_of v.items)) }
{
    let symbols = symbols_under(alloc, clusters, q)?;
    let mut all = Vec::new(alloc);
    for a in &symbols {
        append(&mut all, clusters.tuples(q, *a))?;
    }
    distinct(all)
}

/// Appends the rule of each of these child tuples.
fn add_rules(
    alloc: Global,
    all: &mut Vec<Rule>,
    tuples: &[Kids],
    symbol: u32,
    parent: u32,
) -> Result<(), AllocError>
    ensures { OnOk result (all.new.items ≡ all.old.items ++ map (λ kids. record { symbol = symbol; kids = kids; parent = parent }) (kids_of tuples.now)) }
{
    for kids in tuples {
        let copy = SmallVec::from_slice(alloc, kids.as_slice())?;
        all.push(Rule {
            symbol,
            kids: copy,
            parent,
        })?;
    }
    Ok(())
}

/// Appends the rules with parent q to those with lower parents.
fn add_rules_to(
    alloc: Global,
    all: &mut Vec<Rule>,
    clusters: &Clusters,
    q: u32,
) -> Result<(), AllocError>
    requires within { q < length clusters.now }
    requires before { ListsThese clusters.now (λ r. r.parent < q) all.old.items }
    ensures { OnOk result (ListsThese clusters.now (λ r. r.parent < q + 1) all.new.items) }
{
    let symbols = symbols_under(alloc, clusters, q)?;
    for a in &symbols {
        add_rules(alloc, all, clusters.tuples(q, *a), *a, q)?;
    }
    Ok(())
}

/// The rules of the table.
pub fn rules_of(alloc: Global, clusters: &Clusters) -> Result<Vec<Rule>, AllocError>
    ensures { IfOk result (λ v. ListsThese clusters.now (λ r. r.parent < length clusters.now) v.items) }
{
    let mut rules = Vec::new(alloc);
    for q in 0..clusters.parents() {
        add_rules_to(alloc, &mut rules, clusters, q)?;
    }
    Ok(rules)
}
