//! The product of two automata.

ghost use Rattle.std.specs.Prelude.{◌≡◌, ◌≢◌, ◌↔◌, ◌<◌, ◌≤◌, ◌^◌, ℕ, IfOk, IsErrOf, All, AllPairs, Contains, length, map};
ghost use Rattle.tree_definitions.specs.Product.{Both as BothSpec, Precedes, pair_name};
ghost use Rattle.std.specs.List.{AllZip};
ghost use Rattle.tree_definitions.specs.Relation.{IsAt, Has};
ghost use Rattle.tree_definitions.specs.Name.{IsName};
ghost use Rattle.bool_ops.specs.Closing.{AreHeld};
ghost use Rattle.bool_ops.specs.Joined.{AreFinals, FitTogether, IsPairOf, pairs_of};

use crate::pairs::{Both, Pairs};
use bit_rows::Row;
use smallvec::SmallVec;
use std::alloc::{AllocError, Global};
use ta_model::{Kids, Name, Rule};

/// The pairs in rising order.
pub(crate) fn in_order(alloc: Global, pairs: &Pairs) -> Result<Pairs, AllocError>
    ensures rising { IfOk result (λ sorted. AllPairs Precedes sorted) }
    ensures members { IfOk result (λ sorted. (x : BothSpec) → Contains sorted x ↔ Contains pairs.now x) }
    ensures size { IfOk result (λ sorted. length sorted ≡ length pairs.now) }
{
    let mut list = Vec::from_slice(alloc, pairs.list())?;
    list.sort()?;
    let mut sorted = Pairs::new(alloc);
    for x in &list {
        sorted.add(*x)?;
    }
    Ok(sorted)
}

/// The names of the pairs, `pI_J` for the places I and J.
pub(crate) fn names(alloc: Global, states: &Pairs) -> Result<Vec<Name>, AllocError>
    ensures value { IfOk result (λ v. v.items ≡ map pair_name states.now) }
    ensures names { IfOk result (λ v. All IsName v.items) }
{
    let mut names = Vec::with_capacity(alloc, states.len())?;
    for x in states.list() {
        let text = format!(in alloc; "p{}_{}", x.left, x.right)?;
        names.push(Name::known(alloc, text.as_bytes())?)?;
    }
    Ok(names)
}

/// A row of n places with those of the list.
pub(crate) fn row_of(alloc: Global, n: usize, list: &[u32]) -> Result<Row, AllocError>
    requires { All (λ q. q < n) list.now }
    ensures size { IfOk result (λ row. length row ≡ n) }
    ensures members { IfOk result (λ row. (q : ℕ) → Has row q ↔ Contains list.now q) }
{
    let mut row = Row::zeros(alloc, n)?;
    for q in list {
        row.set(*q as usize);
    }
    Ok(row)
}

/// The places of the pairs whose parts are final.
pub(crate) fn finals(
    alloc: Global,
    states: &Pairs,
    left: &Row,
    right: &Row,
) -> Result<Vec<u32>, AllocError>
    requires left { All (λ x. x.left < length left.now) states.now }
    requires right { All (λ x. x.right < length right.now) states.now }
    requires few { length states.now < 2 ^ 32 }
    ensures { IfOk result (λ v. AreFinals states.now left.now right.now (length states.now) v.items) }
{
    let mut finals = Vec::new(alloc);
    for (k, x) in states.list().iter().enumerate() {
        if !left.get(x.left as usize) {
            continue;
        }
        if !right.get(x.right as usize) {
            continue;
        }
        finals.push(k as u32)?;
    }
    Ok(finals)
}

/// The place of a pair that is there.
fn place_of(states: &Pairs, x: Both) -> u32
    requires there { Contains states.now x }
    requires few { length states.now < 2 ^ 32 }
    ensures { IsAt states.now result x }
{
    match states.find(x) {
        Some(place) => place as u32,
        None => unreachable!(),
    }
}

/// The places of the pairs of children.
fn places(alloc: Global, states: &Pairs, left: &[u32], right: &[u32]) -> Result<Kids, AllocError>
    requires lengths { length left.now ≡ length right.now }
    requires held { AreHeld states.now left.now right.now }
    requires few { length states.now < 2 ^ 32 }
    ensures { IfOk result (λ v. AllZip (IsAt states.now) v.items (pairs_of left.now right.now)) }
{
    let mut places = SmallVec::new(alloc);
    for (i, p) in left.iter().enumerate() {
        let x = Both {
            left: *p,
            right: right[i],
        };
        places.push(place_of(states, x))?;
    }
    Ok(places)
}

/// The rules of the pairs of rules that were found.
pub(crate) fn rules_of(
    alloc: Global,
    ours: &[Rule],
    theirs: &[Rule],
    states: &Pairs,
    found: &Pairs,
) -> Result<Vec<Rule>, AllocError>
    requires few { length states.now < 2 ^ 32 }
    requires fits { All (FitTogether ours.now theirs.now states.now) found.now }
    ensures { IfOk result (λ v. AllZip (IsPairOf ours.now theirs.now states.now) found.now v.items) }
{
    let mut rules = Vec::with_capacity(alloc, found.len())?;
    for y in found.list() {
        let left = &ours[y.left as usize];
        let right = &theirs[y.right as usize];
        let kids = places(alloc, states, left.kids.as_slice(), right.kids.as_slice())?;
        let parents = Both {
            left: left.parent,
            right: right.parent,
        };
        let parent = place_of(states, parents);
        rules.push(Rule {
            symbol: left.symbol,
            kids,
            parent,
        })?;
    }
    Ok(rules)
}
