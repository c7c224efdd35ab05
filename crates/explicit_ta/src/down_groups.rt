//! The child tuples of a state, with those of a set of states that stand behind it.

ghost use Rattle.std.specs.Prelude.{◌≡◌, ◌≤◌, ◌<◌, ◌+◌, ◌-◌, ◌++◌, ℕ, All, IfOk, OnOk, length, map};
ghost use Rattle.ta_model.specs.Tuples.{kids_of};
ghost use Rattle.shared_clusters.specs.Clusters.{AreSymbolsOf, AreTuplesOf, symbols_of};
ghost use Rattle.explicit_ta.specs.Down.{AreBehind, AreDownGroupsAt, AreTuplesInto, lowered as lowered_of};

use crate::distinct::distinct;
use crate::downward::symbols_under;
use bit_rows::Row;
use shared_clusters::{Clusters, copied};
use smallvec::SmallVec;
use std::alloc::{AllocError, Global};
use ta_model::{DownGroup, Kids, Tuples};

/// The children with n taken from each.
fn lowered(alloc: Global, kids: &[u32], n: u32) -> Result<Kids, AllocError>
    requires { All (λ q. n ≤ q) kids.now }
    ensures { IfOk result (λ v. v.items ≡ lowered_of n kids.now) }
{
    let mut low = SmallVec::new(alloc);
    for q in kids {
        low.push(*q - n)?;
    }
    Ok(low)
}

/// Appends the tuples with n taken from each child.
fn append_lowered(all: &mut Vec<Kids>, tuples: &[Kids], n: u32) -> Result<(), AllocError>
    requires { All (All (λ q. n ≤ q)) (kids_of tuples.now) }
    ensures { OnOk result (kids_of all.new.items ≡ kids_of all.old.items ++ map (lowered_of n) (kids_of tuples.now)) }
{
    for kids in tuples {
        let low = lowered(*all.allocator(), kids.as_slice(), n)?;
        all.push(low)?;
    }
    Ok(())
}

/// The child tuples under the symbol of the parents that stand n places behind the members of the
/// set, with n taken from each child.
fn tuples_into(
    alloc: Global,
    clusters: &Clusters,
    n: u32,
    symbol: u32,
    set: &Row,
) -> Result<Tuples, AllocError>
    requires within { n + length set.now ≤ length clusters.now }
    requires behind { AreBehind clusters.now n }
    ensures { IfOk result (AreTuplesInto clusters.now n symbol set.now) }
{
    let _parents = clusters.parents();
    let mut all = Vec::new(alloc);
    let mut from = 0;
    while let Some(s) = set.first_from(from) {
        append_lowered(&mut all, clusters.tuples(n + s as u32, symbol), n)?;
        from = s + 1;
    }
    Ok(Tuples::new(distinct(all)?))
}

/// The group of q and the set under the symbol.
fn group_under(
    alloc: Global,
    clusters: &Clusters,
    n: u32,
    symbol: u32,
    q: u32,
    set: &Row,
) -> Result<DownGroup, AllocError>
    requires parent { q < length clusters.now }
    requires within { n + length set.now ≤ length clusters.now }
    requires behind { AreBehind clusters.now n }
    ensures symbol { IfOk result (λ g. g.symbol ≡ symbol) }
    ensures rules { IfOk result (λ g. AreTuplesOf clusters.now q symbol g.rules) }
    ensures tuples { IfOk result (λ g. AreTuplesInto clusters.now n symbol set.now g.tuples) }
{
    Ok(DownGroup {
        symbol,
        rules: Tuples::new(copied(alloc, clusters.tuples(q, symbol))?),
        tuples: tuples_into(alloc, clusters, n, symbol, set)?,
    })
}

/// The groups of q and the set, whose members stand n places behind, one for each symbol of q.
pub fn down_groups_at(
    alloc: Global,
    clusters: &Clusters,
    n: u32,
    q: u32,
    set: &Row,
) -> Result<Vec<DownGroup>, AllocError>
    requires parent { q < length clusters.now }
    requires within { n + length set.now ≤ length clusters.now }
    requires behind { AreBehind clusters.now n }
    ensures groups { IfOk result (λ v. AreDownGroupsAt clusters.now n q set.now (symbols_of clusters.now q) v.items) }
    ensures symbols { IfOk result (λ _. AreSymbolsOf clusters.now q (symbols_of clusters.now q)) }
{
    let symbols = symbols_under(alloc, clusters, q)?;
    let mut groups = Vec::with_capacity(alloc, symbols.len())?;
    for a in &symbols {
        groups.push(group_under(alloc, clusters, n, *a, q, set)?)?;
    }
    Ok(groups)
}
