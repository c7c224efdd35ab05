//! That an edit of a shared table leaves the other one.

ghost use Rattle.std.specs.Prelude.{◌≡◌, ◌<◌, IfOk, length};

use bit_rows::Row;
use shared_clusters::{Clusters, copied};
use smallvec::SmallVec;
use std::alloc::{AllocError, Global};
use ta_model::Rule;

/// The leaf 7 to this parent.
fn leaf(alloc: Global, parent: u32) -> Rule
    ensures { result.parent ≡ parent }
{
    Rule {
        symbol: 7,
        kids: SmallVec::new(alloc),
        parent,
    }
}

/// A table of two parents, of which the first has a rule.
fn table(alloc: Global) -> Result<Clusters, AllocError>
    ensures { IfOk result (λ t. length t ≡ 2) }
{
    let mut t = Clusters::new(alloc, 2)?;
    t.insert(&leaf(alloc, 0))?;
    Ok(t)
}

/// How many rules the parent has.
fn count(t: &Clusters, parent: u32) -> usize
    requires { parent < length t.now }
{
    t.tuples(parent, 7).len()
}

#[test]
fn a_new_rule_leaves_the_shared_table(rt: HostRuntime) -> Result<(), AllocError> {
    let first = table(rt.alloc())?;
    let mut second = first.share()?;
    let fresh = second.insert(&leaf(rt.alloc(), 1))?;
    assert!(rt; fresh && count(&second, 1) == 1 && count(&first, 1) == 0);
    Ok(())
}

#[test]
fn a_lost_rule_leaves_the_shared_table(rt: HostRuntime) -> Result<(), AllocError> {
    let first = table(rt.alloc())?;
    let mut second = first.share()?;
    let was = second.remove(&leaf(rt.alloc(), 0))?;
    assert!(rt; was && count(&second, 0) == 0 && count(&first, 0) == 1);
    Ok(())
}

#[test]
fn rules_of_other_parents_go(rt: HostRuntime) -> Result<(), AllocError> {
    let mut t = table(rt.alloc())?;
    t.retain_parents(&Row::zeros(rt.alloc(), 2)?)?;
    assert!(rt; t.parents() == 2 && t.symbol_at(0, 0).is_none());
    Ok(())
}

#[test]
fn tuples_are_copied(rt: HostRuntime) -> Result<(), AllocError> {
    let t = table(rt.alloc())?;
    let copies = copied(rt.alloc(), t.tuples(0, 7))?;
    assert!(rt; copies.len() == 1 && t.symbol_at(0, 0) == Some(7));
    Ok(())
}
