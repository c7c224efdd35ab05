//! Groups of left rules with the same children, and the steps of the right automaton with them.

ghost use Rattle.std.specs.Prelude.{◌≡◌, ◌≢◌, ◌<◌, ◌↔◌, ℕ, All, AllPairs, Contains, IfOk, ◌≤◌, length, map, slice_index_or};
ghost use Rattle.std.specs.List.Sorted.{IsNonDecreasingBy};
ghost use Rattle.ta_model.specs.Macrostates.{StoreGrows, row_at};
ghost use Rattle.explicit_ta.specs.Steps.{AreGroupsAt};

use crate::steps::Steps;
use std::alloc::{AllocError, Global};
use ta_model::{MacroStore, UpGroup};

/// The second parts of the pairs.
fn parents_of(alloc: Global, pairs: &[(u32, u32)]) -> Result<Vec<u32>, AllocError>
    ensures { IfOk result (λ v. v.items ≡ map (λ x. x.1) pairs.now) }
{
    pairs.iter().map(|x| x.1).collect(alloc)
}

/// How many pairs at the front have the symbol or a lesser one.
fn up_to(pairs: &[(u32, u32)], symbol: u32) -> usize
    requires { IsNonDecreasingBy (λ x. x.0) pairs.now }
    ensures bound { result ≤ length pairs.now }
    ensures front { (k : ℕ) (d : ℕ × ℕ) → k < result → (slice_index_or pairs.now k d).0 ≤ symbol }
    ensures back { (k : ℕ) (d : ℕ × ℕ) → result ≤ k → k < length pairs.now → symbol < (slice_index_or pairs.now k d).0 }
{
    pairs.partition_point(|x| x.0 <= symbol)
}

/// The groups of these pairs of a symbol and a parent, with the steps from the sets.
pub fn groups_at(
    alloc: Global,
    pairs: &[(u32, u32)],
    steps: &Steps,
    sets: &[usize],
    store: &mut MacroStore,
) -> Result<Vec<UpGroup>, AllocError>
    requires rising { IsNonDecreasingBy (λ x. x.0) pairs.now }
    requires distinct { AllPairs ◌≢◌ pairs.now }
    requires sets { All (λ k. k < length store.old.rows) sets.now }
    requires kids { All (λ r. All (λ q. q < store.old.states) r.kids) steps.now }
    requires parents { All (λ r. r.parent < store.old.states) steps.now }
    ensures grows { StoreGrows store.old store.new }
    ensures groups { IfOk result (λ v. AreGroupsAt pairs.now steps.now (map (row_at store.old) sets.now) store.new v.items) }
{
    let mut groups = Vec::new(alloc);
    let mut rest = pairs;
    while let Some(pair) = rest.first() {
        let symbol = pair.0;
        let count = up_to(rest, symbol);
        let parents = parents_of(alloc, &rest[..count])?;
        let row = steps.post(alloc, symbol, sets, store)?;
        let set = store.intern(&row)?;
        groups.push(UpGroup {
            symbol,
            parents,
            set,
        })?;
        rest = &rest[count..];
    }
    Ok(groups)
}
