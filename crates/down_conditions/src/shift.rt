//! Sets of B's states at joint places.

ghost use Rattle.std.specs.Prelude.{◌≡◌, ◌≤◌, ◌<◌, ◌+◌, ◌↔◌, ℕ, All, IfOk, length};
ghost use Rattle.tree_definitions.specs.Relation.{Has};
ghost use Rattle.down_conditions.specs.Covering.{AreShifted, IsShifted, Shifted};
ghost use Rattle.listed_pairs.specs.Within.{AreWithin, IsWithin};

use bit_rows::Row;
use listed_pairs::Pair;
use std::alloc::{AllocError, Global};

/// The set with each member m places further on, as a row of n places.
pub fn shifted_row(alloc: Global, set: &Row, m: usize, n: usize) -> Result<Row, AllocError>
    requires { m + length set.now ≤ n }
    ensures long { IfOk result (λ row. length row ≡ n) }
    ensures members { IfOk result (λ row. (s : ℕ) → Has row s ↔ Shifted m (Has set.now) s) }
{
    let mut row = Row::zeros(alloc, n)?;
    let mut from = 0;
    while let Some(t) = set.first_from(from) {
        row.set(m + t);
        from = t + 1;
    }
    Ok(row)
}

/// The pair with its set m places further on.
fn shifted_pair(alloc: Global, pair: &Pair, m: usize, n: usize) -> Result<Pair, AllocError>
    requires state { pair.now.state < n }
    requires set { m + length pair.now.set ≤ n }
    ensures within { IfOk result (λ wide. IsWithin n n wide) }
    ensures shifted { IfOk result (λ wide. IsShifted m pair.now wide) }
{
    let set = shifted_row(alloc, &pair.set, m, n)?;
    Ok(Pair {
        state: pair.state,
        set,
    })
}

/// The pairs with their sets m places further on.
pub(crate) fn shifted_pairs(
    alloc: Global,
    pairs: &[Pair],
    m: usize,
    n: usize,
) -> Result<Vec<Pair>, AllocError>
    requires states { All (λ pair. pair.state < n) pairs.now }
    requires sets { All (λ pair. m + length pair.set ≤ n) pairs.now }
    ensures within { IfOk result (λ wides. AreWithin n n wides.items) }
    ensures shifted { IfOk result (λ wides. AreShifted m pairs.now wides.items) }
{
    let mut wides = Vec::with_capacity(alloc, pairs.len())?;
    for at in 0..pairs.len() {
        let wide = shifted_pair(alloc, &pairs[at], m, n)?;
        wides.push(wide)?;
    }
    Ok(wides)
}
