//! The classes of a relation: places of which each is related to the other.

ghost use Rattle.std.specs.Prelude.{◌≡◌, ◌↔◌, ◌<◌, ◌≤◌, ℕ, IfOk, length};
ghost use Rattle.tree_definitions.specs.Relation.{Holds};
ghost use Rattle.quotient.specs.Grouping.{AreLeaders, IsLeader, IsNumbering, LeadThemselves};

use bit_matrix::Matrix;
use std::alloc::{AllocError, Global};

/// The least place in the class of q.
fn leader(matrix: &Matrix, turned: &Matrix, q: usize) -> Result<u32, AllocError>
    requires place { q < length matrix.now }
    requires sizes { length turned.now ≡ length matrix.now }
    requires turned { (i j : ℕ) → Holds turned.now i j ↔ Holds matrix.now j i }
    requires itself { Holds matrix.now q q }
    ensures { IfOk result (IsLeader (Holds matrix.now) q) }
{
    let _size = matrix.size();
    let mut class = matrix.row(q).copy()?;
    turned.row(q).and_into(&mut class);
    match class.first() {
        Some(first) => Ok(first as u32),
        None => unreachable!(),
    }
}

/// For each place the least in its class.
pub(crate) fn leaders(alloc: Global, matrix: &Matrix) -> Result<Vec<u32>, AllocError>
    requires reflexive { (q : ℕ) → q < length matrix.now → Holds matrix.now q q }
    ensures leaders { IfOk result (λ v. AreLeaders (Holds matrix.now) (length matrix.now) v.items) }
{
    let turned = matrix.transpose()?;
    let mut leaders = Vec::with_capacity(alloc, matrix.size())?;
    for q in 0..matrix.size() {
        leaders.push(leader(matrix, &turned, q)?)?;
    }
    Ok(leaders)
}

/// The places that lead themselves, and for each place the number of its leader among them.
pub(crate) fn numbering(alloc: Global, leaders: &[u32]) -> Result<(Vec<u32>, Vec<u32>), AllocError>
    requires few { length leaders.now ≤ 20000 }
    requires themselves { LeadThemselves leaders.now }
    ensures { IfOk result (λ r. IsNumbering leaders.now r.0.items r.1.items (length leaders.now)) }
{
    let mut firsts = Vec::new(alloc);
    let mut classes = Vec::with_capacity(alloc, leaders.len())?;
    for q in 0..leaders.len() {
        let first = leaders[q] as usize;
        if first != q {
            let class = classes[first];
            classes.push(class)?;
            continue;
        }
        classes.push(firsts.as_slice().len() as u32)?;
        firsts.push(q as u32)?;
    }
    Ok((firsts, classes))
}
