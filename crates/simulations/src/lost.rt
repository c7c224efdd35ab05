//! Rows of a relation that lost places.

ghost use Rattle.std.specs.Prelude.{◌≡◌, ◌<◌, ◌≤◌, ℕ, IsNone, IfOk, IfSome, length};
ghost use Rattle.tree_definitions.specs.Relation.{Has, Holds, IsSquare};
ghost use Rattle.bit_rows.specs.Rows.{IsEmptyFrom};
ghost use Rattle.simulations.specs.Clearing.{Catches};

use bit_matrix::{Matrix, MatrixError};
use bit_rows::Row;
use std::alloc::{AllocError, Global};

/// The relation in which each two of n places are related.
pub(crate) fn full(alloc: Global, n: usize) -> Result<Matrix, AllocError>
    requires { n ≤ 20000 }
    ensures square { IfOk result (λ m. IsSquare n m) }
    ensures pairs { IfOk result (λ m. (i j : ℕ) → i < n → j < n → Holds m i j) }
{
    match Matrix::full(alloc, n) {
        Ok(m) => Ok(m),
        Err(MatrixError::Memory) => Err(AllocError),
        Err(MatrixError::TooLarge) => unreachable!(),
    }
}

/// The rows of the matrix.
pub(crate) fn rows_of(alloc: Global, sim: &Matrix) -> Result<Vec<Row>, AllocError>
    ensures { IfOk result (λ rows. rows.items ≡ sim.now) }
{
    let mut rows = Vec::with_capacity(alloc, sim.size())?;
    for i in 0..sim.size() {
        rows.push(sim.row(i).copy()?)?;
    }
    Ok(rows)
}

/// A marked place, `from` or later if there is one.
pub(crate) fn next_marked(marks: &Row, from: usize) -> Option<usize>
    ensures none { IsNone result → IsEmptyFrom marks.now 0 }
    ensures some { IfSome result (λ q. Has marks.now q) }
{
    match marks.first_from(from) {
        Some(q) => Some(q),
        None => marks.first(),
    }
}

/// Takes from row q of `seen` what the relation lacks, and hands it out.
pub(crate) fn catch_up(seen: &mut [Row], sim: &Matrix, q: usize) -> Result<Row, AllocError>
    requires square { IsSquare (length sim.now) sim.now }
    requires seen_square { IsSquare (length sim.now) seen.old }
    requires row { q < length sim.now }
    ensures { IfOk result (λ lost. Catches (length sim.now) sim.now q seen.old lost seen.new) }
{
    let row = sim.row(q);
    let mut lost = seen[q].copy()?;
    row.and_not_into(&mut lost);
    row.and_into(&mut seen[q]);
    Ok(lost)
}
