//! Lists of rows of one length.
ghost use Rattle.std.specs.Prelude.{◌≡◌, ℕ, ◌<◌, ◌≤◌, ◌↔◌, IsTrue, IfOk, length};
ghost use Rattle.bit_rows.specs.Rows.{Has};
ghost use Rattle.bit_matrix.specs.Matrices.{Holds, IsSquare, IsIdentity};

use bit_rows::Row;
use std::alloc::{AllocError, Global};

fn full_row(alloc: Global, n: usize) -> Result<Row, AllocError>
    ensures long { IfOk result (λ row. length row ≡ n) }
    ensures members { IfOk result (λ row. (s : ℕ) → Has row s ↔ (s < n)) }
{
    let mut row = Row::zeros(alloc, n)?;
    for s in 0..n {
        row.set(s);
    }
    Ok(row)
}

/// n rows of n places, all of them set.
pub(crate) fn full_rows(alloc: Global, n: usize) -> Result<Vec<Row>, AllocError>
    ensures square { IfOk result (λ rows. IsSquare n rows.items) }
    ensures pairs { IfOk result (λ rows. (i j : ℕ) → Holds rows.items i j ↔ ((i < n) × (j < n))) }
{
    let full = full_row(alloc, n)?;
    let mut rows = Vec::with_capacity(alloc, n)?;
    for _ in 0..n {
        rows.push(full.copy()?)?;
    }
    Ok(rows)
}

/// n rows of n places; in row i the place i alone is set.
pub(crate) fn identity_rows(alloc: Global, n: usize) -> Result<Vec<Row>, AllocError>
    ensures square { IfOk result (λ rows. IsSquare n rows.items) }
    ensures pairs { IfOk result (λ rows. IsIdentity n rows.items) }
{
    let mut rows = Vec::with_capacity(alloc, n)?;
    for i in 0..n {
        let mut row = Row::zeros(alloc, n)?;
        row.set(i);
        rows.push(row)?;
    }
    Ok(rows)
}

/// n rows of n places.
pub(crate) fn empty_rows(alloc: Global, n: usize) -> Result<Vec<Row>, AllocError>
    ensures { IfOk result (λ rows. IsSquare n rows.items) }
{
    let mut rows = Vec::with_capacity(alloc, n)?;
    for _ in 0..n {
        rows.push(Row::zeros(alloc, n)?)?;
    }
    Ok(rows)
}

/// Equal rows.
pub(crate) fn copied_rows(alloc: Global, rows: &[Row]) -> Result<Vec<Row>, AllocError>
    ensures { IfOk result (λ copy. copy.items ≡ rows.now) }
{
    let mut copy = Vec::with_capacity(alloc, rows.len())?;
    for i in 0..rows.len() {
        copy.push(rows[i].copy()?)?;
    }
    Ok(copy)
}

/// Whether the place i alone is set.
pub(crate) fn is_single(row: &Row, i: usize) -> bool
    requires { i < 20000 }
    ensures { IsTrue result ↔ ((s : ℕ) → Has row.now s ↔ (s ≡ i)) }
{
    match row.first() {
        Some(first) => first == i && row.first_from(i + 1).is_none(),
        None => false,
    }
}
