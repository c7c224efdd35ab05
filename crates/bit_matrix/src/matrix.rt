//! A relation between places.
ghost use Rattle.std.specs.Prelude.{◌≡◌, ℕ, ◌<◌, ◌≤◌, ◌↔◌, IsTrue, IsErrOf, IfOk, Some, length, slice_get};
ghost use Rattle.bit_rows.specs.Rows.{Has};
ghost use Rattle.bit_matrix.specs.Matrices.{Holds, IsSquare, IsIdentity, Below};

use crate::rows::{copied_rows, full_rows, identity_rows, is_single};
use crate::turn::turned_rows;
use bit_rows::Row;
use std::alloc::{AllocError, Global};
use std::marker::Model;

/// How many places a matrix has at most.
const MAX_SIZE: usize = 20_000;

/// Why no matrix was made.
#[derive(Debug, Clone, Copy, PartialEq, Eq)]
pub enum MatrixError {
    /// There are more than 20,000 places.
    TooLarge,
    Memory,
}

impl From<AllocError> for MatrixError {
    ghost use Rattle.bit_matrix.specs.declared.matrix.MatrixError.TheVariants.{Memory};

    ghost from_gives = { λ _ e. e ≡ Memory };

    fn from(_: AllocError) -> MatrixError {
        MatrixError::Memory
    }
}

/// A square list of rows: row i holds the places that i is related to.
#[derive(Debug, Drop)]
pub struct Matrix {
    rows: Vec<Row>,
}

impl Model for Matrix {
    ghost use Rattle.std.specs.Prelude.{Bool, List, ◌≤◌, length};
    ghost use Rattle.bit_matrix.specs.Matrices.{IsSquare};

    ghost Value = { List (List Bool) };

    ghost view = { λ m. m.rows.items };

    ghost invariant = { λ m. IsSquare (length m.rows.items) m.rows.items × (length m.rows.items ≤ 20000) };
}

impl Matrix {
    /// The relation of n places in which each two are related.
    pub fn full(alloc: Global, n: usize) -> Result<Matrix, MatrixError>
        ensures limit { IsErrOf result MatrixError.TooLarge ↔ (20000 < n) }
        ensures square { IfOk result (λ m. IsSquare n m) }
        ensures pairs { IfOk result (λ m. (i j : ℕ) → Holds m i j ↔ ((i < n) × (j < n))) }
    {
        if n > MAX_SIZE {
            return Err(MatrixError::TooLarge);
        }
        let rows = full_rows(alloc, n)?;
        Ok(Matrix { rows })
    }

    /// The relation of n places in which each is related to itself alone.
    pub fn identity(alloc: Global, n: usize) -> Result<Matrix, MatrixError>
        ensures limit { IsErrOf result MatrixError.TooLarge ↔ (20000 < n) }
        ensures square { IfOk result (λ m. IsSquare n m) }
        ensures pairs { IfOk result (λ m. IsIdentity n m) }
    {
        if n > MAX_SIZE {
            return Err(MatrixError::TooLarge);
        }
        let rows = identity_rows(alloc, n)?;
        Ok(Matrix { rows })
    }

    /// The relation with these rows. Takes no memory.
    pub fn of_rows(rows: Vec<Row>) -> Matrix
        requires square { IsSquare (length rows.items) rows.items }
        requires limit { length rows.items ≤ 20000 }
        ensures { result ≡ rows.items }
    {
        Matrix { rows }
    }

    /// An equal matrix.
    pub fn copy(&self) -> Result<Matrix, AllocError>
        ensures { IfOk result (λ m. m ≡ self.now) }
    {
        Ok(Matrix {
            rows: copied_rows(*self.rows.allocator(), &self.rows)?,
        })
    }

    /// The relation with its two places exchanged.
    pub fn transpose(&self) -> Result<Matrix, AllocError>
        ensures square { IfOk result (λ m. IsSquare (length self.now) m) }
        ensures pairs { IfOk result (λ m. (i j : ℕ) → Holds m i j ↔ Holds self.now j i) }
    {
        Ok(Matrix {
            rows: turned_rows(*self.rows.allocator(), &self.rows)?,
        })
    }

    /// How many places there are.
    pub fn size(&self) -> usize
        ensures value { result ≡ length self.now }
        ensures square { IsSquare result self.now }
        ensures limit { result ≤ 20000 }
    {
        self.rows.len()
    }

    /// Whether each place is related to itself alone.
    pub fn is_identity(&self) -> bool
        ensures { IsTrue result ↔ IsIdentity (length self.now) self.now }
    {
        for i in 0..self.rows.len() {
            if !is_single(&self.rows[i], i) {
                return false;
            }
        }
        true
    }

    /// Whether i is related to j.
    pub fn get(&self, i: usize, j: usize) -> bool
        requires row { i < length self.now }
        requires column { j < length self.now }
        ensures { IsTrue result ↔ Holds self.now i j }
    {
        self.rows[i].get(j)
    }

    /// Takes the pair of i and j out of the relation.
    pub fn clear(&mut self, i: usize, j: usize)
        requires row { i < length self.old }
        requires column { j < length self.old }
        ensures square { IsSquare (length self.old) self.new }
        ensures pairs { (a b : ℕ) →
            Holds self.new a b ↔ (Holds self.old a b × ((a ≡ i) × (b ≡ j) → ⊥)) }
    {
        self.rows[i].clear(j);
    }

    /// The places that i is related to.
    pub fn row(&self, i: usize) -> &Row
        requires { i < length self.now }
        ensures value { slice_get self.now i ≡ Some result.now }
        ensures long { length result.now ≡ length self.now }
        ensures members { (j : ℕ) → Has result.now j ↔ Holds self.now i j }
    {
        &self.rows[i]
    }

    /// Whether i is related to some member of the set.
    pub fn row_meets(&self, i: usize, set: &Row) -> bool
        requires row { i < length self.now }
        requires long { length set.now ≡ length self.now }
        ensures { IsTrue result ↔ ((j : ℕ) × Has set.now j × Holds self.now i j) }
    {
        self.rows[i].meets(set)
    }

    /// Whether each member of p is related to some member of q.
    pub fn lifted_below(&self, p: &Row, q: &Row) -> bool
        requires left { length p.now ≡ length self.now }
        requires right { length q.now ≡ length self.now }
        ensures { IsTrue result ↔ Below (Holds self.now) (Has p.now) (Has q.now) }
    {
        let mut from = 0;
        while let Some(i) = p.first_from(from) {
            if !self.rows[i].meets(q) {
                return false;
            }
            from = i + 1;
        }
        true
    }
}
