//! Rows and columns exchanged, block by block.
ghost use Rattle.std.specs.Prelude.{◌≡◌, ℕ, ◌+◌, ◌-◌, ◌*◌, ◌<◌, ◌≤◌, ◌↔◌, IfOk, length, slice_index, min};
ghost use Rattle.std.specs.Int.{bit_at};
ghost use Rattle.bit_matrix.specs.Matrices.{Holds, IsSquare};
ghost use Rattle.bit_matrix.specs.Blocks.{IsBlock, IsWritten, IsTurnedBefore};

use crate::block::turn_block;
use crate::rows::empty_rows;
use bit_rows::Row;
use std::alloc::{AllocError, Global};

/// The rows of a square matrix with rows and columns exchanged.
pub(crate) fn turned_rows(alloc: Global, rows: &[Row]) -> Result<Vec<Row>, AllocError>
    requires { IsSquare (length rows.now) rows.now }
    ensures square { IfOk result (λ turned. IsSquare (length rows.now) turned.items) }
    ensures pairs { IfOk result (λ turned. (i j : ℕ) → Holds turned.items i j ↔ Holds rows.now j i) }
{
    let mut turned = empty_rows(alloc, rows.len())?;
    for b in 0..rows.len().div_ceil(64) {
        turn_band(rows, b, &mut turned);
    }
    Ok(turned)
}

/// Turns the 64 rows from 64 * b on.
fn turn_band(rows: &[Row], b: usize, turned: &mut [Row])
    requires square { IsSquare (length rows.now) rows.now }
    requires in_range { 64 * b < length rows.now }
    requires before { IsTurnedBefore (length rows.now) rows.now turned.old b 0 }
    ensures { IsTurnedBefore (length rows.now) rows.now turned.new (b + 1) 0 }
{
    for c in 0..rows.len().div_ceil(64) {
        let mut block = read_block(rows, b, c);
        turn_block(&mut block);
        write_block(&block, c, b, turned);
    }
}

/// The block at row 64 * b and column 64 * c; a place past the end is 0.
fn read_block(rows: &[Row], b: usize, c: usize) -> [u64; 64]
    requires square { IsSquare (length rows.now) rows.now }
    requires row { 64 * b < length rows.now }
    requires column { 64 * c < length rows.now }
    ensures { IsBlock rows.now b c result }
{
    let mut block = [0; 64];
    for i in 0..(rows.len() - 64 * b).min(64) {
        block[i] = rows[64 * b + i].word(c);
    }
    block
}

/// Writes the block at row 64 * b and column 64 * c.
fn write_block(block: &[u64; 64], b: usize, c: usize, rows: &mut [Row])
    requires square { IsSquare (length rows.old) rows.old }
    requires row { 64 * b < length rows.old }
    requires column { 64 * c < length rows.old }
    requires past { (i j : ℕ) → i < 64 → j < 64 → length rows.old ≤ 64 * c + j
        → bit_at (slice_index block.now i) j ≡ 0 }
    ensures { IsWritten (length rows.old) b c block.now rows.old rows.new (min (length rows.old - 64 * b) 64) }
{
    for i in 0..(rows.len() - 64 * b).min(64) {
        rows[64 * b + i].put_word(c, block[i]);
    }
}
