//! The lines of a relation.

ghost use Rattle.std.specs.Prelude.{◌≡◌, ◌<◌, ◌≤◌, ◌++◌, [], IfOk, OnOk, length};
ghost use Rattle.bit_matrix.specs.Matrices.{IsSquare};
ghost use Rattle.std.specs.List.{flat_map};
ghost use Rattle.witness_trees.specs.Answers.{Answers};
ghost use Rattle.witness_trees.specs.Judged.{then_judged};
ghost use Rattle.certificate_lines.specs.Lines.{lines_in, stands_at};
ghost use Rattle.certificate_lines.specs.Relations.{but_identity, relation_in, relation_text, row_in, row_text};
ghost use Rattle.certificate_lines.specs.Telling.{piece_of};

use crate::rows::{put_row, row_of, spells};
use bit_matrix::{Matrix, MatrixError};
use bit_rows::Row;
use std::alloc::{AllocError, Global};
use witness_trees::NodesTextError;
use witness_trees::reader::mark_place;

/// The lines of the relation, which has this name.
#[tactic(auto, unfolding(crate::specs::Relations::relation_text))]
pub fn put_relation(out: &mut Vec<u8>, word: &[u8], relation: &Matrix) -> Result<(), AllocError>
    ensures { OnOk result (out.new.items ≡ out.old.items ++ relation_text word.now relation.now) }
{
    // The number of places tells the proof that the rows are as long.
    let _places = relation.size();
    out.extend_from_slice(word)?;
    if relation.is_identity() {
        out.extend_from_slice(b" identity\n")?;
        return Ok(());
    }
    out.extend_from_slice(b" rows\n")?;
    put_rows(out, relation)?;
    Ok(())
}

/// A line for each row.
fn put_rows(out: &mut Vec<u8>, relation: &Matrix) -> Result<(), AllocError>
    ensures { OnOk result (out.new.items ≡ out.old.items ++ flat_map row_text relation.now) }
{
    for i in 0..relation.size() {
        put_row(out, relation.row(i))?;
    }
    Ok(())
}

/// Whether the word and the end of its line stand at this byte.
fn stands(text: &[u8], at: usize, word: &[u8], end: &[u8]) -> bool
    requires { at ≤ length text.now }
    ensures { result ≡ stands_at (word.now ++ end.now) text.now at }
{
    let rest = &text[at..];
    if !rest.starts_with(word) {
        return false;
    }
    rest[word.len()..].starts_with(end)
}

/// The row of a line that begins at this byte.
fn read_row(alloc: Global, n: usize, at: usize, line: &[u8]) -> Result<Row, NodesTextError>
    requires { n ≤ 20000 }
    ensures { Answers (λ row. row) result (row_in n [] at line.now) }
{
    let Ok(row) = row_of(alloc, n, line) else {
        return Err(NodesTextError::Memory);
    };
    if !spells(&row, line) {
        return Err(NodesTextError::BadText { at: at as u64 });
    }
    Ok(row)
}

/// The rows that begin at this byte, and the byte behind them.
fn read_rows(
    alloc: Global,
    n: usize,
    text: &[u8],
    from: usize,
) -> Result<(Vec<Row>, usize), NodesTextError>
    requires few { n ≤ 20000 }
    requires bytes { length text.now < 4294967295 }
    requires from { from ≤ length text.now }
    ensures judged { Answers (piece_of (λ rows. rows.items)) result (lines_in (row_in n) text.now n from []) }
    ensures square { IfOk result (λ r. IsSquare n r.0.items) }
    ensures within { IfOk result (λ r. r.1 ≤ length text.now) }
{
    let Ok(mut rows) = Vec::with_capacity(alloc, n) else {
        return Err(NodesTextError::Memory);
    };
    let mut at = from;
    for _i in 0..n {
        let Some(end) = mark_place(&text[at..], b'\n') else {
            return Err(NodesTextError::BadText { at: at as u64 });
        };
        let row = match read_row(alloc, n, at, &text[at..at + end]) {
            Ok(row) => row,
            Err(error) => return Err(error),
        };
        let Ok(()) = rows.push(row) else {
            return Err(NodesTextError::Memory);
        };
        at += end + 1;
    }
    Ok((rows, at))
}

/// The relation in rows that begin at this byte, and the byte behind them. The line above them begins at `head`.
fn read_rows_below(
    alloc: Global,
    n: usize,
    text: &[u8],
    head: usize,
    from: usize,
) -> Result<(Matrix, usize), NodesTextError>
    requires few { n ≤ 20000 }
    requires bytes { length text.now < 4294967295 }
    requires from { from ≤ length text.now }
    requires head { head ≤ from }
    ensures judged { Answers (piece_of (λ m. m)) result (then_judged (lines_in (row_in n) text.now n from []) (but_identity head)) }
    ensures square { IfOk result (λ r. IsSquare n r.0) }
    ensures within { IfOk result (λ r. r.1 ≤ length text.now) }
{
    match read_rows(alloc, n, text, from) {
        Ok((rows, after)) => {
            let relation = Matrix::of_rows(rows);
            if relation.is_identity() {
                return Err(NodesTextError::BadText { at: head as u64 });
            }
            Ok((relation, after))
        }
        Err(error) => Err(error),
    }
}

/// The relation of n places that has this name and begins at this byte, and the byte behind its
/// lines.
#[tactic(auto, unfolding(crate::specs::Relations::relation_in))]
pub fn read_relation(
    alloc: Global,
    word: &[u8],
    n: usize,
    text: &[u8],
    at: usize,
) -> Result<(Matrix, usize), NodesTextError>
    requires bytes { length text.now < 4294967295 }
    requires from { at ≤ length text.now }
    ensures judged { Answers (piece_of (λ m. m)) result (relation_in word.now n text.now at) }
    ensures square { IfOk result (λ r. IsSquare n r.0) }
    ensures within { IfOk result (λ r. r.1 ≤ length text.now) }
{
    if n > 20_000 {
        return Err(NodesTextError::BadText { at: at as u64 });
    }
    if stands(text, at, word, b" identity\n") {
        return match Matrix::identity(alloc, n) {
            Ok(relation) => Ok((relation, at + word.len() + 10)),
            Err(MatrixError::Memory) => Err(NodesTextError::Memory),
            Err(MatrixError::TooLarge) => unreachable!(),
        };
    }
    if stands(text, at, word, b" rows\n") {
        return read_rows_below(alloc, n, text, at, at + word.len() + 6);
    }
    Err(NodesTextError::BadText { at: at as u64 })
}
