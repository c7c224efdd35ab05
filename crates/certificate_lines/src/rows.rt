//! Rows as hexadecimal digits.

ghost use Rattle.std.specs.Prelude.{◌≡◌, ◌<◌, ◌≤◌, ◌*◌, ◌++◌, ◌↔◌, ℕ, IfOk, OnOk, IsTrue, length};
ghost use Rattle.certificate_lines.specs.Relations.{bit_of, bit_for, digit_at, digits_for, has_place, hex_digit, hex_value, row_digits, row_from, row_text};

use bit_rows::Row;
use std::alloc::{AllocError, Global};

/// 1 where the row has the place, else 0.
fn bit(row: &Row, j: usize) -> u8
    ensures value { result ≡ bit_of row.now j }
    ensures small { result ≤ 1 }
{
    if j < row.len() && row.get(j) { 1 } else { 0 }
}

/// A lower case hexadecimal digit.
fn digit_of(value: u8) -> u8
    requires { value < 16 }
    ensures { result ≡ hex_digit value }
{
    if value <= 9 { 48 + value } else { 87 + value }
}

/// The digit of the places 4 * k to 4 * k + 3.
fn digit(row: &Row, k: usize) -> u8
    requires place { 4 * k < length row.now }
    requires few { length row.now ≤ 20000 }
    ensures { result ≡ digit_at row.now k }
{
    let first = 8 * bit(row, 4 * k) + 4 * bit(row, 4 * k + 1);
    digit_of(first + 2 * bit(row, 4 * k + 2) + bit(row, 4 * k + 3))
}

/// How many digits a row of n places has.
fn digits(n: usize) -> usize
    requires { n ≤ 20000 }
    ensures { result ≡ digits_for n }
{
    (n + 3) / 4
}

/// The row's digits and a line feed.
pub(crate) fn put_row(out: &mut Vec<u8>, row: &Row) -> Result<(), AllocError>
    requires { length row.now ≤ 20000 }
    ensures { OnOk result (out.new.items ≡ out.old.items ++ row_text row.now) }
{
    for k in 0..digits(row.len()) {
        out.push(digit(row, k))?;
    }
    out.push(b'\n')?;
    Ok(())
}

/// Whether these are the row's digits.
pub(crate) fn spells(row: &Row, line: &[u8]) -> bool
    requires { length row.now ≤ 20000 }
    ensures { IsTrue result ↔ (row_digits row.now ≡ line.now) }
{
    if line.len() != digits(row.len()) {
        return false;
    }
    for k in 0..line.len() {
        if line[k] != digit(row, k) {
            return false;
        }
    }
    true
}

/// The value that a digit stands for.
fn value_of(digit: u8) -> u8
    ensures { result ≡ hex_value digit }
{
    if digit <= 57 {
        digit.saturating_sub(48)
    } else {
        digit.saturating_sub(87)
    }
}

/// The bit of a digit for the first, second, third or last of its places.
fn bit_in(place: usize, value: u8) -> u8
    ensures { result ≡ bit_for place value }
{
    match place {
        0 => value / 8 % 2,
        1 => value / 4 % 2,
        2 => value / 2 % 2,
        _ => value % 2,
    }
}

/// Whether the digits have place j.
fn has(line: &[u8], j: usize) -> bool
    ensures { result ≡ has_place line.now j }
{
    let digit = match line.get(j / 4) {
        Some(digit) => *digit,
        None => 0,
    };
    bit_in(j % 4, value_of(digit)) == 1
}

/// The row of n places that the digits write.
pub(crate) fn row_of(alloc: Global, n: usize, line: &[u8]) -> Result<Row, AllocError>
    ensures { IfOk result (λ row. row ≡ row_from n line.now) }
{
    let mut row = Row::zeros(alloc, n)?;
    for j in 0..n {
        if has(line, j) {
            row.set(j);
        }
    }
    Ok(row)
}
