//! The line of a trail's budget, and that of how many entries go with it.

ghost use Rattle.std.specs.Prelude.{◌≡◌, ◌<◌, ◌≤◌, ◌++◌, IfOk, IfSome, OnOk, length};
ghost use Rattle.witness_trees.specs.Answers.{Answers};
ghost use Rattle.certificate_lines.specs.Budgets.{budget_in, count_behind, entries_line, head_in, head_text};
ghost use Rattle.certificate_lines.specs.Telling.{piece_of};

use std::alloc::{AllocError, Global};
use witness_trees::reader::{mark_place, value_of, writes_number};
use witness_trees::{NodesTextError, put_number};

/// The line that says how many entries go with the budget.
fn put_count(out: &mut Vec<u8>, budget: u32) -> Result<(), AllocError>
    ensures { OnOk result (out.new.items ≡ out.old.items ++ entries_line budget) }
{
    out.extend_from_slice(b"entries ")?;
    put_number(out, u64::from(budget) + 1)?;
    out.push(b'\n')?;
    Ok(())
}

/// The line `budget K`, and the line `entries N` where N is one more.
pub fn put_head(out: &mut Vec<u8>, budget: u32) -> Result<(), AllocError>
    ensures { OnOk result (out.new.items ≡ out.old.items ++ head_text budget) }
{
    out.extend_from_slice(b"budget ")?;
    put_number(out, u64::from(budget))?;
    out.push(b'\n')?;
    put_count(out, budget)?;
    Ok(())
}

/// The budget that the line says.
fn budget_of(line: &[u8]) -> Option<u32>
    ensures value { result ≡ budget_in line.now }
    ensures few { IfSome result (λ budget. budget ≤ 1000000) }
{
    if !line.starts_with(b"budget ") {
        return None;
    }
    let digits = &line[7..];
    if !writes_number(digits) {
        return None;
    }
    let budget = value_of(digits);
    if 1 <= budget && budget <= 1_000_000 {
        Some(budget as u32)
    } else {
        None
    }
}

/// The budget and the byte behind the line of how many entries go with it, which is due at this byte.
fn read_count(
    alloc: Global,
    text: &[u8],
    at: usize,
    budget: u32,
) -> Result<(u32, usize), NodesTextError>
    requires budget { budget ≤ 1000000 }
    requires bytes { length text.now < 4294967295 }
    requires at { at ≤ length text.now }
    ensures judged { Answers (piece_of (λ k. k)) result (count_behind text.now at budget) }
    ensures few { IfOk result (λ head. head.0 ≤ 1000000) }
    ensures within { IfOk result (λ head. head.1 ≤ length text.now) }
{
    let mut count = Vec::new(alloc);
    let Ok(()) = put_count(&mut count, budget) else {
        return Err(NodesTextError::Memory);
    };
    if !text[at..].starts_with(&count) {
        return Err(NodesTextError::BadText { at: at as u64 });
    }
    Ok((budget, at + count.len()))
}

/// The budget of the two lines that begin at this byte, and the byte behind them.
#[tactic(auto, unfolding(crate::specs::Budgets::head_in))]
pub fn read_head(alloc: Global, text: &[u8], at: usize) -> Result<(u32, usize), NodesTextError>
    requires bytes { length text.now < 4294967295 }
    requires from { at ≤ length text.now }
    ensures judged { Answers (piece_of (λ k. k)) result (head_in text.now at) }
    ensures few { IfOk result (λ head. head.0 ≤ 1000000) }
    ensures within { IfOk result (λ head. head.1 ≤ length text.now) }
{
    let Some(end) = mark_place(&text[at..], b'\n') else {
        return Err(NodesTextError::BadText { at: at as u64 });
    };
    let Some(budget) = budget_of(&text[at..at + end]) else {
        return Err(NodesTextError::BadText { at: at as u64 });
    };
    read_count(alloc, text, at + end + 1, budget)
}
