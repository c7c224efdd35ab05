//! Reading a budget and entries.

ghost use Rattle.std.specs.Prelude.{◌≡◌, ◌+◌, ◌-◌, ◌<◌, ◌≤◌, [], All, IfOk, length, map};
ghost use Rattle.std.specs.Str.{bytes_eq};
ghost use Rattle.witness_trees.specs.Answers.{Answers};
ghost use Rattle.witness_trees.specs.Judged.{then_judged};
ghost use Rattle.certificate_lines.specs.Budgets.{end_of_entries};
ghost use Rattle.certificate_lines.specs.Lines.{lines_in};
ghost use Rattle.certificate_lines.specs.Telling.{piece_of, span};
ghost use Rattle.entry_lines.specs.Entries.{entry_in, entry_judged, entry_named, entry_of, entry_text, up_entries_in};
ghost use Rattle.certificate_kinds.specs.Fitting.{AreUpEntries};
ghost use Rattle.entry_lines.specs.Fitting.{IsPrintable};
ghost use Rattle.entry_lines.specs.Views.{budgeted_view, line_view};

use crate::printer::put_entry;
use crate::written::{Line, written_of};
use certificate_lines::StatePlaces;
use certificate_lines::budgets::read_head;
use certificate_lines::pairs::{places_of, set_of};
use listed_pairs::{Pair, UpEntry};
use std::alloc::{AllocError, Global};
use ta_model::Listed;
use witness_trees::reader::{are_within, mark_place};
use witness_trees::{NodesTextError, SymbolPlaces};

/// Places for numbers that count from 1.
fn kids_from(alloc: Global, numbers: &[u64]) -> Result<Vec<u32>, AllocError>
    requires { All (λ n. n ≤ 4294967295) numbers.now }
    ensures { IfOk result (λ v. v.items ≡ map (λ n. n - 1) numbers.now) }
{
    let mut kids = Vec::with_capacity(alloc, numbers.len())?;
    for n in numbers {
        kids.push((*n).saturating_sub(1) as u32)?;
    }
    Ok(kids)
}

/// Whether the line is the text of the entry.
fn is_text(
    alloc: Global,
    a: &Listed,
    b: &Listed,
    entry: &UpEntry,
    line: &[u8],
) -> Result<bool, AllocError>
    requires { IsPrintable a.now b.now entry.now }
    ensures { IfOk result (λ yes. yes ≡ bytes_eq (entry_text a.now b.now entry.now) line.now) }
{
    let mut text = Vec::with_capacity(alloc, line.len())?;
    put_entry(&mut text, a, b, entry)?;
    Ok(text.as_slice() == line)
}

/// The entry of these places and numbers, where the line that begins at this byte is that of entry k.
fn judged_of(
    alloc: Global,
    a: &Listed,
    b: &Listed,
    k: usize,
    at: usize,
    line: &[u8],
    state: u32,
    places: &[u32],
    symbol: u32,
    numbers: &[u64],
) -> Result<UpEntry, NodesTextError>
    requires state { state < length a.now.states }
    requires places { All (λ s. s < length b.now.states) places.now }
    requires symbol { symbol < length a.now.symbols }
    requires few { k < 4294967295 }
    ensures { Answers (λ e. e) result (entry_judged a.now b.now k at line.now numbers.now (entry_of b.now state places.now symbol numbers.now)) }
{
    if !are_within(k, numbers) {
        return Err(NodesTextError::BadText { at: at as u64 });
    }
    let Ok(set) = set_of(alloc, b.states().len(), places) else {
        return Err(NodesTextError::Memory);
    };
    let Ok(kids) = kids_from(alloc, numbers) else {
        return Err(NodesTextError::Memory);
    };
    let pair = Pair { state, set };
    let entry = UpEntry { pair, symbol, kids };
    match is_text(alloc, a, b, &entry, line) {
        Ok(true) => Ok(entry),
        Ok(false) => Err(NodesTextError::BadText { at: at as u64 }),
        Err(_) => Err(NodesTextError::Memory),
    }
}

/// The entry of these names and numbers, where the line that begins at this byte is that of entry k.
fn named_of(
    alloc: Global,
    a: &Listed,
    b: &Listed,
    left: &StatePlaces,
    right: &StatePlaces,
    symbols: &SymbolPlaces,
    k: usize,
    at: usize,
    line: &[u8],
    written: Line,
) -> Result<UpEntry, NodesTextError>
    requires left { left.now ≡ a.now.states }
    requires right { right.now ≡ b.now.states }
    requires symbols { symbols.now ≡ a.now.symbols }
    requires few { k < 4294967295 }
    requires place { at + length line.now < 4294967295 }
    requires names { length written.state + 3 + span written.members.items ≤ length line.now + 1 }
    requires symbol { written.place ≤ length line.now }
    ensures { Answers (λ e. e) result (entry_named a.now b.now k at line.now (line_view written)) }
{
    let Line {
        state,
        members,
        place,
        name,
        kids,
    } = written;
    let Some(q) = left.find(&state) else {
        return Err(NodesTextError::UnknownName { at: at as u64 });
    };
    let places = match places_of(alloc, right, at + state.bytes().len() + 3, &members) {
        Ok(places) => places,
        Err(error) => return Err(error),
    };
    let Some(symbol) = symbols.find_called(name, kids.len()) else {
        return Err(NodesTextError::UnknownName {
            at: (at + place) as u64,
        });
    };
    judged_of(alloc, a, b, k, at, line, q, &places, symbol, &kids)
}

/// The entry of the line that begins at this byte, behind those read.
#[tactic(auto, unfolding(crate::specs::Entries::entry_in))]
fn read_entry(
    alloc: Global,
    a: &Listed,
    b: &Listed,
    left: &StatePlaces,
    right: &StatePlaces,
    symbols: &SymbolPlaces,
    read: &[UpEntry],
    at: usize,
    line: &[u8],
) -> Result<UpEntry, NodesTextError>
    requires left { left.now ≡ a.now.states }
    requires right { right.now ≡ b.now.states }
    requires symbols { symbols.now ≡ a.now.symbols }
    requires few { length read.now < 4294967295 }
    requires place { at + length line.now < 4294967295 }
    ensures { Answers (λ e. e) result (entry_in a.now b.now read.now at line.now) }
{
    match written_of(alloc, at as u64, line) {
        Ok(written) => {
            named_of(
                alloc,
                a,
                b,
                left,
                right,
                symbols,
                read.len(),
                at,
                line,
                written,
            )
        }
        Err(error) => Err(error),
    }
}

/// The entries of so many lines that begin at this byte, and the byte behind them.
fn read_lines(
    alloc: Global,
    a: &Listed,
    b: &Listed,
    left: &StatePlaces,
    right: &StatePlaces,
    symbols: &SymbolPlaces,
    text: &[u8],
    due: u64,
    from: usize,
) -> Result<(Vec<UpEntry>, usize), NodesTextError>
    requires left { left.now ≡ a.now.states }
    requires right { right.now ≡ b.now.states }
    requires symbols { symbols.now ≡ a.now.symbols }
    requires few { due < 4294967295 }
    requires bytes { length text.now < 4294967295 }
    requires from { from ≤ length text.now }
    ensures { Answers (piece_of (λ v. v.items)) result (lines_in (entry_in a.now b.now) text.now due from []) }
{
    let mut entries = Vec::new(alloc);
    let mut at = from;
    for _i in 0..due {
        let Some(end) = mark_place(&text[at..], b'\n') else {
            return Err(NodesTextError::BadText { at: at as u64 });
        };
        let line = &text[at..at + end];
        let entry = match read_entry(alloc, a, b, left, right, symbols, &entries, at, line) {
            Ok(entry) => entry,
            Err(error) => return Err(error),
        };
        let Ok(()) = entries.push(entry) else {
            return Err(NodesTextError::Memory);
        };
        at += end + 1;
    }
    Ok((entries, at))
}

/// The entries of so many lines that begin at this byte and end with the text.
fn read_to_end(
    alloc: Global,
    a: &Listed,
    b: &Listed,
    text: &[u8],
    budget: u32,
    from: usize,
) -> Result<(u32, Vec<UpEntry>), NodesTextError>
    requires budget { budget ≤ 1000000 }
    requires bytes { length text.now < 4294967295 }
    requires from { from ≤ length text.now }
    ensures { Answers (budgeted_view (λ v. v.items)) result (then_judged (lines_in (entry_in a.now b.now) text.now (budget + 1) from []) (end_of_entries text.now budget)) }
{
    let Ok(left) = StatePlaces::of(alloc, a.states()) else {
        return Err(NodesTextError::Memory);
    };
    let Ok(right) = StatePlaces::of(alloc, b.states()) else {
        return Err(NodesTextError::Memory);
    };
    let Ok(symbols) = SymbolPlaces::of(alloc, a.symbols()) else {
        return Err(NodesTextError::Memory);
    };
    let due = u64::from(budget) + 1;
    match read_lines(alloc, a, b, &left, &right, &symbols, text, due, from) {
        Ok((entries, after)) => {
            if after < text.len() {
                return Err(NodesTextError::BadText { at: after as u64 });
            }
            Ok((budget, entries))
        }
        Err(error) => Err(error),
    }
}

/// The budget and the entries that stand from this byte to the end of the text.
#[tactic(auto, unfolding(crate::specs::Entries::up_entries_in))]
fn read_all(
    alloc: Global,
    a: &Listed,
    b: &Listed,
    text: &[u8],
    at: usize,
) -> Result<(u32, Vec<UpEntry>), NodesTextError>
    requires bytes { length text.now < 4294967295 }
    requires from { at ≤ length text.now }
    ensures { Answers (budgeted_view (λ v. v.items)) result (up_entries_in a.now b.now text.now at) }
{
    match read_head(alloc, text, at) {
        Ok((budget, from)) => read_to_end(alloc, a, b, text, budget, from),
        Err(error) => Err(error),
    }
}

/// The budget and the entries that stand from this byte to the end of the text.
pub fn read_up_entries(
    alloc: Global,
    a: &Listed,
    b: &Listed,
    text: &[u8],
    at: usize,
) -> Result<(u32, Vec<UpEntry>), NodesTextError>
    requires bytes { length text.now < 4294967295 }
    requires from { at ≤ length text.now }
    ensures judged { Answers (budgeted_view (λ v. v.items)) result (up_entries_in a.now b.now text.now at) }
    ensures fits { IfOk result (λ found. AreUpEntries a.now b.now found.0 found.1.items) }
{
    // The call tells the proof that the automaton is narrow.
    let _symbols = a.symbols();
    read_all(alloc, a, b, text, at)
}
