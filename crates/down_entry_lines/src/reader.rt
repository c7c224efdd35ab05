//! Reading a budget and entries.

ghost use Rattle.std.specs.Prelude.{◌≡◌, ◌+◌, ◌<◌, ◌≤◌, [], All, IfOk, length};
ghost use Rattle.tree_definitions.specs.Cover.{FitsPair};
ghost use Rattle.listed_pairs.specs.DownEntries.{AreDownEntries, entries_of, entry_of};
ghost use Rattle.witness_trees.specs.Answers.{Answers};
ghost use Rattle.witness_trees.specs.Judged.{then_judged};
ghost use Rattle.certificate_lines.specs.Budgets.{end_of_entries};
ghost use Rattle.certificate_lines.specs.Lines.{lines_in};
ghost use Rattle.certificate_lines.specs.Telling.{piece_of, span};
ghost use Rattle.down_entry_lines.specs.Entries.{ChildLine, RootLine, SplitLine, down_entries_in, entry_in, entry_named, pair_named};
ghost use Rattle.down_entry_lines.specs.Fitting.{AreRanksSmall, IsRankSmall};
ghost use Rattle.down_entry_lines.specs.Views.{StandsWithin, budgeted_view, line_view};

use crate::judging::{child_of, judged_of, split_of};
use crate::rule_places::RulePlaces;
use crate::written::{Line, written_of};
use certificate_lines::StatePlaces;
use certificate_lines::budgets::read_head;
use certificate_lines::pairs::{places_of, set_of};
use listed_pairs::{DownEntry, Pair};
use std::alloc::Global;
use ta_model::{Listed, Name, Symbol};
use witness_trees::reader::mark_place;
use witness_trees::{NodesTextError, SymbolPlaces};

/// The pair with these names, in a line that begins at this byte.
fn pair_of(
    alloc: Global,
    a: &Listed,
    b: &Listed,
    left: &StatePlaces,
    right: &StatePlaces,
    at: usize,
    state: &Name,
    members: &[Name],
) -> Result<Pair, NodesTextError>
    requires left { left.now ≡ a.now.states }
    requires right { right.now ≡ b.now.states }
    requires place { at + (5 + length state.now + 3 + span members.now) < 4294967296 }
    ensures named { Answers (λ p. p) result (pair_named a.now b.now at state.now members.now) }
    ensures fits { IfOk result (λ pair. FitsPair a.now b.now pair) }
{
    let Some(q) = left.find(state) else {
        return Err(NodesTextError::UnknownName {
            at: (at + 5) as u64,
        });
    };
    let places = match places_of(alloc, right, at + 5 + state.bytes().len() + 3, members) {
        Ok(places) => places,
        Err(error) => return Err(error),
    };
    let Ok(set) = set_of(alloc, b.states().len(), &places) else {
        return Err(NodesTextError::Memory);
    };
    Ok(Pair { state: q, set })
}

/// The pair to begin with that has these names, where the line is its text.
fn root_named(
    alloc: Global,
    a: &Listed,
    b: &Listed,
    left: &StatePlaces,
    right: &StatePlaces,
    read: &[DownEntry],
    at: usize,
    line: &[u8],
    state: &Name,
    members: &[Name],
) -> Result<DownEntry, NodesTextError>
    requires left { left.now ≡ a.now.states }
    requires right { right.now ≡ b.now.states }
    requires place { at + (5 + length state.now + 3 + span members.now) < 4294967296 }
    ensures { Answers entry_of result (entry_named a.now b.now (entries_of read.now) at line.now (RootLine state.now members.now)) }
{
    match pair_of(alloc, a, b, left, right, at, state, members) {
        Ok(pair) => judged_of(alloc, a, b, at, line, DownEntry::Root { pair }),
        Err(error) => Err(error),
    }
}

/// The pair of a child that has these names and numbers.
fn child_named(
    alloc: Global,
    a: &Listed,
    b: &Listed,
    left: &StatePlaces,
    right: &StatePlaces,
    read: &[DownEntry],
    at: usize,
    line: &[u8],
    state: &Name,
    members: &[Name],
    split: u64,
    place: u64,
) -> Result<DownEntry, NodesTextError>
    requires left { left.now ≡ a.now.states }
    requires right { right.now ≡ b.now.states }
    requires ranks { AreRanksSmall a.now }
    requires few { length read.now < 4294967295 }
    requires place { at + (5 + length state.now + 3 + span members.now) < 4294967296 }
    ensures { Answers entry_of result (entry_named a.now b.now (entries_of read.now) at line.now (ChildLine state.now members.now split place)) }
{
    match pair_of(alloc, a, b, left, right, at, state, members) {
        Ok(pair) => child_of(alloc, a, b, read, at, line, split, place, pair),
        Err(error) => Err(error),
    }
}

/// The split that has these names and numbers.
fn split_named(
    alloc: Global,
    a: &Listed,
    b: &Listed,
    left: &StatePlaces,
    symbols: &SymbolPlaces,
    rules: &RulePlaces,
    read: &[DownEntry],
    at: usize,
    line: &[u8],
    number: u64,
    from: usize,
    name: Name,
    children: &[Name],
    choice: &[u64],
) -> Result<DownEntry, NodesTextError>
    requires left { left.now ≡ a.now.states }
    requires symbols { symbols.now ≡ a.now.symbols }
    requires rules { rules.now ≡ a.now.rules }
    requires ranks { AreRanksSmall a.now }
    requires few { length read.now < 4294967295 }
    requires place { at + (from + length name + 1 + span children.now) < 4294967296 }
    ensures { Answers entry_of result (entry_named a.now b.now (entries_of read.now) at line.now (SplitLine number from name children.now choice.now)) }
{
    let start = at + from + name.bytes().len() + 1;
    let Some(symbol) = symbols.find_called(name, children.len()) else {
        return Err(NodesTextError::UnknownName {
            at: (at + from) as u64,
        });
    };
    match places_of(alloc, left, start, children) {
        Ok(kids) => {
            split_of(
                alloc, a, b, rules, read, at, line, number, choice, symbol, &kids,
            )
        }
        Err(error) => Err(error),
    }
}

/// The entry of these names and numbers, behind those read, in a line that begins at this byte.
fn named_of(
    alloc: Global,
    a: &Listed,
    b: &Listed,
    left: &StatePlaces,
    right: &StatePlaces,
    symbols: &SymbolPlaces,
    rules: &RulePlaces,
    read: &[DownEntry],
    at: usize,
    line: &[u8],
    written: Line,
) -> Result<DownEntry, NodesTextError>
    requires left { left.now ≡ a.now.states }
    requires right { right.now ≡ b.now.states }
    requires symbols { symbols.now ≡ a.now.symbols }
    requires rules { rules.now ≡ a.now.rules }
    requires ranks { AreRanksSmall a.now }
    requires few { length read.now < 4294967295 }
    requires place { at + length line.now < 4294967295 }
    requires names { StandsWithin (length line.now) (line_view written) }
    ensures { Answers entry_of result (entry_named a.now b.now (entries_of read.now) at line.now (line_view written)) }
{
    match written {
        Line::Root { state, members } => {
            root_named(alloc, a, b, left, right, read, at, line, &state, &members)
        }
        Line::Child {
            state,
            members,
            split,
            place,
        } => {
            child_named(
                alloc, a, b, left, right, read, at, line, &state, &members, split, place,
            )
        }
        Line::Split {
            number,
            from,
            name,
            children,
            choice,
        } => {
            split_named(
                alloc, a, b, left, symbols, rules, read, at, line, number, from, name, &children,
                &choice,
            )
        }
    }
}

/// The entry of the line that begins at this byte, behind those read.
#[tactic(auto, unfolding(crate::specs::Entries::entry_in))]
fn read_entry(
    alloc: Global,
    a: &Listed,
    b: &Listed,
    left: &StatePlaces,
    right: &StatePlaces,
    symbols: &SymbolPlaces,
    rules: &RulePlaces,
    read: &[DownEntry],
    at: usize,
    line: &[u8],
) -> Result<DownEntry, NodesTextError>
    requires left { left.now ≡ a.now.states }
    requires right { right.now ≡ b.now.states }
    requires symbols { symbols.now ≡ a.now.symbols }
    requires rules { rules.now ≡ a.now.rules }
    requires ranks { AreRanksSmall a.now }
    requires few { length read.now < 4294967295 }
    requires place { at + length line.now < 4294967295 }
    ensures { Answers entry_of result (entry_in a.now b.now (entries_of read.now) at line.now) }
{
    // The call tells the proof that the rules of A fit.
    let _rules = a.rules();
    match written_of(alloc, at as u64, line) {
        Ok(written) => {
            named_of(
                alloc, a, b, left, right, symbols, rules, read, at, line, written,
            )
        }
        Err(error) => Err(error),
    }
}

/// The entries of so many lines that begin at this byte, and the byte behind them.
fn read_lines(
    alloc: Global,
    a: &Listed,
    b: &Listed,
    left: &StatePlaces,
    right: &StatePlaces,
    symbols: &SymbolPlaces,
    rules: &RulePlaces,
    text: &[u8],
    due: u64,
    from: usize,
) -> Result<(Vec<DownEntry>, usize), NodesTextError>
    requires left { left.now ≡ a.now.states }
    requires right { right.now ≡ b.now.states }
    requires symbols { symbols.now ≡ a.now.symbols }
    requires rules { rules.now ≡ a.now.rules }
    requires ranks { AreRanksSmall a.now }
    requires few { due < 4294967295 }
    requires bytes { length text.now < 4294967295 }
    requires from { from ≤ length text.now }
    ensures { Answers (piece_of (λ v. entries_of v.items)) result (lines_in (entry_in a.now b.now) text.now due from []) }
{
    let mut entries = Vec::new(alloc);
    let mut at = from;
    for _i in 0..due {
        let Some(end) = mark_place(&text[at..], b'\n') else {
            return Err(NodesTextError::BadText { at: at as u64 });
        };
        let line = &text[at..at + end];
        let entry = match read_entry(alloc, a, b, left, right, symbols, rules, &entries, at, line) {
            Ok(entry) => entry,
            Err(error) => return Err(error),
        };
        let Ok(()) = entries.push(entry) else {
            return Err(NodesTextError::Memory);
        };
        at += end + 1;
    }
    Ok((entries, at))
}

fn rank_of(symbol: &Symbol) -> u8
    ensures { result ≡ symbol.now.rank }
{
    symbol.rank
}

/// Tells the proof that each symbol's rank is one of a byte.
fn learn_ranks(symbols: &[Symbol])
    ensures { All IsRankSmall symbols.now }
{
    for symbol in symbols {
        let _rank = rank_of(symbol);
    }
}

/// The entries of so many lines that begin at this byte and end with the text.
fn read_to_end(
    alloc: Global,
    a: &Listed,
    b: &Listed,
    text: &[u8],
    budget: u32,
    from: usize,
) -> Result<(u32, Vec<DownEntry>), NodesTextError>
    requires budget { budget ≤ 1000000 }
    requires bytes { length text.now < 4294967295 }
    requires from { from ≤ length text.now }
    ensures { Answers (budgeted_view (λ v. v.items)) result (then_judged (lines_in (entry_in a.now b.now) text.now (budget + 1) from []) (end_of_entries text.now budget)) }
{
    let Ok(left) = StatePlaces::of(alloc, a.states()) else {
        return Err(NodesTextError::Memory);
    };
    let Ok(right) = StatePlaces::of(alloc, b.states()) else {
        return Err(NodesTextError::Memory);
    };
    let Ok(symbols) = SymbolPlaces::of(alloc, a.symbols()) else {
        return Err(NodesTextError::Memory);
    };
    let Ok(rules) = RulePlaces::of(alloc, a.rules()) else {
        return Err(NodesTextError::Memory);
    };
    learn_ranks(a.symbols());
    let due = u64::from(budget) + 1;
    match read_lines(
        alloc, a, b, &left, &right, &symbols, &rules, text, due, from,
    ) {
        Ok((entries, after)) => {
            if after < text.len() {
                return Err(NodesTextError::BadText { at: after as u64 });
            }
            Ok((budget, entries))
        }
        Err(error) => Err(error),
    }
}

/// The budget and the entries that stand from this byte to the end of the text.
#[tactic(auto, unfolding(crate::specs::Entries::down_entries_in))]
fn read_all(
    alloc: Global,
    a: &Listed,
    b: &Listed,
    text: &[u8],
    at: usize,
) -> Result<(u32, Vec<DownEntry>), NodesTextError>
    requires bytes { length text.now < 4294967295 }
    requires from { at ≤ length text.now }
    ensures { Answers (budgeted_view (λ v. v.items)) result (down_entries_in a.now b.now text.now at) }
{
    match read_head(alloc, text, at) {
        Ok((budget, from)) => read_to_end(alloc, a, b, text, budget, from),
        Err(error) => Err(error),
    }
}

/// The budget and the entries that stand from this byte to the end of the text.
pub fn read_down_entries(
    alloc: Global,
    a: &Listed,
    b: &Listed,
    text: &[u8],
    at: usize,
) -> Result<(u32, Vec<DownEntry>), NodesTextError>
    requires bytes { length text.now < 4294967295 }
    requires from { at ≤ length text.now }
    ensures judged { Answers (budgeted_view (λ v. v.items)) result (down_entries_in a.now b.now text.now at) }
    ensures fits { IfOk result (λ found. AreDownEntries a.now b.now found.0 (entries_of found.1.items)) }
{
    read_all(alloc, a, b, text, at)
}
