//! The lines of pairs.

ghost use Rattle.std.specs.Prelude.{◌≡◌, ◌<◌, ◌≤◌, ◌+◌, ◌++◌, ◌∷◌, [], ℕ, List, All, IfOk, OnOk, Some, None, length, map, codes, if◌then◌else◌};
ghost use Rattle.std.specs.List.{flat_map};
ghost use Rattle.tree_definitions.specs.Name.{is_name};
ghost use Rattle.tree_definitions.specs.Cover.{FitsPair};
ghost use Rattle.listed_pairs.specs.Members.{members, row_with};
ghost use Rattle.listed_pairs.specs.Order.{AreRising};
ghost use Rattle.witness_trees.specs.Answers.{Answers, Spells};
ghost use Rattle.witness_trees.specs.Judged.{pieces_at};
ghost use Rattle.certificate_lines.specs.Lines.{count_in, lines_in};
ghost use Rattle.certificate_lines.specs.Pairs.{comes_behind, pair_in, pair_judged, pair_named, pair_text, pairs_in, pairs_text, spelled_names, spelled_words, state_name, states_in};
ghost use Rattle.certificate_lines.specs.Telling.{piece_of, span};

use crate::names::StatePlaces;
use bit_rows::Row;
use listed_pairs::{Pair, pair_cmp};
use std::alloc::{AllocError, Global};
use std::cmp::Ordering;
use ta_model::{Listed, Name, NameError};
use witness_trees::NodesTextError;
use witness_trees::reader::{mark_place, pieces, value_of, writes_number};

/// The name at this place.
pub fn put_name(out: &mut Vec<u8>, names: &[Name], place: usize) -> Result<(), AllocError>
    requires { place < length names.now }
    ensures { OnOk result (out.new.items ≡ out.old.items ++ state_name names.now place) }
{
    out.extend_from_slice(names[place].bytes())?;
    Ok(())
}

/// The names of the set's members, each behind a space.
fn put_members(out: &mut Vec<u8>, names: &[Name], set: &Row) -> Result<(), AllocError>
    requires { length set.now ≡ length names.now }
    ensures { OnOk result (out.new.items ≡ out.old.items ++ flat_map (λ s. 32 ∷ state_name names.now s) (members set.now)) }
{
    // The number of places tells the proof that a place fits.
    let _places = set.len();
    let mut from = 0;
    while let Some(s) = set.first_from(from) {
        out.push(b' ')?;
        put_name(out, names, s)?;
        from = s + 1;
    }
    Ok(())
}

/// The pair without a line feed.
pub fn put_pair(out: &mut Vec<u8>, a: &Listed, b: &Listed, pair: &Pair) -> Result<(), AllocError>
    requires { FitsPair a.now b.now pair.now }
    ensures { OnOk result (out.new.items ≡ out.old.items ++ pair_text a.now b.now pair.now) }
{
    put_name(out, a.states(), pair.state as usize)?;
    out.extend_from_slice(b" :")?;
    put_members(out, b.states(), &pair.set)?;
    Ok(())
}

/// A line for each pair.
fn put_lines(out: &mut Vec<u8>, a: &Listed, b: &Listed, pairs: &[Pair]) -> Result<(), AllocError>
    requires { All (FitsPair a.now b.now) pairs.now }
    ensures { OnOk result (out.new.items ≡ out.old.items ++ flat_map (λ pair. pair_text a.now b.now pair ++ 10 ∷ []) pairs.now) }
{
    for pair in pairs {
        put_pair(out, a, b, pair)?;
        out.push(b'\n')?;
    }
    Ok(())
}

/// The line `pairs N` and a line for each of the N pairs.
#[tactic(auto, unfolding(crate::specs::Pairs::pairs_text))]
pub fn put_pairs(
    out: &mut Vec<u8>,
    a: &Listed,
    b: &Listed,
    pairs: &[Pair],
) -> Result<(), AllocError>
    requires { All (FitsPair a.now b.now) pairs.now }
    ensures { OnOk result (out.new.items ≡ out.old.items ++ pairs_text a.now b.now pairs.now) }
{
    out.extend_from_slice(b"pairs ")?;
    let count = (pairs.len() as u64).to_string(*out.allocator())?;
    out.extend_from_slice(count.as_bytes())?;
    out.push(b'\n')?;
    put_lines(out, a, b, pairs)?;
    Ok(())
}

/// The name that the bytes are.
pub fn name_of(alloc: Global, at: u64, bytes: &[u8]) -> Result<Name, NodesTextError>
    ensures { Spells at (λ n. n) result (if is_name bytes.now then Some bytes.now else None) }
{
    match Name::of(alloc, bytes) {
        Ok(name) => Ok(name),
        Err(NameError::Bad) => Err(NodesTextError::BadText { at }),
        Err(NameError::Memory) => Err(NodesTextError::Memory),
    }
}

/// The names that the words are.
pub fn names_of(alloc: Global, at: u64, words: &[&[u8]]) -> Result<Vec<Name>, NodesTextError>
    ensures { Spells at (λ v. v.items) result (spelled_names (map (λ x. x.now) words.now)) }
{
    let Ok(mut names) = Vec::with_capacity(alloc, words.len()) else {
        return Err(NodesTextError::Memory);
    };
    for k in 0..words.len() {
        let name = match name_of(alloc, at, words[k]) {
            Ok(name) => name,
            Err(error) => return Err(error),
        };
        let Ok(()) = names.push(name) else {
            return Err(NodesTextError::Memory);
        };
    }
    Ok(names)
}

/// The names of a pair's state and of its members.
pub fn spelled_of(
    alloc: Global,
    at: u64,
    words: &[&[u8]],
) -> Result<(Name, Vec<Name>), NodesTextError>
    ensures { Spells {Y = List ℕ × List (List ℕ)} at (λ r. (r.0, r.1.items)) result (spelled_words (map (λ x. x.now) words.now)) }
{
    let [state, colon, members @ ..] = words else {
        return Err(NodesTextError::BadText { at });
    };
    let state = match name_of(alloc, at, state) {
        Ok(state) => state,
        Err(error) => return Err(error),
    };
    if *colon != b":".as_slice() {
        return Err(NodesTextError::BadText { at });
    }
    match names_of(alloc, at, members) {
        Ok(members) => Ok((state, members)),
        Err(error) => Err(error),
    }
}

/// The places of the states that the names are, of which the first stands at this byte.
pub fn places_of(
    alloc: Global,
    states: &StatePlaces,
    from: usize,
    names: &[Name],
) -> Result<Vec<u32>, NodesTextError>
    requires { from + span names.now < 4294967296 }
    ensures { Answers (λ v. v.items) result (states_in states.now from [] names.now) }
{
    let Ok(mut places) = Vec::with_capacity(alloc, names.len()) else {
        return Err(NodesTextError::Memory);
    };
    let mut at = from;
    for name in names {
        let Some(place) = states.find(name) else {
            return Err(NodesTextError::UnknownName { at: at as u64 });
        };
        let Ok(()) = places.push(place) else {
            return Err(NodesTextError::Memory);
        };
        at += name.bytes().len() + 1;
    }
    Ok(places)
}

/// The set of these places.
pub fn set_of(alloc: Global, n: usize, places: &[u32]) -> Result<Row, AllocError>
    requires { All (λ s. s < n) places.now }
    ensures { IfOk result (λ row. row ≡ row_with n places.now) }
{
    let mut set = Row::zeros(alloc, n)?;
    for place in places {
        set.set(*place as usize);
    }
    Ok(set)
}

/// Whether the pair comes behind those read.
fn is_behind(read: &[Pair], pair: &Pair) -> bool
    ensures { result ≡ comes_behind read.now pair.now }
{
    match read.last() {
        Some(last) => pair_cmp(last, pair) == Ordering::Less,
        None => true,
    }
}

/// The pair, where the line that begins at this byte is its text and it comes behind those read.
fn judged_of(
    alloc: Global,
    a: &Listed,
    b: &Listed,
    read: &[Pair],
    at: usize,
    line: &[u8],
    pair: Pair,
) -> Result<Pair, NodesTextError>
    requires { FitsPair a.now b.now pair }
    ensures { Answers (λ p. p) result (pair_judged a.now b.now read.now at line.now pair) }
{
    let Ok(mut text) = Vec::with_capacity(alloc, line.len()) else {
        return Err(NodesTextError::Memory);
    };
    let Ok(()) = put_pair(&mut text, a, b, &pair) else {
        return Err(NodesTextError::Memory);
    };
    if text.as_slice() != line {
        return Err(NodesTextError::BadText { at: at as u64 });
    }
    if !is_behind(read, &pair) {
        return Err(NodesTextError::BadText { at: at as u64 });
    }
    Ok(pair)
}

/// The pair of these names, where the line that begins at this byte is its text.
fn named_of(
    alloc: Global,
    a: &Listed,
    b: &Listed,
    left: &StatePlaces,
    right: &StatePlaces,
    read: &[Pair],
    at: usize,
    line: &[u8],
    state: &Name,
    members: &[Name],
) -> Result<Pair, NodesTextError>
    requires left { left.now ≡ a.now.states }
    requires right { right.now ≡ b.now.states }
    requires place { at + (length state.now + 3 + span members.now) < 4294967296 }
    ensures { Answers (λ p. p) result (pair_named a.now b.now read.now at line.now state.now members.now) }
{
    let Some(q) = left.find(state) else {
        return Err(NodesTextError::UnknownName { at: at as u64 });
    };
    let places = match places_of(alloc, right, at + state.bytes().len() + 3, members) {
        Ok(places) => places,
        Err(error) => return Err(error),
    };
    let Ok(set) = set_of(alloc, b.states().len(), &places) else {
        return Err(NodesTextError::Memory);
    };
    judged_of(alloc, a, b, read, at, line, Pair { state: q, set })
}

/// The pair of the line that begins at this byte.
#[tactic(auto, unfolding(crate::specs::Pairs::pair_in))]
fn read_pair(
    alloc: Global,
    a: &Listed,
    b: &Listed,
    left: &StatePlaces,
    right: &StatePlaces,
    read: &[Pair],
    at: usize,
    line: &[u8],
) -> Result<Pair, NodesTextError>
    requires left { left.now ≡ a.now.states }
    requires right { right.now ≡ b.now.states }
    requires place { at + length line.now < 4294967295 }
    ensures { Answers (λ p. p) result (pair_in a.now b.now read.now at line.now) }
{
    let Ok(words) = pieces(alloc, line, b' ') else {
        return Err(NodesTextError::Memory);
    };
    match spelled_of(alloc, at as u64, &words) {
        Ok((state, members)) => {
            named_of(alloc, a, b, left, right, read, at, line, &state, &members)
        }
        Err(error) => Err(error),
    }
}

/// The pairs of so many lines that begin at this byte, and the byte behind them.
fn read_lines(
    alloc: Global,
    a: &Listed,
    b: &Listed,
    left: &StatePlaces,
    right: &StatePlaces,
    text: &[u8],
    due: u64,
    from: usize,
) -> Result<(Vec<Pair>, usize), NodesTextError>
    requires left { left.now ≡ a.now.states }
    requires right { right.now ≡ b.now.states }
    requires bytes { length text.now < 4294967295 }
    requires from { from ≤ length text.now }
    ensures { Answers (piece_of (λ v. v.items)) result (lines_in (pair_in a.now b.now) text.now due from []) }
{
    let mut pairs = Vec::new(alloc);
    let mut at = from;
    for _i in 0..due {
        let Some(end) = mark_place(&text[at..], b'\n') else {
            return Err(NodesTextError::BadText { at: at as u64 });
        };
        let line = &text[at..at + end];
        let pair = match read_pair(alloc, a, b, left, right, &pairs, at, line) {
            Ok(pair) => pair,
            Err(error) => return Err(error),
        };
        let Ok(()) = pairs.push(pair) else {
            return Err(NodesTextError::Memory);
        };
        at += end + 1;
    }
    Ok((pairs, at))
}

/// How many pairs the line says.
fn count_of(line: &[u8]) -> Option<u64>
    ensures { result ≡ count_in (codes "pairs ") line.now }
{
    if !line.starts_with(b"pairs ") {
        return None;
    }
    let digits = &line[6..];
    if !writes_number(digits) {
        return None;
    }
    let count = value_of(digits);
    if count < 4_294_967_295 {
        Some(count)
    } else {
        None
    }
}

/// The pairs that stand from this byte to the end of the text.
#[tactic(auto, unfolding(crate::specs::Pairs::pairs_in))]
pub fn read_pairs(
    alloc: Global,
    a: &Listed,
    b: &Listed,
    text: &[u8],
    at: usize,
) -> Result<Vec<Pair>, NodesTextError>
    requires bytes { length text.now < 4294967295 }
    requires from { at ≤ length text.now }
    ensures { Answers (λ v. v.items) result (pairs_in a.now b.now text.now at) }
{
    let Some(end) = mark_place(&text[at..], b'\n') else {
        return Err(NodesTextError::BadText { at: at as u64 });
    };
    let Some(due) = count_of(&text[at..at + end]) else {
        return Err(NodesTextError::BadText { at: at as u64 });
    };
    let Ok(left) = StatePlaces::of(alloc, a.states()) else {
        return Err(NodesTextError::Memory);
    };
    let Ok(right) = StatePlaces::of(alloc, b.states()) else {
        return Err(NodesTextError::Memory);
    };
    let (pairs, after) = match read_lines(alloc, a, b, &left, &right, text, due, at + end + 1) {
        Ok(found) => found,
        Err(error) => return Err(error),
    };
    if after < text.len() {
        return Err(NodesTextError::BadText { at: after as u64 });
    }
    Ok(pairs)
}
