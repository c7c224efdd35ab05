//! What a line is judged to be once its names are found.

ghost use Rattle.std.specs.Prelude.{◌≡◌, ◌<◌, ◌≤◌, ◌-◌, All, IfOk, IfSome, length, map, slice_get};
ghost use Rattle.std.specs.Option.{option_map_or};
ghost use Rattle.tree_definitions.specs.Cover.{FitsPair};
ghost use Rattle.listed_pairs.specs.DownEntries.{entries_of, entry_of};
ghost use Rattle.witness_trees.specs.Answers.{Answers};
ghost use Rattle.down_entry_lines.specs.Entries.{child_judged, count_of_split, entry_judged, pair_state, place_of, rule_place, split_count, split_judged, state_of_pair};
ghost use Rattle.down_entry_lines.specs.Fitting.{AreRanksSmall, IsPrintable};

use crate::printer::put_entry;
use crate::rule_places::RulePlaces;
use listed_pairs::{DownEntry, Pair};
use smallvec::SmallVec;
use std::alloc::{AllocError, Global};
use ta_model::{Listed, Rule};
use witness_trees::NodesTextError;
use witness_trees::reader::are_within;

/// The place of which this is the number, of k places. Takes no memory.
fn place_within(k: usize, number: u64) -> Option<usize>
    ensures value { result ≡ place_of k number }
    ensures within { IfSome result (λ place. place < k) }
{
    if 1 <= number && number <= k as u64 {
        Some((number - 1) as usize)
    } else {
        None
    }
}

/// The place of an earlier entry with this number. Takes no memory.
fn earlier(read: &[DownEntry], number: u64) -> Option<usize>
    ensures value { result ≡ place_of (length (entries_of read.now)) number }
    ensures within { IfSome result (λ place. place < length read.now) }
{
    place_within(read.len(), number)
}

/// The state of the entry's pair, where it has one. Takes no memory.
fn state_of(entry: &DownEntry) -> Option<u32>
    ensures { result ≡ pair_state (entry_of entry.now) }
{
    match entry {
        DownEntry::Root { pair } => Some(pair.state),
        DownEntry::Child {
            pair,
            split: _,
            place: _,
        } => Some(pair.state),
        DownEntry::Split {
            pair: _,
            rule: _,
            choice: _,
        } => None,
    }
}

/// The state of the pair of the entry at this place. Takes no memory.
fn state_at(read: &[DownEntry], e: usize) -> Option<u32>
    requires { e < length read.now }
    ensures { result ≡ state_of_pair (entries_of read.now) e }
{
    state_of(&read[e])
}

/// How many children the rule at this place has, if there is one. Takes no memory.
fn rank_at(a: &Listed, rule: usize) -> usize
    requires { AreRanksSmall a.now }
    ensures count { result ≡ option_map_or (λ rule. length rule.kids) (slice_get a.now.rules rule) 0 }
    ensures small { result ≤ 255 }
{
    let rules = a.rules();
    if rule < rules.len() {
        let rule = &rules[rule];
        rule.kids.len()
    } else {
        0
    }
}

/// How many children the entry splits a pair into. Takes no memory.
fn count_of(a: &Listed, entry: &DownEntry) -> usize
    requires { AreRanksSmall a.now }
    ensures count { result ≡ split_count a.now (entry_of entry.now) }
    ensures small { result ≤ 255 }
{
    match entry {
        DownEntry::Root { pair: _ } => 0,
        DownEntry::Child {
            pair: _,
            split: _,
            place: _,
        } => 0,
        DownEntry::Split {
            pair: _,
            rule,
            choice: _,
        } => rank_at(a, *rule as usize),
    }
}

/// How many children the entry at this place splits a pair into. Takes no memory.
fn count_at(a: &Listed, read: &[DownEntry], s: usize) -> usize
    requires ranks { AreRanksSmall a.now }
    requires within { s < length read.now }
    ensures count { result ≡ count_of_split a.now (entries_of read.now) s }
    ensures small { result ≤ 255 }
{
    count_of(a, &read[s])
}

/// The place of the rule with these places.
fn rule_with(
    alloc: Global,
    rules: &RulePlaces,
    symbol: u32,
    kids: &[u32],
    parent: u32,
) -> Result<Option<u32>, AllocError>
    ensures { IfOk result (λ place. place ≡ rule_place rules.now (record { symbol = symbol; kids = kids.now; parent = parent })) }
{
    let kids = SmallVec::from_slice(alloc, kids)?;
    let rule = Rule {
        symbol,
        kids,
        parent,
    };
    Ok(rules.find(&rule))
}

/// Places for numbers that count from 1.
fn choice_from(alloc: Global, numbers: &[u64]) -> Result<Vec<u8>, AllocError>
    requires { All (λ n. n ≤ 256) numbers.now }
    ensures { IfOk result (λ v. v.items ≡ map (λ n. n - 1) numbers.now) }
{
    let mut choice = Vec::with_capacity(alloc, numbers.len())?;
    for n in numbers {
        choice.push((*n).saturating_sub(1) as u8)?;
    }
    Ok(choice)
}

/// The entry, where the line that begins at this byte is its text.
pub(crate) fn judged_of(
    alloc: Global,
    a: &Listed,
    b: &Listed,
    at: usize,
    line: &[u8],
    entry: DownEntry,
) -> Result<DownEntry, NodesTextError>
    requires { IsPrintable a.now b.now (entry_of entry) }
    ensures { Answers entry_of result (entry_judged a.now b.now at line.now (entry_of entry)) }
{
    let Ok(mut text) = Vec::with_capacity(alloc, line.len()) else {
        return Err(NodesTextError::Memory);
    };
    let Ok(()) = put_entry(&mut text, a, b, &entry) else {
        return Err(NodesTextError::Memory);
    };
    if text.as_slice() != line {
        return Err(NodesTextError::BadText { at: at as u64 });
    }
    Ok(entry)
}

/// The pair of a child, where the numbers are those of an earlier split and of a child of its rule.
pub(crate) fn child_of(
    alloc: Global,
    a: &Listed,
    b: &Listed,
    read: &[DownEntry],
    at: usize,
    line: &[u8],
    split: u64,
    place: u64,
    pair: Pair,
) -> Result<DownEntry, NodesTextError>
    requires pair { FitsPair a.now b.now pair }
    requires ranks { AreRanksSmall a.now }
    requires few { length read.now < 4294967295 }
    ensures { Answers entry_of result (child_judged a.now b.now (entries_of read.now) at line.now split place pair) }
{
    let Some(s) = earlier(read, split) else {
        return Err(NodesTextError::BadText { at: at as u64 });
    };
    let Some(j) = place_within(count_at(a, read, s), place) else {
        return Err(NodesTextError::BadText { at: at as u64 });
    };
    let entry = DownEntry::Child {
        pair,
        split: s as u32,
        place: j as u8,
    };
    judged_of(alloc, a, b, at, line, entry)
}

/// A split of an earlier pair by a rule to its state, where the numbers are those of the pair and of
/// children.
pub(crate) fn split_of(
    alloc: Global,
    a: &Listed,
    b: &Listed,
    rules: &RulePlaces,
    read: &[DownEntry],
    at: usize,
    line: &[u8],
    number: u64,
    choice: &[u64],
    symbol: u32,
    kids: &[u32],
) -> Result<DownEntry, NodesTextError>
    requires rules { rules.now ≡ a.now.rules }
    requires ranks { AreRanksSmall a.now }
    requires few { length read.now < 4294967295 }
    ensures { Answers entry_of result (split_judged a.now b.now (entries_of read.now) at line.now number choice.now symbol kids.now) }
{
    // The call tells the proof that the rules of A fit.
    let _rules = a.rules();
    let Some(e) = earlier(read, number) else {
        return Err(NodesTextError::BadText { at: at as u64 });
    };
    let Some(parent) = state_at(read, e) else {
        return Err(NodesTextError::BadText { at: at as u64 });
    };
    let rule = match rule_with(alloc, rules, symbol, kids, parent) {
        Ok(Some(rule)) => rule,
        Ok(None) => return Err(NodesTextError::BadText { at: at as u64 }),
        Err(_) => return Err(NodesTextError::Memory),
    };
    if !are_within(kids.len(), choice) {
        return Err(NodesTextError::BadText { at: at as u64 });
    }
    let Ok(choice) = choice_from(alloc, choice) else {
        return Err(NodesTextError::Memory);
    };
    let entry = DownEntry::Split {
        pair: e as u32,
        rule,
        choice,
    };
    judged_of(alloc, a, b, at, line, entry)
}
