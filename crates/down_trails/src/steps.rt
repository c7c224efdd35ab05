//! Which entries are steps from earlier ones.

ghost use Rattle.std.specs.Prelude.{◌≡◌, ◌<◌, ◌↔◌, ℕ, IfNone, IfOk, IfSome, IsTrue, length};
ghost use Rattle.tree_definitions.specs.Automaton.{IsFinal};
ghost use Rattle.tree_definitions.specs.Cover.{FitsPair};
ghost use Rattle.tree_definitions.specs.DownTrail.{DownEntry as EntrySpec, IsDownStep, SplitOf};
ghost use Rattle.tree_definitions.specs.Relation.{AreEqual, Has, IsAt};
ghost use Rattle.listed_pairs.specs.DownEntries.{FitDownEntries, entries_of};
ghost use Rattle.listed_pairs.specs.Places.{IsFirst, IsNthAt};
ghost use Rattle.down_conditions.specs.Filing.{AreBySymbol};
ghost use Rattle.down_trails.specs.Entries.{IsChildOf, IsDivided};

use crate::sent::{row_of, sent_to};
use crate::splits::tuples_of;
use bit_rows::Row;
use down_conditions::downs::{alphabet_of, rules_by_symbol};
use listed_pairs::{DownEntry, Pair};
use ranked_alphabet::Alphabet;
use std::alloc::{AllocError, Global};
use ta_model::Listed;
use trim_ops::RuleIndex;

/// Whether the pair's state is in the first row, and its set is the second.
fn is_root(left: &Row, right: &Row, pair: &Pair) -> bool
    requires state { pair.now.state < length left.now }
    requires set { length pair.now.set ≡ length right.now }
    ensures { IsTrue result ↔ (Has left.now pair.now.state × AreEqual (Has pair.now.set) (Has right.now)) }
{
    left.get(pair.state as usize) && pair.set.equals(right)
}

/// Whether the choice has a place for each tuple.
fn is_split(
    alloc: Global,
    a: &Listed,
    b: &Listed,
    alphabet: &Alphabet,
    by_symbol: &RuleIndex,
    entries: &[DownEntry],
    e: u32,
    r: u32,
    choice: &[u8],
) -> Result<bool, AllocError>
    requires alphabet { alphabet.now ≡ b.now.symbols }
    requires by_symbol { AreBySymbol b.now.rules by_symbol.now }
    requires size { length by_symbol.now ≡ length b.now.symbols }
    requires fits { FitDownEntries a.now b.now (entries_of entries.now) }
    requires divided { IsDivided a.now (entries_of entries.now) e r }
    ensures { IfOk result (λ yes. IsTrue yes ↔ ((of : SplitOf a.now b.now (entries_of entries.now) e r) × (length choice.now ≡ length of.tuples))) }
{
    // The call tells the proof that A is narrow.
    let _rules = a.rules();
    let tuples = tuples_of(alloc, a, b, alphabet, by_symbol, entries, e, r)?;
    Ok(choice.len() == tuples.as_slice().len())
}

/// Whether the pair is that of the child at this place of the split.
fn is_child(
    alloc: Global,
    a: &Listed,
    b: &Listed,
    alphabet: &Alphabet,
    by_symbol: &RuleIndex,
    entries: &[DownEntry],
    e: u32,
    r: u32,
    choice: &[u8],
    place: u8,
    pair: &Pair,
) -> Result<bool, AllocError>
    requires alphabet { alphabet.now ≡ b.now.symbols }
    requires by_symbol { AreBySymbol b.now.rules by_symbol.now }
    requires size { length by_symbol.now ≡ length b.now.symbols }
    requires fits { FitDownEntries a.now b.now (entries_of entries.now) }
    requires divided { IsDivided a.now (entries_of entries.now) e r }
    requires pair { FitsPair a.now b.now pair.now }
    ensures { IfOk result (λ yes. IsTrue yes ↔ IsChildOf a.now b.now (entries_of entries.now) e r choice.now place pair.now) }
{
    let at = place as usize;
    let rule = &a.rules()[r as usize];
    let kids = rule.kids.as_slice();
    if at >= kids.len() {
        return Ok(false);
    }
    if kids[at] != pair.state {
        return Ok(false);
    }
    let tuples = tuples_of(alloc, a, b, alphabet, by_symbol, entries, e, r)?;
    let row = sent_to(alloc, &tuples, choice, at, b.states().len())?;
    Ok(row.equals(&pair.set))
}

/// Whether the entry is a step from earlier ones.
fn is_step(
    alloc: Global,
    a: &Listed,
    b: &Listed,
    alphabet: &Alphabet,
    by_symbol: &RuleIndex,
    left: &Row,
    right: &Row,
    entries: &[DownEntry],
    at: usize,
) -> Result<bool, AllocError>
    requires alphabet { alphabet.now ≡ b.now.symbols }
    requires by_symbol { AreBySymbol b.now.rules by_symbol.now }
    requires size { length by_symbol.now ≡ length b.now.symbols }
    requires fits { FitDownEntries a.now b.now (entries_of entries.now) }
    requires left { length left.now ≡ length a.now.states }
    requires ours { (q : ℕ) → Has left.now q ↔ IsFinal a.now q }
    requires right { length right.now ≡ length b.now.states }
    requires theirs { (q : ℕ) → Has right.now q ↔ IsFinal b.now q }
    requires at { at < length entries.now }
    ensures { IfOk result (λ yes. (entry : EntrySpec) → IsAt (entries_of entries.now) at entry → IsTrue yes ↔ IsDownStep a.now b.now (entries_of entries.now) at entry) }
{
    match &entries[at] {
        DownEntry::Root { pair } => Ok(is_root(left, right, pair)),
        DownEntry::Child { pair, split, place } => match &entries[*split as usize] {
            DownEntry::Split {
                pair: e,
                rule: r,
                choice,
            } => is_child(
                alloc, a, b, alphabet, by_symbol, entries, *e, *r, choice, *place, pair,
            ),
            DownEntry::Root { pair: _ } => Ok(false),
            DownEntry::Child {
                pair: _,
                split: _,
                place: _,
            } => Ok(false),
        },
        DownEntry::Split {
            pair: e,
            rule: r,
            choice,
        } => is_split(alloc, a, b, alphabet, by_symbol, entries, *e, *r, choice),
    }
}

/// The place of the first entry that is no step: a root has a final state of A and the final states
/// of B, a child has what its split sends to its place, and a split has a place for each tuple.
pub fn first_wrong_entry(
    alloc: Global,
    a: &Listed,
    b: &Listed,
    entries: &[DownEntry],
) -> Result<Option<u32>, AllocError>
    requires fits { FitDownEntries a.now b.now (entries_of entries.now) }
    requires few { length entries.now < 4294967295 }
    ensures none { IfOk result (λ first. IfNone first ((i : ℕ) (entry : EntrySpec) → IsAt (entries_of entries.now) i entry → IsDownStep a.now b.now (entries_of entries.now) i entry)) }
    ensures some { IfOk result (λ first. IfSome first (IsFirst (IsNthAt (entries_of entries.now) (λ i entry. IsDownStep a.now b.now (entries_of entries.now) i entry → ⊥)))) }
{
    let alphabet = alphabet_of(alloc, b)?;
    let by_symbol = rules_by_symbol(alloc, b.rules(), b.symbols().len())?;
    let left = row_of(alloc, a.finals(), a.states().len())?;
    let right = row_of(alloc, b.finals(), b.states().len())?;
    for at in 0..entries.len() {
        if !is_step(
            alloc, a, b, &alphabet, &by_symbol, &left, &right, entries, at,
        )? {
            return Ok(Some(at as u32 + 1));
        }
    }
    Ok(None)
}
