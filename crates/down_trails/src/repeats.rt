//! Which entries stand earlier already.

ghost use Rattle.std.specs.Prelude.{◌≡◌, ◌<◌, ◌+◌, ◌^◌, ℕ, IfNone, IfOk, IfSome, length};
ghost use Rattle.tree_definitions.specs.Cover.{Pair as PairSpec};
ghost use Rattle.tree_definitions.specs.DownTrail.{AreAlike, DownEntry as EntrySpec};
ghost use Rattle.tree_definitions.specs.Relation.{Has, IsAt};
ghost use Rattle.listed_pairs.specs.DownEntries.{FitDownEntries, entries_of};
ghost use Rattle.listed_pairs.specs.Places.{IsFirst, IsNthAt};
ghost use Rattle.down_conditions.specs.Filing.{AreBySymbol};
ghost use Rattle.down_trails.specs.Entries.{IsDivided};
ghost use Rattle.down_trails.specs.Keys.{AreMembers, IsKeyOf, IsPairKey, IsSplitKey, RepeatsEntry, parts_of};

use crate::entry::pair_of;
use crate::sent::sent_to;
use crate::splits::tuples_of;
use bit_rows::Row;
use down_conditions::downs::{alphabet_of, rules_by_symbol};
use indexmap::IndexSet;
use listed_pairs::{DownEntry, Pair};
use ranked_alphabet::Alphabet;
use std::alloc::{AllocError, Global};
use std::hash::{BuildHasherDefault, DefaultHasher};
use ta_model::Listed;
use trim_ops::RuleIndex;

/// The members of the set in rising order.
fn members_of(alloc: Global, set: &Row) -> Result<Vec<u32>, AllocError>
    requires { length set.now < 2 ^ 32 }
    ensures { IfOk result (λ v. AreMembers (Has set.now) v.items) }
{
    let mut members = Vec::new(alloc);
    let mut from = 0;
    while let Some(t) = set.first_from(from) {
        members.push(t as u32)?;
        from = t + 1;
    }
    Ok(members)
}

/// What tells a pair from others: its state, and the members of its set.
fn pair_key(alloc: Global, pair: &Pair) -> Result<Vec<Vec<u32>>, AllocError>
    requires { length pair.now.set < 2 ^ 32 }
    ensures { IfOk result (λ key. IsPairKey pair.now (parts_of key)) }
{
    let mut key = Vec::new(alloc);
    let state = Vec::from_slice(alloc, &[pair.state])?;
    key.push(state)?;
    let members = members_of(alloc, &pair.set)?;
    key.push(members)?;
    Ok(key)
}

/// What tells a split from others: what tells its pair, its rule, and the members of each set.
fn split_key(
    alloc: Global,
    a: &Listed,
    b: &Listed,
    alphabet: &Alphabet,
    by_symbol: &RuleIndex,
    entries: &[DownEntry],
    e: u32,
    r: u32,
    choice: &[u8],
) -> Result<Vec<Vec<u32>>, AllocError>
    requires alphabet { alphabet.now ≡ b.now.symbols }
    requires by_symbol { AreBySymbol b.now.rules by_symbol.now }
    requires size { length by_symbol.now ≡ length b.now.symbols }
    requires fits { FitDownEntries a.now b.now (entries_of entries.now) }
    requires divided { IsDivided a.now (entries_of entries.now) e r }
    ensures { IfOk result (λ key. IsSplitKey a.now b.now (entries_of entries.now) e r choice.now (parts_of key)) }
{
    // The call tells the proof that B's states are few.
    let _states = b.states();
    let rule = &a.rules()[r as usize];
    let kids = rule.kids.as_slice();
    let tuples = tuples_of(alloc, a, b, alphabet, by_symbol, entries, e, r)?;
    let Some(pair) = pair_of(&entries[e as usize]) else {
        return Ok(Vec::new(alloc));
    };
    let mut key = pair_key(alloc, pair)?;
    let named = Vec::from_slice(alloc, &[r])?;
    key.push(named)?;
    for i in 0..kids.len() {
        let row = sent_to(alloc, &tuples, choice, i, b.states().len())?;
        let members = members_of(alloc, &row)?;
        key.push(members)?;
    }
    Ok(key)
}

/// What tells the entry from those that are not like it.
fn key_of(
    alloc: Global,
    a: &Listed,
    b: &Listed,
    alphabet: &Alphabet,
    by_symbol: &RuleIndex,
    entries: &[DownEntry],
    at: usize,
) -> Result<Vec<Vec<u32>>, AllocError>
    requires alphabet { alphabet.now ≡ b.now.symbols }
    requires by_symbol { AreBySymbol b.now.rules by_symbol.now }
    requires size { length by_symbol.now ≡ length b.now.symbols }
    requires fits { FitDownEntries a.now b.now (entries_of entries.now) }
    requires at { at < length entries.now }
    ensures { IfOk result (λ key. (entry : EntrySpec) → IsAt (entries_of entries.now) at entry → IsKeyOf a.now b.now (entries_of entries.now) entry (parts_of key)) }
{
    // The call tells the proof that B's states are few.
    let _states = b.states();
    match &entries[at] {
        DownEntry::Root { pair } => pair_key(alloc, pair),
        DownEntry::Child {
            pair,
            split: _,
            place: _,
        } => pair_key(alloc, pair),
        DownEntry::Split {
            pair: e,
            rule: r,
            choice,
        } => split_key(alloc, a, b, alphabet, by_symbol, entries, *e, *r, choice),
    }
}

/// The place of the first entry that is like an earlier one: a pair with the same state and set, or
/// a split of the same pair by the same rule into the same sets.
///
/// Entries are looked up by a hash of their members (SipHash with a fixed key).
pub fn first_repeated_entry(
    alloc: Global,
    a: &Listed,
    b: &Listed,
    entries: &[DownEntry],
) -> Result<Option<u32>, AllocError>
    requires fits { FitDownEntries a.now b.now (entries_of entries.now) }
    requires few { length entries.now < 4294967295 }
    ensures none { IfOk result (λ first. IfNone first ((i j : ℕ) (later earlier : EntrySpec) → j < i → IsAt (entries_of entries.now) i later → IsAt (entries_of entries.now) j earlier
        → AreAlike a.now b.now (entries_of entries.now) earlier later → ⊥)) }
    ensures some { IfOk result (λ first. IfSome first (IsFirst (IsNthAt (entries_of entries.now) (RepeatsEntry a.now b.now (entries_of entries.now))))) }
{
    // The call tells the proof that A is narrow.
    let _rules = a.rules();
    let alphabet = alphabet_of(alloc, b)?;
    let by_symbol = rules_by_symbol(alloc, b.rules(), b.symbols().len())?;
    let mut seen: IndexSet<Vec<Vec<u32>>, BuildHasherDefault<DefaultHasher>> =
        IndexSet::with_hasher(alloc, BuildHasherDefault::new());
    for at in 0..entries.len() {
        let key = key_of(alloc, a, b, &alphabet, &by_symbol, entries, at)?;
        if !seen.insert(key)? {
            return Ok(Some(at as u32 + 1));
        }
    }
    Ok(None)
}
