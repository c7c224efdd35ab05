//! Which entries the relation alone covers.

ghost use Rattle.std.specs.Prelude.{◌≡◌, ◌<◌, ◌≤◌, ◌+◌, ◌↔◌, ℕ, IfNone, IfOk, IfSome, IsTrue, length};
ghost use Rattle.tree_definitions.specs.Cover.{FitsPair};
ghost use Rattle.tree_definitions.specs.DownCert.{CoversAlone};
ghost use Rattle.tree_definitions.specs.DownTrail.{DownEntry as EntrySpec, IsOpen};
ghost use Rattle.tree_definitions.specs.Relation.{Has, Holds, IsAt};
ghost use Rattle.listed_pairs.specs.DownEntries.{FitDownEntries, entries_of};
ghost use Rattle.listed_pairs.specs.Places.{IsFirst, IsNthAt};
ghost use Rattle.down_conditions.specs.Filing.{AreBySymbol};
ghost use Rattle.down_trails.specs.Entries.{CoversEntry, CoversSplit, IsDivided};

use crate::sent::sent_to;
use crate::splits::tuples_of;
use bit_matrix::Matrix;
use bit_rows::Row;
use down_conditions::downs::{alphabet_of, rules_by_symbol};
use down_conditions::shift::shifted_row;
use listed_pairs::{DownEntry, Pair};
use ranked_alphabet::Alphabet;
use std::alloc::{AllocError, Global};
use ta_model::Listed;
use trim_ops::RuleIndex;

/// Whether the state is below a member of the set, whose members stand behind A's states.
fn covers(
    alloc: Global,
    a: &Listed,
    both: &Matrix,
    state: usize,
    set: &Row,
) -> Result<bool, AllocError>
    requires state { state < length a.now.states }
    requires both { length both.now ≡ length a.now.states + length set.now }
    ensures { IfOk result (λ yes. IsTrue yes ↔ CoversAlone a.now (Holds both.now) state (Has set.now)) }
{
    let wide = shifted_row(alloc, set, a.states().len(), both.size())?;
    Ok(both.row_meets(state, &wide))
}

/// Whether the relation alone covers the pair.
fn covers_pair(alloc: Global, a: &Listed, both: &Matrix, pair: &Pair) -> Result<bool, AllocError>
    requires state { pair.now.state < length a.now.states }
    requires both { length both.now ≡ length a.now.states + length pair.now.set }
    ensures { IfOk result (λ yes. IsTrue yes ↔ CoversAlone a.now (Holds both.now) pair.now.state (Has pair.now.set)) }
{
    covers(alloc, a, both, pair.state as usize, &pair.set)
}

/// Whether the relation alone covers a child with what the choice sends to its place.
fn covers_split(
    alloc: Global,
    a: &Listed,
    b: &Listed,
    alphabet: &Alphabet,
    by_symbol: &RuleIndex,
    both: &Matrix,
    entries: &[DownEntry],
    e: u32,
    r: u32,
    choice: &[u8],
) -> Result<bool, AllocError>
    requires alphabet { alphabet.now ≡ b.now.symbols }
    requires by_symbol { AreBySymbol b.now.rules by_symbol.now }
    requires size { length by_symbol.now ≡ length b.now.symbols }
    requires both { length both.now ≡ length a.now.states + length b.now.states }
    requires fits { FitDownEntries a.now b.now (entries_of entries.now) }
    requires divided { IsDivided a.now (entries_of entries.now) e r }
    ensures { IfOk result (λ yes. IsTrue yes ↔ CoversSplit a.now b.now (Holds both.now) (entries_of entries.now) e r choice.now) }
{
    let rule = &a.rules()[r as usize];
    let kids = rule.kids.as_slice();
    let tuples = tuples_of(alloc, a, b, alphabet, by_symbol, entries, e, r)?;
    for i in 0..kids.len() {
        let row = sent_to(alloc, &tuples, choice, i, b.states().len())?;
        if covers(alloc, a, both, kids[i] as usize, &row)? {
            return Ok(true);
        }
    }
    Ok(false)
}

/// Whether the relation alone covers the entry's pair or a place of its split.
fn covers_entry(
    alloc: Global,
    a: &Listed,
    b: &Listed,
    alphabet: &Alphabet,
    by_symbol: &RuleIndex,
    both: &Matrix,
    entries: &[DownEntry],
    at: usize,
) -> Result<bool, AllocError>
    requires alphabet { alphabet.now ≡ b.now.symbols }
    requires by_symbol { AreBySymbol b.now.rules by_symbol.now }
    requires size { length by_symbol.now ≡ length b.now.symbols }
    requires both { length both.now ≡ length a.now.states + length b.now.states }
    requires fits { FitDownEntries a.now b.now (entries_of entries.now) }
    requires at { at < length entries.now }
    ensures { IfOk result (λ yes. (entry : EntrySpec) → IsAt (entries_of entries.now) at entry → IsTrue yes ↔ CoversEntry a.now b.now (Holds both.now) (entries_of entries.now) entry) }
{
    match &entries[at] {
        DownEntry::Root { pair } => covers_pair(alloc, a, both, pair),
        DownEntry::Child {
            pair,
            split: _,
            place: _,
        } => covers_pair(alloc, a, both, pair),
        DownEntry::Split {
            pair: e,
            rule: r,
            choice,
        } => covers_split(
            alloc, a, b, alphabet, by_symbol, both, entries, *e, *r, choice,
        ),
    }
}

/// The place of the first entry that the relation alone covers: its pair, or a child of its split
/// with what is sent to its place.
pub fn first_covered_alone(
    alloc: Global,
    a: &Listed,
    b: &Listed,
    both: &Matrix,
    entries: &[DownEntry],
) -> Result<Option<u32>, AllocError>
    requires both { length both.now ≡ length a.now.states + length b.now.states }
    requires fits { FitDownEntries a.now b.now (entries_of entries.now) }
    requires few { length entries.now < 4294967295 }
    ensures none { IfOk result (λ first. IfNone first ((i : ℕ) (entry : EntrySpec) → IsAt (entries_of entries.now) i entry → IsOpen a.now b.now (Holds both.now) (entries_of entries.now) entry)) }
    ensures some { IfOk result (λ first. IfSome first (IsFirst (IsNthAt (entries_of entries.now) (λ i entry. IsOpen a.now b.now (Holds both.now) (entries_of entries.now) entry → ⊥)))) }
{
    let alphabet = alphabet_of(alloc, b)?;
    let by_symbol = rules_by_symbol(alloc, b.rules(), b.symbols().len())?;
    for at in 0..entries.len() {
        if covers_entry(alloc, a, b, &alphabet, &by_symbol, both, entries, at)? {
            return Ok(Some(at as u32 + 1));
        }
    }
    Ok(None)
}
