//! Which entries of a downward trail can be written. Rules are those of the first automaton's
//! canonical form.

ghost use Rattle.std.specs.Prelude.{◌≡◌, ◌<◌, ◌≤◌, ◌↔◌, ℕ, All, IfNone, IfSome, IsTrue, length};
ghost use Rattle.tree_definitions.specs.Canonical.{canon};
ghost use Rattle.tree_definitions.specs.Cover.{FitsPair, Pair as PairSpec};
ghost use Rattle.tree_definitions.specs.DownTrail.{DownEntry as Entry, IsPairOf};
ghost use Rattle.tree_definitions.specs.Relation.{IsAt};
ghost use Rattle.listed_pairs.specs.DownEntries.{AreDownEntries, DividesBy, FitDownEntries, FitsDownEntry, SplitsAt, entries_of, entry_of};
ghost use Rattle.incl_certificate.specs.Dividing.{DividesPair};

use crate::certificate::pair_fits;
use crate::ranks::rule_at;
use listed_pairs::{DownEntry, Pair};
use ta_model::Listed;

/// The state of the entry's pair, if it has one.
fn state_of(entry: &DownEntry) -> Option<u32>
    ensures some { IfSome result (λ q. (pair : PairSpec) × IsPairOf (entry_of entry.now) pair × (pair.state ≡ q)) }
    ensures none { IfNone result ((pair : PairSpec) → IsPairOf (entry_of entry.now) pair → ⊥) }
{
    match entry {
        DownEntry::Root { pair } => Some(pair.state),
        DownEntry::Child {
            pair,
            split: _,
            place: _,
        } => Some(pair.state),
        DownEntry::Split {
            pair: _,
            rule: _,
            choice: _,
        } => None,
    }
}

/// Whether each of these places is below the count.
fn are_below(places: &[u8], count: usize) -> bool
    ensures { IsTrue result ↔ All (λ place. place < count) places.now }
{
    places.iter().all(|place| (*place as usize) < count)
}

/// Whether the rule leads to the state of the entry's pair, and the choice has places of its children.
fn divides_pair(a: &Listed, entry: &DownEntry, rule: u32, choice: &[u8]) -> bool
    ensures { IsTrue result ↔ DividesPair (canon a.now) (entry_of entry.now) rule choice.now }
{
    let Some(state) = state_of(entry) else {
        return false;
    };
    let Some(found) = rule_at(a, rule, state) else {
        return false;
    };
    are_below(choice, found.kids.len())
}

/// Whether the rule leads to the state of the pair of an entry, and the choice has places of its
/// children.
fn divides(a: &Listed, entries: &[DownEntry], pair: u32, rule: u32, choice: &[u8]) -> bool
    ensures { IsTrue result ↔ DividesBy (canon a.now) (entries_of entries.now) pair rule choice.now }
{
    let at = pair as usize;
    at < entries.len() && divides_pair(a, &entries[at], rule, choice)
}

/// Whether the entry, which fits at its place, is a split by a rule with a child at this place.
fn has_child(a: &Listed, b: &Listed, entries: &[DownEntry], split: u32, place: u8) -> bool
    requires within { split < length entries.now }
    requires fits { (entry : Entry) → IsAt (entries_of entries.now) split entry → FitsDownEntry (canon a.now) b.now (entries_of entries.now) split entry }
    ensures { IsTrue result ↔ SplitsAt (canon a.now) (entries_of entries.now) split place }
{
    match &entries[split as usize] {
        DownEntry::Split {
            pair,
            rule,
            choice: _,
        } => divides(a, entries, *pair, *rule, &[place]),
        DownEntry::Root { pair: _ } => false,
        DownEntry::Child {
            pair: _,
            split: _,
            place: _,
        } => false,
    }
}

/// Whether a pair and a child at a place of an earlier split, where each earlier entry fits, can stand
/// at this place.
fn child_fits(
    a: &Listed,
    b: &Listed,
    entries: &[DownEntry],
    at: usize,
    pair: &Pair,
    split: u32,
    place: u8,
) -> bool
    requires within { at < length entries.now }
    requires before { (k : ℕ) (entry : Entry) → k < at → IsAt (entries_of entries.now) k entry → FitsDownEntry (canon a.now) b.now (entries_of entries.now) k entry }
    ensures { IsTrue result ↔ (FitsPair a.now b.now pair.now × (split < at) × SplitsAt (canon a.now) (entries_of entries.now) split place) }
{
    pair_fits(a, b, pair) && (split as usize) < at && has_child(a, b, entries, split, place)
}

/// Whether the entry at this place fits, where each earlier one does.
fn entry_fits(a: &Listed, b: &Listed, entries: &[DownEntry], at: usize) -> bool
    requires within { at < length entries.now }
    requires before { (k : ℕ) (entry : Entry) → k < at → IsAt (entries_of entries.now) k entry → FitsDownEntry (canon a.now) b.now (entries_of entries.now) k entry }
    ensures { (entry : Entry) → IsAt (entries_of entries.now) at entry → IsTrue result ↔ FitsDownEntry (canon a.now) b.now (entries_of entries.now) at entry }
{
    match &entries[at] {
        DownEntry::Root { pair } => pair_fits(a, b, pair),
        DownEntry::Child { pair, split, place } => child_fits(
            a, b, entries, at, pair, *split, *place,
        ),
        DownEntry::Split { pair, rule, choice } => {
            (*pair as usize) < at && divides(a, entries, *pair, *rule, choice)
        }
    }
}

/// Whether it is so for each of them.
fn each_fits(a: &Listed, b: &Listed, entries: &[DownEntry]) -> bool
    ensures { IsTrue result ↔ FitDownEntries (canon a.now) b.now (entries_of entries.now) }
{
    for at in 0..entries.len() {
        if !entry_fits(a, b, entries, at) {
            return false;
        }
    }
    true
}

/// Whether they are one more than the budget, which is one, and fit. Takes no memory.
pub(crate) fn down_entries_fit(a: &Listed, b: &Listed, budget: u64, entries: &[DownEntry]) -> bool
    ensures { IsTrue result ↔ AreDownEntries (canon a.now) b.now budget (entries_of entries.now) }
{
    if budget < 1 || budget > 1_000_000 {
        return false;
    }
    entries.len() as u64 == budget + 1 && each_fits(a, b, entries)
}
