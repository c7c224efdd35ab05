//! The conditions on the entries of an upward trail.

ghost use Rattle.std.specs.Prelude.{◌≡◌, ◌<◌, ◌↔◌, ℕ, All, Contains, IfNone, IfOk, IfSome, IsTrue, length};
ghost use Rattle.tree_definitions.specs.Automaton.{Rule as RuleSpec};
ghost use Rattle.tree_definitions.specs.Cover.{CoversUp, Rejects};
ghost use Rattle.tree_definitions.specs.Relation.{Has, Holds, IsAt};
ghost use Rattle.tree_definitions.specs.UpTrail.{IsUpStep, UpEntry as UpEntrySpec};
ghost use Rattle.listed_pairs.specs.Places.{IsFirst, IsNth, IsNthAt};
ghost use Rattle.up_conditions.specs.Listed.{RejectsBy};
ghost use Rattle.up_conditions.specs.Stepping.{AreListsOf};
ghost use Rattle.up_conditions.specs.Trailing.{AllAtBefore, AreEntriesWithin, FitEntries, IsCoveredEntry, NameEarlier, RejectsEntry};

use crate::entry::pair_of;
use crate::entry_steps::is_step;
use crate::finals::{rejects, row_of};
use crate::sorted_rules::SortedRules;
use crate::step_index::StepIndex;
use bit_rows::Row;
use listed_pairs::UpEntry;
use std::alloc::{AllocError, Global};
use ta_model::Listed;

/// The first entry that is no step from earlier ones.
fn first_by_rules(
    alloc: Global,
    a: &Listed,
    rules: &SortedRules,
    b: &Listed,
    steps: &StepIndex,
    entries: &[UpEntry],
) -> Result<Option<u32>, AllocError>
    requires rules { (rule : RuleSpec) → Contains rules.now rule ↔ Contains a.now.rules rule }
    requires steps { AreListsOf b.now steps.now }
    requires sets { All (λ e. length e.pair.set ≡ length b.now.states) entries.now }
    requires labels { All (λ e. e.symbol < length a.now.symbols) entries.now }
    requires named { NameEarlier entries.now }
    requires few { length entries.now < 4294967295 }
    ensures none { IfOk result (λ first. IfNone first ((i : ℕ) (entry : UpEntrySpec) → IsAt entries.now i entry → IsUpStep a.now b.now entries.now i entry)) }
    ensures some { IfOk result (λ first. IfSome first (IsFirst (IsNthAt entries.now (λ i entry. IsUpStep a.now b.now entries.now i entry → ⊥)))) }
{
    for i in 0..entries.len() {
        match is_step(alloc, a, rules, b, steps, entries, i) {
            Ok(true) => {}
            Ok(false) => return Ok(Some(i as u32 + 1)),
            Err(_) => return Err(AllocError),
        }
    }
    Ok(None)
}

/// The place of the first entry whose pair is no step by its symbol from the pairs of the entries
/// that it names.
pub fn first_wrong_step(
    alloc: Global,
    a: &Listed,
    b: &Listed,
    entries: &[UpEntry],
) -> Result<Option<u32>, AllocError>
    requires fits { FitEntries a.now b.now entries.now }
    requires labels { All (λ e. e.symbol < length a.now.symbols) entries.now }
    requires named { NameEarlier entries.now }
    requires few { length entries.now < 4294967295 }
    ensures none { IfOk result (λ first. IfNone first ((i : ℕ) (entry : UpEntrySpec) → IsAt entries.now i entry → IsUpStep a.now b.now entries.now i entry)) }
    ensures some { IfOk result (λ first. IfSome first (IsFirst (IsNthAt entries.now (λ i entry. IsUpStep a.now b.now entries.now i entry → ⊥)))) }
{
    let rules = SortedRules::new(alloc, a.rules())?;
    let steps = StepIndex::of(alloc, b)?;
    first_by_rules(alloc, a, &rules, b, &steps, entries)
}

/// The first entry whose pair rejects.
fn first_by_finals(left: &Row, right: &Row, entries: &[UpEntry]) -> Option<u32>
    requires fits { AreEntriesWithin (length left.now) (length right.now) entries.now }
    requires few { length entries.now < 4294967295 }
    ensures none { IfNone result ((e : UpEntrySpec) → Contains entries.now e → RejectsBy left.now right.now e.pair → ⊥) }
    ensures some { IfSome result (IsFirst (IsNth entries.now (λ e. RejectsBy left.now right.now e.pair))) }
{
    for at in 0..entries.len() {
        let pair = pair_of(&entries[at]);
        if rejects(left, right, pair) {
            return Some(at as u32 + 1);
        }
    }
    None
}

/// The place of the first entry whose pair rejects.
pub fn first_rejecting_entry(
    alloc: Global,
    a: &Listed,
    b: &Listed,
    entries: &[UpEntry],
) -> Result<Option<u32>, AllocError>
    requires fits { FitEntries a.now b.now entries.now }
    requires few { length entries.now < 4294967295 }
    ensures none { IfOk result (λ first. IfNone first ((i : ℕ) (entry : UpEntrySpec) → IsAt entries.now i entry → Rejects a.now b.now entry.pair → ⊥)) }
    ensures some { IfOk result (λ first. IfSome first (IsFirst (IsNth entries.now (RejectsEntry a.now b.now)))) }
{
    let left = row_of(alloc, a.finals(), a.states().len())?;
    let right = row_of(alloc, b.finals(), b.states().len())?;
    Ok(first_by_finals(&left, &right, entries))
}
