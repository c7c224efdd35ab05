//! Whether the pair of an entry is the step from the pairs of the entries that it names.

ghost use Rattle.std.specs.Prelude.{◌≡◌, ◌<◌, ◌+◌, ◌++◌, ◌^◌, ◌↔◌, [], ℕ, List, All, Contains, IsTrue, IfOk, length};
ghost use Rattle.std.specs.List.{AllZip};
ghost use Rattle.tree_definitions.specs.Tree.{Symbol};
ghost use Rattle.tree_definitions.specs.Automaton.{Rule as RuleSpec};
ghost use Rattle.tree_definitions.specs.Cover.{Post};
ghost use Rattle.tree_definitions.specs.Relation.{Has, IsAt, Row};
ghost use Rattle.tree_definitions.specs.UpTrail.{IsUpStep, UpEntry as UpEntrySpec};
ghost use Rattle.up_conditions.specs.Choosing.{AreOpen};
ghost use Rattle.up_conditions.specs.Stepping.{AreListsOf, AreUnder};
ghost use Rattle.up_conditions.specs.Trailing.{HasSetAt, HasStateAt, NameEarlier};

use crate::choices::{parents_at_end, with_next_kid_in};
use crate::entry::pair_of;
use crate::sorted_rules::SortedRules;
use crate::step_index::StepIndex;
use bit_rows::Row;
use listed_pairs::UpEntry;
use smallvec::SmallVec;
use std::alloc::{AllocError, Global};
use ta_model::{Kids, Listed, Rule};

/// The states of the entries at these places.
fn states_at(alloc: Global, entries: &[UpEntry], places: &[u32]) -> Result<Kids, AllocError>
    requires { All (λ k. k < length entries.now) places.now }
    ensures { IfOk result (λ states. AllZip (HasStateAt entries.now) places.now states.items) }
{
    let mut states = SmallVec::new(alloc);
    for k in places {
        let pair = pair_of(&entries[*k as usize]);
        states.push(pair.state)?;
    }
    Ok(states)
}

/// The step of B that goes on from the places of the rules whose first children, so many, are in
/// chosen sets, with the sets of the entries at these places.
fn step_from(
    alloc: Global,
    b: &Listed,
    steps: &StepIndex,
    symbol: u32,
    entries: &[UpEntry],
    count: usize,
    named: &[u32],
    places: &[u32],
) -> Result<Row, AllocError>
    requires steps { AreListsOf b.now steps.now }
    requires sets { All (λ e. length e.pair.set ≡ length b.now.states) entries.now }
    requires named { All (λ k. k < length entries.now) named.now }
    requires count { count + length named.now < 2 ^ 64 }
    requires places { All (λ r. r < length b.now.rules) places.now }
    requires start { count ≡ 0 → AreUnder b.now.rules symbol places.now }
    ensures long { IfOk result (λ row. length row ≡ length b.now.states) }
    ensures members { IfOk result (λ row. (a : Symbol) (sets more : List Row) → length sets ≡ count → AreOpen b.now a sets places.now → AllZip (HasSetAt entries.now) named.now more
        → (s : ℕ) → Has row s ↔ Post b.now a (sets ++ more) s) }
{
    let Some((first, others)) = named.split_first() else {
        return parents_at_end(alloc, b.states().len(), b.rules(), places, count);
    };
    let pair = pair_of(&entries[*first as usize]);
    let next = with_next_kid_in(alloc, b, steps, symbol, places, count, &pair.set)?;
    step_from(alloc, b, steps, symbol, entries, count + 1, others, &next)
}

/// Whether one of the rules leads from the states of the named entries to the entry's state.
fn has_rule(
    alloc: Global,
    rules: &SortedRules,
    entries: &[UpEntry],
    entry: &UpEntry,
) -> Result<bool, AllocError>
    requires { All (λ k. k < length entries.now) entry.now.kids }
    ensures { IfOk result (λ yes. (states : List ℕ) → AllZip (HasStateAt entries.now) entry.now.kids states
        → IsTrue yes ↔ Contains rules.now (record { symbol = entry.now.symbol; kids = states; parent = entry.now.pair.state })) }
{
    let pair = pair_of(entry);
    let kids = states_at(alloc, entries, entry.kids.as_slice())?;
    let rule = Rule {
        symbol: entry.symbol,
        kids,
        parent: pair.state,
    };
    Ok(rules.has(&rule))
}

/// Whether the pair of the entry at this place is the step by its symbol from the pairs of the entries
/// that it names.
pub(crate) fn is_step(
    alloc: Global,
    a: &Listed,
    rules: &SortedRules,
    b: &Listed,
    steps: &StepIndex,
    entries: &[UpEntry],
    at: usize,
) -> Result<bool, AllocError>
    requires rules { (rule : RuleSpec) → Contains rules.now rule ↔ Contains a.now.rules rule }
    requires steps { AreListsOf b.now steps.now }
    requires sets { All (λ e. length e.pair.set ≡ length b.now.states) entries.now }
    requires labels { All (λ e. e.symbol < length a.now.symbols) entries.now }
    requires named { NameEarlier entries.now }
    requires within { at < length entries.now }
    ensures { IfOk result (λ yes. (entry : UpEntrySpec) → IsAt entries.now at entry → IsTrue yes ↔ IsUpStep a.now b.now entries.now at entry) }
{
    let symbols = a.symbols();
    let entry = &entries[at];
    let pair = pair_of(entry);
    let named = entry.kids.as_slice();
    // The number of entries tells the proof that their places fit.
    let _count = named.len();
    if !has_rule(alloc, rules, entries, entry)? {
        return Ok(false);
    }
    let symbol = steps.place_of(b, &symbols[entry.symbol as usize]);
    let places = steps.under(b, symbol);
    let row = step_from(alloc, b, steps, symbol, entries, 0, named, places)?;
    Ok(row.equals(&pair.set))
}
