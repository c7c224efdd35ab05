//! The search for a choice that leaves all children uncovered.
//!
//! The tuples are sent to places one after the other, and for each place stands the set of what was
//! sent to it. A child that is covered stays so whatever else is sent, so nothing is tried behind it.

ghost use Rattle.std.specs.Prelude.{◌≡◌, ◌<◌, ◌≤◌, ◌+◌, ◌↔◌, ◌⊎◌, ℕ, All, IsTrue, IfOk, length, not};
ghost use Rattle.tree_definitions.specs.Relation.{Holds, IsAt};
ghost use Rattle.down_conditions.specs.Choosing.{AreSized, Assigns, Covers, Hits, IsSearching, Misses, tuple_at, work_left};
ghost use Rattle.down_conditions.specs.Filing.{AreByState};
ghost use Rattle.listed_pairs.specs.Within.{AreWithin};

use crate::by_state::is_held;
use bit_matrix::Matrix;
use bit_rows::Row;
use listed_pairs::Pair;
use std::alloc::{AllocError, Global};
use ta_model::Rule;
use trim_ops::RuleIndex;

/// How far a search is: the place of each tuple that is sent, or the number of places where its
/// member stood there already; the place to be tried next; and the set of each place.
#[derive(Drop)]
pub(crate) struct Search {
    places: Vec<usize>,
    next: usize,
    sets: Vec<Row>,
}

/// n empty sets.
fn empty_sets(alloc: Global, n: usize, places: usize) -> Result<Vec<Row>, AllocError>
    ensures sized { IfOk result (λ sets. AreSized n places sets.items) }
    ensures empty { IfOk result (λ sets. (i s : ℕ) → Holds sets.items i s → ⊥) }
{
    let mut sets = Vec::with_capacity(alloc, n)?;
    for _ in 0..n {
        sets.push(Row::zeros(alloc, places)?)?;
    }
    Ok(sets)
}

/// Adds the member to a set.
fn put(sets: &mut Vec<Row>, i: usize, s: usize)
    requires set { i < length sets.old.items }
    requires member { All (λ row. s < length row) sets.old.items }
    ensures sized { (n places : ℕ) → AreSized n places sets.old.items → AreSized n places sets.new.items }
    ensures members { (j x : ℕ) → Holds sets.new.items j x ↔ (((j ≡ i) × (x ≡ s)) ⊎ Holds sets.old.items j x) }
{
    sets[i].set(s);
}

/// Takes the member out of a set.
fn take(sets: &mut Vec<Row>, i: usize, s: usize)
    requires set { i < length sets.old.items }
    requires member { All (λ row. s < length row) sets.old.items }
    ensures sized { (n places : ℕ) → AreSized n places sets.old.items → AreSized n places sets.new.items }
    ensures members { (j x : ℕ) → Holds sets.new.items j x ↔ (((j ≡ i) × (x ≡ s) → ⊥) × Holds sets.old.items j x) }
{
    sets[i].clear(s);
}

/// Whether no place was tried yet, and some member of the tuple stands in the set of its place.
fn is_settled(next: usize, sets: &[Row], tuple: &[u32], m: usize, places: usize) -> bool
    requires sized { AreSized (length tuple.now) places sets.now }
    requires members { All (λ q. m + q < places) tuple.now }
    ensures { IsTrue result ↔ ((next ≡ 0) × ((i t : ℕ) × IsAt tuple.now i t × Holds sets.now i (m + t))) }
{
    if next != 0 {
        return false;
    }
    for i in 0..tuple.len() {
        if sets[i].get(m + tuple[i] as usize) {
            return true;
        }
    }
    false
}

/// Takes back the last tuple that was sent, if there is one, so that its next place is tried.
fn step_back(
    rules: &[Rule],
    list: &[u32],
    kids: &[u32],
    m: usize,
    both: &Matrix,
    pairs: &[Pair],
    search: &mut Search,
) -> bool
    requires list { All (λ r. r < length rules.now) list.now }
    requires rules { All (λ rule. All (λ q. m + q < length both.now) rule.kids) rules.now }
    requires tuples { (k : ℕ) → k < length list.now → length (tuple_at rules.now list.now k) ≡ length kids.now }
    requires some { length search.old.places.items < length list.now }
    requires past { length kids.now ≤ search.old.next }
    requires sized { AreSized (length kids.now) (length both.now) search.old.sets.items }
    requires searching { IsSearching (Covers (Holds both.now) pairs.now m kids.now) (tuple_at rules.now list.now) (length list.now) (length kids.now) m search.old.places.items search.old.next search.old.sets.items }
    ensures sized { IsTrue result → AreSized (length kids.now) (length both.now) search.new.sets.items }
    ensures searching { IsTrue result → IsSearching (Covers (Holds both.now) pairs.now m kids.now) (tuple_at rules.now list.now) (length list.now) (length kids.now) m search.new.places.items search.new.next search.new.sets.items }
    ensures less { IsTrue result → work_left (length kids.now) (length list.now) search.new.places.items search.new.next < work_left (length kids.now) (length list.now) search.old.places.items search.old.next }
    ensures over { IsTrue (not result) → (to : ℕ → ℕ) → Assigns (length list.now) (length kids.now) to → Hits (Covers (Holds both.now) pairs.now m kids.now) (tuple_at rules.now list.now) (length list.now) to }
{
    // The number of places tells the proof that a member fits.
    let _places = both.size();
    let Some(i) = search.places.pop() else {
        return false;
    };
    if i < kids.len() {
        let rule = &rules[list[search.places.len()] as usize];
        take(&mut search.sets, i, m + rule.kids.as_slice()[i] as usize);
        search.next = i + 1;
        return true;
    }
    // The tuple was sent nowhere, so there is no other place to try.
    search.next = kids.len() + 1;
    true
}

/// One step of the search: the next tuple is sent to a place or passed over there, or the last one is
/// taken back. It says whether the search goes on.
fn step(
    rules: &[Rule],
    list: &[u32],
    kids: &[u32],
    m: usize,
    both: &Matrix,
    pairs: &[Pair],
    by_state: &RuleIndex,
    search: &mut Search,
) -> Result<bool, AllocError>
    requires within { AreWithin (length both.now) (length both.now) pairs.now }
    requires by_state { AreByState pairs.now by_state.now }
    requires index { length by_state.now ≡ length both.now }
    requires list { All (λ r. r < length rules.now) list.now }
    requires rules { All (λ rule. All (λ q. m + q < length both.now) rule.kids) rules.now }
    requires kids { All (λ q. q < length both.now) kids.now }
    requires tuples { (k : ℕ) → k < length list.now → length (tuple_at rules.now list.now k) ≡ length kids.now }
    requires some { length search.old.places.items < length list.now }
    requires sized { AreSized (length kids.now) (length both.now) search.old.sets.items }
    requires searching { IsSearching (Covers (Holds both.now) pairs.now m kids.now) (tuple_at rules.now list.now) (length list.now) (length kids.now) m search.old.places.items search.old.next search.old.sets.items }
    ensures sized { IfOk result (λ more. IsTrue more → AreSized (length kids.now) (length both.now) search.new.sets.items) }
    ensures searching { IfOk result (λ more. IsTrue more → IsSearching (Covers (Holds both.now) pairs.now m kids.now) (tuple_at rules.now list.now) (length list.now) (length kids.now) m search.new.places.items search.new.next search.new.sets.items) }
    ensures less { IfOk result (λ more. IsTrue more → work_left (length kids.now) (length list.now) search.new.places.items search.new.next < work_left (length kids.now) (length list.now) search.old.places.items search.old.next) }
    ensures over { IfOk result (λ more. IsTrue (not more) → (to : ℕ → ℕ) → Assigns (length list.now) (length kids.now) to → Hits (Covers (Holds both.now) pairs.now m kids.now) (tuple_at rules.now list.now) (length list.now) to) }
{
    let n = kids.len();
    let rule = &rules[list[search.places.len()] as usize];
    let tuple = rule.kids.as_slice();
    if is_settled(search.next, &search.sets, tuple, m, both.size()) {
        search.places.push(n)?;
        return Ok(true);
    }
    let i = search.next;
    if i >= n {
        return Ok(step_back(rules, list, kids, m, both, pairs, search));
    }
    let s = m + tuple[i] as usize;
    put(&mut search.sets, i, s);
    if is_held(both, pairs, by_state, kids[i] as usize, &search.sets[i]) {
        take(&mut search.sets, i, s);
        search.next += 1;
        return Ok(true);
    }
    search.places.push(i)?;
    search.next = 0;
    Ok(true)
}

/// Whether the tuples, those of the rules in the list, can be sent to places so that no child is
/// covered with what is sent to its place.
pub(crate) fn can_miss(
    alloc: Global,
    rules: &[Rule],
    list: &[u32],
    kids: &[u32],
    m: usize,
    both: &Matrix,
    pairs: &[Pair],
    by_state: &RuleIndex,
) -> Result<bool, AllocError>
    requires within { AreWithin (length both.now) (length both.now) pairs.now }
    requires by_state { AreByState pairs.now by_state.now }
    requires index { length by_state.now ≡ length both.now }
    requires list { All (λ r. r < length rules.now) list.now }
    requires rules { All (λ rule. All (λ q. m + q < length both.now) rule.kids) rules.now }
    requires kids { All (λ q. q < length both.now) kids.now }
    requires tuples { (k : ℕ) → k < length list.now → length (tuple_at rules.now list.now k) ≡ length kids.now }
    requires none { (i : ℕ) → Covers (Holds both.now) pairs.now m kids.now i (λ s. ⊥) → ⊥ }
    ensures misses { IfOk result (λ yes. IsTrue yes → (to : ℕ → ℕ) × Assigns (length list.now) (length kids.now) to × Misses (Covers (Holds both.now) pairs.now m kids.now) (tuple_at rules.now list.now) (length list.now) to) }
    ensures hits { IfOk result (λ yes. IsTrue (not yes) → (to : ℕ → ℕ) → Assigns (length list.now) (length kids.now) to → Hits (Covers (Holds both.now) pairs.now m kids.now) (tuple_at rules.now list.now) (length list.now) to) }
{
    let sets = empty_sets(alloc, kids.len(), both.size())?;
    let mut search = Search {
        places: Vec::new(alloc),
        next: 0,
        sets,
    };
    while search.places.len() < list.len() {
        match step(rules, list, kids, m, both, pairs, by_state, &mut search) {
            Ok(true) => {}
            Ok(false) => return Ok(false),
            Err(_) => return Err(AllocError),
        }
    }
    Ok(true)
}
