//! The order in which tuples are sent to places: those with at most one place left come first. The
//! answer doesn't rest on it, but the search then ends sooner where few places are left.

ghost use Rattle.std.specs.Prelude.{◌≡◌, ◌<◌, ◌+◌, ◌↔◌, ◌⊎◌, ℕ, All, Contains, IfOk, length};
ghost use Rattle.tree_definitions.specs.Relation.{IsAt};
ghost use Rattle.down_conditions.specs.Choosing.{tuple_at};
ghost use Rattle.down_conditions.specs.Filing.{AreByState};
ghost use Rattle.listed_pairs.specs.Within.{AreWithin};

use crate::by_state::is_held;
use bit_matrix::Matrix;
use bit_rows::Row;
use listed_pairs::Pair;
use std::alloc::{AllocError, Global};
use ta_model::Rule;
use trim_ops::RuleIndex;

/// Whether the set with this member leaves the state uncovered. The set is given back without it.
fn is_free(
    both: &Matrix,
    pairs: &[Pair],
    by_state: &RuleIndex,
    state: usize,
    member: usize,
    set: &mut Row,
) -> bool
    requires within { AreWithin (length both.now) (length both.now) pairs.now }
    requires by_state { AreByState pairs.now by_state.now }
    requires index { length by_state.now ≡ length both.now }
    requires state { state < length both.now }
    requires member { member < length both.now }
    requires set { length set.old ≡ length both.now }
    ensures { length set.new ≡ length set.old }
{
    set.set(member);
    let held = is_held(both, pairs, by_state, state, set);
    set.clear(member);
    !held
}

/// Whether at most one place leaves its child uncovered with the tuple's member there.
fn is_forced(
    tuple: &[u32],
    kids: &[u32],
    m: usize,
    both: &Matrix,
    pairs: &[Pair],
    by_state: &RuleIndex,
    set: &mut Row,
) -> bool
    requires within { AreWithin (length both.now) (length both.now) pairs.now }
    requires by_state { AreByState pairs.now by_state.now }
    requires index { length by_state.now ≡ length both.now }
    requires kids { All (λ q. q < length both.now) kids.now }
    requires long { length tuple.now ≡ length kids.now }
    requires members { All (λ q. m + q < length both.now) tuple.now }
    requires set { length set.old ≡ length both.now }
    ensures { length set.new ≡ length set.old }
{
    // The number of places tells the proof that a member fits.
    let _places = both.size();
    let mut found = false;
    for i in 0..kids.len() {
        let member = m + tuple[i] as usize;
        if is_free(both, pairs, by_state, kids[i] as usize, member, set) {
            if found {
                return false;
            }
            found = true;
        }
    }
    true
}

/// Which tuples of the list have at most one place left.
fn forced(
    alloc: Global,
    rules: &[Rule],
    list: &[u32],
    kids: &[u32],
    m: usize,
    both: &Matrix,
    pairs: &[Pair],
    by_state: &RuleIndex,
) -> Result<Row, AllocError>
    requires within { AreWithin (length both.now) (length both.now) pairs.now }
    requires by_state { AreByState pairs.now by_state.now }
    requires index { length by_state.now ≡ length both.now }
    requires list { All (λ r. r < length rules.now) list.now }
    requires rules { All (λ rule. All (λ q. m + q < length both.now) rule.kids) rules.now }
    requires kids { All (λ q. q < length both.now) kids.now }
    requires tuples { (k : ℕ) → k < length list.now → length (tuple_at rules.now list.now k) ≡ length kids.now }
    ensures { IfOk result (λ marks. length marks ≡ length list.now) }
{
    let mut marks = Row::zeros(alloc, list.len())?;
    let mut set = Row::zeros(alloc, both.size())?;
    for k in 0..list.len() {
        let rule = &rules[list[k] as usize];
        let tuple = rule.kids.as_slice();
        if is_forced(tuple, kids, m, both, pairs, by_state, &mut set) {
            marks.set(k);
        }
    }
    Ok(marks)
}

/// Adds the number if its mark is the wanted one.
fn add_wanted(chosen: &mut Vec<u32>, r: u32, mark: bool, wanted: bool) -> Result<(), AllocError>
    ensures { IfOk result (λ _. (x : ℕ) → Contains chosen.new.items x ↔ (Contains chosen.old.items x ⊎ ((x ≡ r) × (mark ≡ wanted)))) }
{
    if mark != wanted {
        return Ok(());
    }
    chosen.push(r)?;
    Ok(())
}

/// Adds what stands in the list at places with this mark.
fn add_marked(
    list: &[u32],
    marks: &Row,
    mark: bool,
    chosen: &mut Vec<u32>,
) -> Result<(), AllocError>
    requires { length marks.now ≡ length list.now }
    ensures { IfOk result (λ _. (x : ℕ) → Contains chosen.new.items x ↔ (Contains chosen.old.items x ⊎ ((k : ℕ) × IsAt list.now k x × IsAt marks.now k mark))) }
{
    for k in 0..list.len() {
        add_wanted(chosen, list[k], marks.get(k), mark)?;
    }
    Ok(())
}

/// The list with the tuples first that have at most one place left.
pub(crate) fn forced_first(
    alloc: Global,
    rules: &[Rule],
    list: &[u32],
    kids: &[u32],
    m: usize,
    both: &Matrix,
    pairs: &[Pair],
    by_state: &RuleIndex,
) -> Result<Vec<u32>, AllocError>
    requires within { AreWithin (length both.now) (length both.now) pairs.now }
    requires by_state { AreByState pairs.now by_state.now }
    requires index { length by_state.now ≡ length both.now }
    requires list { All (λ r. r < length rules.now) list.now }
    requires rules { All (λ rule. All (λ q. m + q < length both.now) rule.kids) rules.now }
    requires kids { All (λ q. q < length both.now) kids.now }
    requires tuples { (k : ℕ) → k < length list.now → length (tuple_at rules.now list.now k) ≡ length kids.now }
    ensures { IfOk result (λ v. (x : ℕ) → Contains v.items x ↔ Contains list.now x) }
{
    let marks = forced(alloc, rules, list, kids, m, both, pairs, by_state)?;
    let mut order = Vec::with_capacity(alloc, list.len())?;
    add_marked(list, &marks, true, &mut order)?;
    add_marked(list, &marks, false, &mut order)?;
    Ok(order)
}
