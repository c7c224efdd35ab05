//! Which pairs a choice of places refutes.

ghost use Rattle.std.specs.Prelude.{◌≡◌, ◌<◌, ◌≤◌, ◌+◌, ◌↔◌, ℕ, List, All, Contains, IfNone, IfOk, IfSome, IsTrue, length, not};
ghost use Rattle.tree_definitions.specs.Tree.{Symbol};
ghost use Rattle.tree_definitions.specs.Cover.{FitsPair, Pair};
ghost use Rattle.tree_definitions.specs.Relation.{Has, Holds, IsAt};
ghost use Rattle.trim_ops.specs.Marking.{IsByParent};
ghost use Rattle.down_conditions.specs.Covering.{AreShifted, IsHeld};
ghost use Rattle.down_conditions.specs.Filing.{AreByState, AreBySymbol};
ghost use Rattle.down_conditions.specs.Refuting.{AreDowns, IsRefuted, IsRuleCovered, IsSplitCovered, Refutes};
ghost use Rattle.listed_pairs.specs.Places.{IsFirst, IsNth};
ghost use Rattle.listed_pairs.specs.Within.{AreWithin};

use crate::by_state::{is_held, pairs_by_state};
use crate::downs::{alphabet_of, downs, rules_by_symbol};
use crate::order::forced_first;
use crate::search::can_miss;
use crate::shift::shifted_pairs;
use bit_matrix::Matrix;
use bit_rows::Row;
use listed_pairs::Pair;
use ranked_alphabet::Alphabet;
use std::alloc::{AllocError, Global};
use ta_model::{Listed, Symbol};
use trim_ops::{RuleIndex, rules_by_parent};

/// Whether some child is covered with this set.
fn some_held(both: &Matrix, wides: &[Pair], by_state: &RuleIndex, kids: &[u32], set: &Row) -> bool
    requires within { AreWithin (length both.now) (length both.now) wides.now }
    requires by_state { AreByState wides.now by_state.now }
    requires index { length by_state.now ≡ length both.now }
    requires kids { All (λ q. q < length both.now) kids.now }
    requires set { length set.now ≡ length both.now }
    ensures { IsTrue result ↔ ((i : ℕ) × (q : ℕ) × IsAt kids.now i q × IsHeld (Holds both.now) wides.now q (Has set.now)) }
{
    for i in 0..kids.len() {
        if is_held(both, wides, by_state, kids[i] as usize, set) {
            return true;
        }
    }
    false
}

/// The rules of B under the symbol whose parent is in the set, those first whose children have at
/// most one place left.
fn downs_in_order(
    alloc: Global,
    b: &Listed,
    alphabet: &Alphabet,
    by_symbol: &RuleIndex,
    both: &Matrix,
    wides: &[Pair],
    by_state: &RuleIndex,
    symbol: &Symbol,
    kids: &[u32],
    m: usize,
    set: &Row,
) -> Result<Vec<u32>, AllocError>
    requires both { m + length b.now.states ≤ length both.now }
    requires alphabet { alphabet.now ≡ b.now.symbols }
    requires by_symbol { AreBySymbol b.now.rules by_symbol.now }
    requires symbols { length by_symbol.now ≡ length b.now.symbols }
    requires within { AreWithin (length both.now) (length both.now) wides.now }
    requires by_state { AreByState wides.now by_state.now }
    requires index { length by_state.now ≡ length both.now }
    requires rank { length kids.now ≡ symbol.now.rank }
    requires kids { All (λ q. q < length both.now) kids.now }
    requires set { length set.now ≡ length b.now.states }
    ensures within { IfOk result (λ v. All (λ r. r < length b.now.rules) v.items) }
    ensures downs { IfOk result (λ v. AreDowns b.now symbol.now set.now v.items) }
{
    let list = downs(alloc, b, alphabet, by_symbol, symbol, set)?;
    forced_first(alloc, b.rules(), &list, kids, m, both, wides, by_state)
}

/// Whether some choice refutes the rule of A with this symbol and these children, for a set.
fn rule_is_refuted(
    alloc: Global,
    a: &Listed,
    b: &Listed,
    alphabet: &Alphabet,
    by_symbol: &RuleIndex,
    both: &Matrix,
    wides: &[Pair],
    by_state: &RuleIndex,
    empty: &Row,
    symbol: &Symbol,
    kids: &[u32],
    set: &Row,
) -> Result<bool, AllocError>
    requires both { length both.now ≡ length a.now.states + length b.now.states }
    requires alphabet { alphabet.now ≡ b.now.symbols }
    requires by_symbol { AreBySymbol b.now.rules by_symbol.now }
    requires symbols { length by_symbol.now ≡ length b.now.symbols }
    requires within { AreWithin (length both.now) (length both.now) wides.now }
    requires by_state { AreByState wides.now by_state.now }
    requires index { length by_state.now ≡ length both.now }
    requires long { length empty.now ≡ length both.now }
    requires empty { (s : ℕ) → Has empty.now s → ⊥ }
    requires rank { length kids.now ≡ symbol.now.rank }
    requires kids { All (λ q. q < length a.now.states) kids.now }
    requires set { length set.now ≡ length b.now.states }
    ensures refuted { IfOk result (λ yes. IsTrue yes → (pairs : List Pair) → AreShifted (length a.now.states) pairs wides.now
        → (choice : List ℕ → ℕ) × Refutes a.now b.now (Holds both.now) pairs set.now symbol.now kids.now choice) }
    ensures covered { IfOk result (λ yes. IsTrue (not yes) → (pairs : List Pair) → AreShifted (length a.now.states) pairs wides.now
        → IsRuleCovered a.now b.now (Holds both.now) pairs set.now symbol.now kids.now) }
{
    if some_held(both, wides, by_state, kids, empty) {
        return Ok(false);
    }
    let m = a.states().len();
    let list = downs_in_order(
        alloc, b, alphabet, by_symbol, both, wides, by_state, symbol, kids, m, set,
    )?;
    can_miss(alloc, b.rules(), &list, kids, m, both, wides, by_state)
}

/// Whether some choice refutes a rule of A, those in the list, for the pair's set.
fn pair_is_refuted(
    alloc: Global,
    a: &Listed,
    b: &Listed,
    alphabet: &Alphabet,
    by_symbol: &RuleIndex,
    both: &Matrix,
    wides: &[Pair],
    by_state: &RuleIndex,
    empty: &Row,
    list: &[u32],
    pair: &Pair,
) -> Result<bool, AllocError>
    requires both { length both.now ≡ length a.now.states + length b.now.states }
    requires alphabet { alphabet.now ≡ b.now.symbols }
    requires by_symbol { AreBySymbol b.now.rules by_symbol.now }
    requires symbols { length by_symbol.now ≡ length b.now.symbols }
    requires within { AreWithin (length both.now) (length both.now) wides.now }
    requires by_state { AreByState wides.now by_state.now }
    requires index { length by_state.now ≡ length both.now }
    requires long { length empty.now ≡ length both.now }
    requires empty { (s : ℕ) → Has empty.now s → ⊥ }
    requires list { All (λ r. r < length a.now.rules) list.now }
    requires set { length pair.now.set ≡ length b.now.states }
    ensures refuted { IfOk result (λ yes. IsTrue yes → (lists : List (List ℕ)) (pairs : List Pair) → IsByParent a.now.rules lists → IsAt lists pair.now.state list.now
        → AreShifted (length a.now.states) pairs wides.now → IsRefuted a.now b.now (Holds both.now) pairs pair.now) }
    ensures covered { IfOk result (λ yes. IsTrue (not yes) → (lists : List (List ℕ)) (pairs : List Pair) → IsByParent a.now.rules lists → IsAt lists pair.now.state list.now
        → AreShifted (length a.now.states) pairs wides.now → IsSplitCovered a.now b.now (Holds both.now) pairs pair.now) }
{
    let rules = a.rules();
    let symbols = a.symbols();
    for r in list {
        let rule = &rules[*r as usize];
        match rule_is_refuted(
            alloc,
            a,
            b,
            alphabet,
            by_symbol,
            both,
            wides,
            by_state,
            empty,
            &symbols[rule.symbol as usize],
            rule.kids.as_slice(),
            &pair.set,
        ) {
            Ok(false) => {}
            Ok(true) => return Ok(true),
            Err(_) => return Err(AllocError),
        }
    }
    Ok(false)
}

/// The first pair that some choice refutes, of pairs given at joint places too.
fn first_by_index(
    alloc: Global,
    a: &Listed,
    b: &Listed,
    alphabet: &Alphabet,
    by_symbol: &RuleIndex,
    by_parent: &RuleIndex,
    both: &Matrix,
    pairs: &[Pair],
    wides: &[Pair],
    by_state: &RuleIndex,
) -> Result<Option<u32>, AllocError>
    requires both { length both.now ≡ length a.now.states + length b.now.states }
    requires alphabet { alphabet.now ≡ b.now.symbols }
    requires by_symbol { AreBySymbol b.now.rules by_symbol.now }
    requires symbols { length by_symbol.now ≡ length b.now.symbols }
    requires by_parent { IsByParent a.now.rules by_parent.now }
    requires parents { length by_parent.now ≡ length a.now.states }
    requires within { AreWithin (length both.now) (length both.now) wides.now }
    requires by_state { AreByState wides.now by_state.now }
    requires index { length by_state.now ≡ length both.now }
    requires shifted { AreShifted (length a.now.states) pairs.now wides.now }
    requires fits { All (FitsPair a.now b.now) pairs.now }
    requires few { length pairs.now < 4294967295 }
    ensures none { IfOk result (λ first. IfNone first ((pair : Pair) → Contains pairs.now pair → IsSplitCovered a.now b.now (Holds both.now) pairs.now pair)) }
    ensures some { IfOk result (λ first. IfSome first (IsFirst (IsNth pairs.now (IsRefuted a.now b.now (Holds both.now) pairs.now)))) }
{
    let empty = Row::zeros(alloc, both.size())?;
    for at in 0..pairs.len() {
        let pair = &pairs[at];
        let list = by_parent.at(pair.state as usize);
        match pair_is_refuted(
            alloc, a, b, alphabet, by_symbol, both, wides, by_state, &empty, list, pair,
        ) {
            Ok(false) => {}
            Ok(true) => return Ok(Some(at as u32 + 1)),
            Err(_) => return Err(AllocError),
        }
    }
    Ok(None)
}

/// The place of the first pair that some choice refutes: for a rule of A to the pair's state the
/// choice sends each child tuple of B's rules under the symbol to the set to a place, and neither
/// the relation nor a listed pair covers a child with the members that are sent to its place.
pub fn first_refuted(
    alloc: Global,
    a: &Listed,
    b: &Listed,
    both: &Matrix,
    pairs: &[Pair],
) -> Result<Option<u32>, AllocError>
    requires both { length both.now ≡ length a.now.states + length b.now.states }
    requires fits { All (FitsPair a.now b.now) pairs.now }
    requires few { length pairs.now < 4294967295 }
    ensures none { IfOk result (λ first. IfNone first ((pair : Pair) → Contains pairs.now pair → IsSplitCovered a.now b.now (Holds both.now) pairs.now pair)) }
    ensures some { IfOk result (λ first. IfSome first (IsFirst (IsNth pairs.now (IsRefuted a.now b.now (Holds both.now) pairs.now)))) }
{
    let alphabet = alphabet_of(alloc, b)?;
    let m = a.states().len();
    let n = both.size();
    let by_symbol = rules_by_symbol(alloc, b.rules(), b.symbols().len())?;
    let by_parent = rules_by_parent(alloc, a.rules(), m)?;
    let wides = shifted_pairs(alloc, pairs, m, n)?;
    let by_state = pairs_by_state(alloc, &wides, n)?;
    first_by_index(
        alloc, a, b, &alphabet, &by_symbol, &by_parent, both, pairs, &wides, &by_state,
    )
}
