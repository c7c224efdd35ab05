//! The calls of both traits, at the explicit encoding.

ghost use Rattle.std.specs.Prelude.{◌≡◌, ◌<◌, [], ◌∷◌, codes, IfOk, length};

use bit_rows::Row;
use explicit_ta::{Explicit, ExplicitPair};
use smallvec::SmallVec;
use std::alloc::{AllocError, Global};
use ta_model::{Joint, Listed, MacroStore, Name, Rule, Symbol, Table, Tuples};

#[tactic(auto, unfolding(tree_definitions::specs::Name::is_section_word))]
fn symbols(alloc: Global) -> Result<Vec<Symbol>, AllocError>
    ensures { IfOk result (λ v. v.items ≡ record { name = codes "f"; rank = 1 } ∷ []) }
{
    let name = Name::known(alloc, b"f")?;
    Ok(vec![in alloc; Symbol { name, rank: 1 }]?)
}

#[tactic(auto, unfolding(tree_definitions::specs::Name::is_section_word))]
fn states(alloc: Global) -> Result<Vec<Name>, AllocError>
    ensures { IfOk result (λ v. v.items ≡ codes "r" ∷ []) }
{
    let name = Name::known(alloc, b"r")?;
    Ok(vec![in alloc; name]?)
}

fn rules(alloc: Global) -> Result<Vec<Rule>, AllocError>
    ensures { IfOk result (λ v. v.items ≡ record { symbol = 0; kids = 0 ∷ []; parent = 0 } ∷ []) }
{
    let kids = SmallVec::from_slice(alloc, &[0])?;
    let rule = Rule {
        symbol: 0,
        kids,
        parent: 0,
    };
    Ok(vec![in alloc; rule]?)
}

/// The automaton with one state, which is final, and the rule f(r) -> r.
fn only(alloc: Global) -> Result<Listed, AllocError>
    ensures states { IfOk result (λ a. length a.states ≡ 1) }
    ensures rules { IfOk result (λ a. length a.rules ≡ 1) }
{
    let name = Name::known(alloc, b"f")?;
    let finals = vec![in alloc; 0]?;
    Ok(Listed::new(name, symbols(alloc)?, states(alloc)?, finals, rules(alloc)?))
}

/// Its sizes, and that its state is final.
fn is_of_one_state<T: Table>(t: &T) -> bool {
    t.nodes() == 0 && t.bits() == 0 && t.states() == 1 && t.is_final(0)
}

/// Its one tuple, by parent and by child.
fn has_one_tuple<T: Table>(t: &T) -> Result<bool, AllocError> {
    if t.states() == 0 {
        return Ok(false);
    }
    let to = t.kid_tuples(0)?.len();
    let with = t.tuples_with(0)?.len();
    Ok(to == 1 && with == 1)
}

/// Its one symbol, downward and upward.
fn has_one_class<T: Table>(t: &T) -> Result<bool, AllocError> {
    if t.states() == 0 {
        return Ok(false);
    }
    let down = t.classes(0, 0)?.len();
    let up = t.up_classes(&[0], &[0])?.len();
    Ok(down == 1 && up == 1)
}

/// It without its state, and its list.
fn is_listed<T: Table>(alloc: Global, t: &T) -> Result<bool, AllocError> {
    let keep = Row::zeros(alloc, t.states() as usize)?;
    let left = t.restricted(&keep)?.states();
    let listed = t.listed()?;
    Ok(left == 0 && listed.rules().len() == 1)
}

/// Each call of a table of that automaton.
fn is_right_table<T: Table>(alloc: Global, t: &T) -> Result<bool, AllocError> {
    Ok(is_of_one_state(t) && has_one_tuple(t)? && has_one_class(t)? && is_listed(alloc, t)?)
}

fn encodes_one(alloc: Global, a: &Listed) -> Result<bool, AllocError> {
    let t = Explicit::from_listed(a)?;
    is_right_table(alloc, &t)
}

#[test]
fn one_automaton(rt: HostRuntime) -> Result<(), AllocError> {
    let a = only(rt.alloc())?;
    let right = encodes_one(rt.alloc(), &a)?;
    assert!(rt; right);
    Ok(())
}

/// The sizes of that automaton with itself, and that both states are final.
fn is_of_two_states<J: Joint>(j: &J) -> bool {
    let (left, right) = j.sizes();
    left == 1 && right == 1 && j.left_final(0) && j.right_final(0)
}

/// Its symbol, and the class and the tuple of its left state.
fn has_one_symbol<J: Joint>(j: &J) -> Result<bool, AllocError> {
    let (left, _) = j.sizes();
    if left == 0 {
        return Ok(false);
    }
    let classes = j.classes(0, 0)?.len();
    let tuples = j.kids_with(0)?.len();
    Ok(j.nodes() == 0 && j.bits() == 0 && j.symbols().len() == 1 && classes == 1 && tuples == 1)
}

/// The sets of so many states that are made here: the first state alone.
fn store_of(alloc: Global, states: usize) -> Result<MacroStore, AllocError>
    requires { 0 < states }
    ensures states { IfOk result (λ s. s.states ≡ states) }
    ensures sets { IfOk result (λ s. 0 < length s.rows) }
{
    let mut store = MacroStore::new(alloc, states);
    let mut set = Row::zeros(alloc, states)?;
    set.set(0);
    store.intern(&set)?;
    Ok(store)
}

/// Under f the left state and the set of the right one lead to themselves.
fn leads_up<J: Joint>(alloc: Global, j: &mut J) -> Result<bool, AllocError> {
    let (left, right) = j.sizes();
    if left == 0 || right == 0 {
        return Ok(false);
    }
    let mut store = store_of(alloc, right as usize)?;
    let groups = j.up_groups(&[0], &[0], &mut store)?;
    match groups.as_slice() {
        [group] => Ok(group.symbol == 0 && group.set == 0 && group.parents.len() == 1),
        _ => Ok(false),
    }
}

/// Whether the tuples are (0) alone.
fn are_of_zero(tuples: &Tuples) -> bool {
    tuples.len() == 1 && tuples.at(0).as_slice() == [0].as_slice()
}

/// Under f the left state has the tuple (0), and the set of the right one too.
fn leads_down<J: Joint>(alloc: Global, j: &mut J) -> Result<bool, AllocError> {
    let (left, right) = j.sizes();
    if left == 0 || right == 0 {
        return Ok(false);
    }
    let store = store_of(alloc, right as usize)?;
    let groups = j.down_groups(0, 0, &store)?;
    match groups.as_slice() {
        [group] => {
            Ok(group.symbol == 0 && are_of_zero(&group.rules) && are_of_zero(&group.tuples))
        }
        _ => Ok(false),
    }
}

/// The two lists, and the list of both.
fn are_listed<J: Joint>(j: &J) -> Result<bool, AllocError> {
    let joined = j.joined()?.listed()?.rules().len();
    let (a, b) = j.listed()?;
    Ok(joined == 2 && a.symbols().len() == 1 && b.symbols().len() == 1)
}

/// Each call of a pair of that automaton with itself.
fn is_right_pair<J: Joint>(alloc: Global, j: &mut J) -> Result<bool, AllocError> {
    let alike = is_of_two_states(j) && has_one_symbol(j)? && are_listed(j)?;
    Ok(alike && leads_up(alloc, j)? && leads_down(alloc, j)?)
}

fn encodes_two(alloc: Global, a: &Listed) -> Result<bool, AllocError>
    requires states { length a.now.states ≡ 1 }
    requires rules { length a.now.rules ≡ 1 }
{
    match ExplicitPair::from_listed(a, a) {
        Ok(mut j) => is_right_pair(alloc, &mut j),
        Err(_) => Ok(false),
    }
}

#[test]
fn two_automata(rt: HostRuntime) -> Result<(), AllocError> {
    let a = only(rt.alloc())?;
    let right = encodes_two(rt.alloc(), &a)?;
    assert!(rt; right);
    Ok(())
}
