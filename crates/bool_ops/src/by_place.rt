//! Rules by symbol, place of a child and state.

ghost use Rattle.std.specs.Prelude.{◌≡◌, ◌≢◌, ◌<◌, ◌⊎◌, ◌^◌, ℕ, [], IfOk, All, AllPairs, Contains, length};
ghost use Rattle.tree_definitions.specs.Automaton.{Rule as RuleSpec};
ghost use Rattle.tree_definitions.specs.Relation.{IsAt};
ghost use Rattle.bool_ops.specs.Filing.{entries_of, slot_of, HasSlots, IsFiled};
ghost use Rattle.bool_ops.specs.Paths.{IsByKids};

use crate::by_kids::ByKids;
use crate::pairs::{Both, Pairs};
use std::alloc::{AllocError, Global};
use ta_model::Rule;
use trim_ops::RuleIndex;

const LEAF: [u32; 1] = [0];

/// For each slot, places of rules in a list, and the rules by all their children.
#[derive(Drop)]
pub(crate) struct ByPlace {
    slots: Pairs,
    lists: RuleIndex,
    pub by_kids: ByKids,
}

/// The slot of a symbol, a place of a child and the state there.
fn slot(symbol: u32, place: usize, state: u32) -> Both
    ensures { result ≡ slot_of symbol place state }
{
    let place = (place % 256) as u32;
    Both {
        left: symbol.wrapping_mul(256).wrapping_add(place),
        right: state,
    }
}

/// The children of a rule, or 0 for a leaf.
fn entries(kids: &[u32]) -> &[u32]
    ensures { result.now ≡ entries_of kids.now }
{
    if kids.is_empty() { &LEAF } else { kids }
}

/// The slots of all rules.
fn slots_of(alloc: Global, rules: &[Rule]) -> Result<Pairs, AllocError>
    ensures { IfOk result (λ slots. HasSlots rules.now slots) }
{
    let mut slots = Pairs::new(alloc);
    for rule in rules {
        for (i, state) in entries(rule.kids.as_slice()).iter().enumerate() {
            slots.add(slot(rule.symbol, i, *state))?;
        }
    }
    Ok(slots)
}

/// The rules in the lists of their slots.
fn filed(alloc: Global, rules: &[Rule], slots: &Pairs) -> Result<RuleIndex, AllocError>
    requires slots { HasSlots rules.now slots.now }
    requires few { length rules.now < 2 ^ 32 }
    ensures { IfOk result (λ lists. IsFiled rules.now slots.now lists) }
{
    let mut lists = RuleIndex::new(alloc, slots.len())?;
    for (s, rule) in rules.iter().enumerate() {
        for (i, state) in entries(rule.kids.as_slice()).iter().enumerate() {
            let Some(n) = slots.find(slot(rule.symbol, i, *state)) else {
                continue;
            };
            lists.add(n, s as u32)?;
        }
    }
    Ok(lists)
}

impl ByPlace {
    pub fn new(alloc: Global, rules: &[Rule]) -> Result<ByPlace, AllocError>
        requires { length rules.now < 2 ^ 32 }
        ensures distinct { IfOk result (λ f. AllPairs ◌≢◌ f.slots) }
        ensures slots { IfOk result (λ f. HasSlots rules.now f.slots) }
        ensures filed { IfOk result (λ f. IsFiled rules.now f.slots f.lists) }
        ensures by_kids { IfOk result (λ f. IsByKids rules.now f.by_kids.nodes f.by_kids.lists) }
    {
        let slots = slots_of(alloc, rules)?;
        let lists = filed(alloc, rules, &slots)?;
        let by_kids = ByKids::new(alloc, rules)?;
        Ok(ByPlace {
            slots,
            lists,
            by_kids,
        })
    }

    /// The rules with this symbol and this state at this place, among others perhaps.
    pub fn at(&self, symbol: u32, place: usize, state: u32) -> &[u32]
        requires distinct { AllPairs ◌≢◌ self.now.slots }
        requires size { length self.now.lists ≡ length self.now.slots }
        ensures found { (n : ℕ) → IsAt self.now.slots n (slot_of symbol place state) → IsAt self.now.lists n result.now }
        ensures within { (result.now ≡ []) ⊎ ((n : ℕ) × IsAt self.now.lists n result.now) }
    {
        match self.slots.find(slot(symbol, place, state)) {
            Some(n) => self.lists.at(n),
            None => &[],
        }
    }
}
