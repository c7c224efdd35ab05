//! Reached and useful states of an automaton, however it is kept.

ghost use Rattle.std.specs.Prelude.{◌≡◌, ◌↔◌, ℕ, IfOk, length};
ghost use Rattle.tree_definitions.specs.Language.{SameLanguage};
ghost use Rattle.tree_definitions.specs.Relation.{Has};
ghost use Rattle.tree_definitions.specs.Trim.{IsReachable, IsUseful};
ghost use Rattle.ta_model.specs.Listing.{IsListed};
ghost use Rattle.trim_ops.specs.Trimmed.{IsCanonicalTrim};

use crate::index::{rules_by_child, rules_by_parent};
use crate::reach::derived;
use crate::spread::useful_of;
use bit_rows::Row;
use std::alloc::{AllocError, Global};
use ta_model::{Listed, Table};

/// The states that some tree reaches.
fn reachable_of(alloc: Global, a: &Listed) -> Result<Row, AllocError>
    ensures size { IfOk result (λ row. length row ≡ length a.now.states) }
    ensures exact { IfOk result (λ row. (q : ℕ) → Has row q ↔ IsReachable a.now q) }
{
    let rules = a.rules();
    let by_child = rules_by_child(alloc, rules, a.states().len())?;
    derived(alloc, rules, &by_child)
}

/// The useful states.
fn useful_states(alloc: Global, a: &Listed) -> Result<Row, AllocError>
    ensures size { IfOk result (λ row. length row ≡ length a.now.states) }
    ensures exact { IfOk result (λ row. (q : ℕ) → Has row q ↔ IsUseful a.now q) }
{
    let reached = reachable_of(alloc, a)?;
    let rules = a.rules();
    let by_parent = rules_by_parent(alloc, rules, a.states().len())?;
    useful_of(alloc, rules, &by_parent, a.finals(), &reached)
}

/// The states that some tree reaches, in a row with a place for each state.
pub fn reachable<T: Table>(alloc: Global, t: &T) -> Result<Row, AllocError>
    ensures size { IfOk result (λ row. length row ≡ length (T.automaton t.now).states) }
    ensures exact { IfOk result (λ row. (q : ℕ) → Has row q ↔ IsReachable (T.automaton t.now) q) }
{
    let a = t.listed()?;
    reachable_of(alloc, &a)
}

/// The states that stand on a path of reached states to a final one, in a row with a place for each
/// state.
pub fn useful<T: Table>(alloc: Global, t: &T) -> Result<Row, AllocError>
    ensures size { IfOk result (λ row. length row ≡ length (T.automaton t.now).states) }
    ensures exact { IfOk result (λ row. (q : ℕ) → Has row q ↔ IsUseful (T.automaton t.now) q) }
{
    let a = t.listed()?;
    useful_states(alloc, &a)
}

/// The automaton without its useless states, in canonical form: the useful states in their order,
/// the final states among them and the rules between them.
pub fn trim<T: Table>(alloc: Global, t: &T) -> Result<Listed, AllocError>
    ensures automaton { IfOk result (λ a. IsCanonicalTrim (T.automaton t.now) a) }
    ensures language { IfOk result (λ a. SameLanguage (T.automaton t.now) a) }
    ensures listed { IfOk result IsListed }
{
    let keep = useful(alloc, t)?;
    t.restricted(&keep)?.listed()
}
