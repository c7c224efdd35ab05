//! Whether a relation is an upward simulation.

ghost use Rattle.std.specs.Prelude.{◌≡◌, ◌<◌, ◌↔◌, ℕ, List, IsTrue, IfOk, All, Contains, length, slice_set};
ghost use Rattle.tree_definitions.specs.Relation.{Has, Holds, IsAt};
ghost use Rattle.tree_definitions.specs.Simulation.{IsUp};
ghost use Rattle.trim_ops.specs.Marking.{AreWithin, IsByChild, IsWithin};
ghost use Rattle.child_exchange.specs.Exchanging.{IsExchanged, IsUpBy};
ghost use Rattle.up_conditions.specs.Exchanging.{IsExchangedAll, IsExchangedAt};

use crate::finals::row_of;
use bit_matrix::Matrix;
use bit_rows::Row;
use child_exchange::exchanged;
use std::alloc::{AllocError, Global};
use ta_model::{Listed, Rule};
use trim_ops::{RuleIndex, rules_by_child};

/// Whether the rule can take each state above its child at place p.
fn exchanged_at(rules: &[Rule], by_child: &RuleIndex, rule: &Rule, p: usize, sim: &Matrix) -> bool
    requires within { AreWithin (length sim.now) rules.now }
    requires by_child { IsByChild rules.now by_child.now }
    requires size { length by_child.now ≡ length sim.now }
    requires rule { IsWithin (length sim.now) rule.now }
    requires place { p < length rule.now.kids }
    ensures { IsTrue result ↔ IsExchangedAt rules.now (Holds sim.now) rule.now p }
{
    // The number of states tells the proof that a place fits.
    let _states = sim.size();
    let q = rule.kids.as_slice()[p] as usize;
    let mut from = 0;
    while let Some(r) = sim.row(q).first_from(from) {
        if !exchanged(rules, by_child.at(r), rule, p, r as u32, sim) {
            return false;
        }
        from = r + 1;
    }
    true
}

/// Whether the rule can take each state above a child.
fn exchanged_all(rules: &[Rule], by_child: &RuleIndex, rule: &Rule, sim: &Matrix) -> bool
    requires within { AreWithin (length sim.now) rules.now }
    requires by_child { IsByChild rules.now by_child.now }
    requires size { length by_child.now ≡ length sim.now }
    requires rule { IsWithin (length sim.now) rule.now }
    ensures { IsTrue result ↔ IsExchangedAll rules.now (Holds sim.now) rule.now }
{
    for p in 0..rule.kids.len() {
        if !exchanged_at(rules, by_child, rule, p, sim) {
            return false;
        }
    }
    true
}

/// Whether each rule can take each state above a child.
fn is_up_by(rules: &[Rule], by_child: &RuleIndex, sim: &Matrix) -> bool
    requires within { AreWithin (length sim.now) rules.now }
    requires by_child { IsByChild rules.now by_child.now }
    requires size { length by_child.now ≡ length sim.now }
    ensures { IsTrue result ↔ IsUpBy rules.now (Holds sim.now) }
{
    for i in 0..rules.len() {
        if !exchanged_all(rules, by_child, &rules[i], sim) {
            return false;
        }
    }
    true
}

/// Whether each state above one of these is in the row.
fn stays_in(finals: &[u32], is_final: &Row, sim: &Matrix) -> bool
    requires within { All (λ q. q < length sim.now) finals.now }
    requires long { length is_final.now ≡ length sim.now }
    ensures { IsTrue result ↔ ((q r : ℕ) → Holds sim.now q r → Contains finals.now q → Has is_final.now r) }
{
    for q in finals {
        if !sim.row(*q as usize).subset_of(is_final) {
            return false;
        }
    }
    true
}

/// Whether the relation is an upward simulation of the automaton.
pub fn is_up_simulation(alloc: Global, a: &Listed, sim: &Matrix) -> Result<bool, AllocError>
    requires { length sim.now ≡ length a.now.states }
    ensures { IfOk result (λ yes. IsTrue yes ↔ IsUp a.now (Holds sim.now)) }
{
    let states = a.states().len();
    let is_final = row_of(alloc, a.finals(), states)?;
    if !stays_in(a.finals(), &is_final, sim) {
        return Ok(false);
    }
    let by_child = rules_by_child(alloc, a.rules(), states)?;
    Ok(is_up_by(a.rules(), &by_child, sim))
}
