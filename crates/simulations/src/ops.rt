//! The greatest simulations of an automaton, however it is kept.

ghost use Rattle.std.specs.Prelude.{◌≡◌, ◌<◌, ◌≤◌, ℕ, IfOk, IsErrOf, length};
ghost use Rattle.tree_definitions.specs.Automaton.{HasRule, IsState};
ghost use Rattle.tree_definitions.specs.Relation.{Holds};
ghost use Rattle.tree_definitions.specs.Simulation.{IsDown, IsUp};
ghost use Rattle.tree_definitions.specs.Quotient.{IsGreatestDown};
ghost use Rattle.simulations.specs.Relations.{IsGreatestUp};

use crate::downward::greatest_down;
use crate::upward::greatest_up;
use bit_matrix::Matrix;
use std::alloc::{AllocError, Global};
use ta_model::{Listed, Table};
use trim_ops::{rules_by_child, rules_by_parent};

/// How many states a simulation is made for at most.
const MAX_STATES: u32 = 20_000;

/// Why no simulation was made.
#[derive(Clone, Copy, Debug, PartialEq, Eq)]
pub enum SimError {
    /// There are more than 20,000 states.
    TooLarge,
    Memory,
}

impl From<AllocError> for SimError {
    ghost use Rattle.simulations.specs.declared.ops.SimError.TheVariants.{Memory};

    ghost from_gives = { λ _ e. e ≡ Memory };

    fn from(_: AllocError) -> SimError {
        SimError::Memory
    }
}

/// The greatest downward simulation.
fn down_of(alloc: Global, a: &Listed) -> Result<Matrix, AllocError>
    requires { length a.now.states ≤ 20000 }
    ensures { IfOk result (λ m. IsGreatestDown a.now m) }
{
    let rules = a.rules();
    let states = a.states().len();
    let by_child = rules_by_child(alloc, rules, states)?;
    let by_parent = rules_by_parent(alloc, rules, states)?;
    let symbols = a.symbols().len();
    let sim = greatest_down(alloc, rules, &by_child, &by_parent, symbols)?;
    Ok(sim)
}

/// The greatest upward simulation.
fn up_of(alloc: Global, a: &Listed) -> Result<Matrix, AllocError>
    requires { length a.now.states ≤ 20000 }
    ensures { IfOk result (λ m. IsGreatestUp a.now m) }
{
    let rules = a.rules();
    let states = a.states().len();
    let by_child = rules_by_child(alloc, rules, states)?;
    let by_parent = rules_by_parent(alloc, rules, states)?;
    let sim = greatest_up(alloc, rules, a.finals(), &by_child, &by_parent)?;
    Ok(sim)
}

/// The greatest downward simulation between the states: q is below r where for each rule to q one to
/// r with the same symbol has, place by place, children above.
pub fn down<T: Table>(alloc: Global, t: &T) -> Result<Matrix, SimError>
    ensures greatest { IfOk result (λ m. IsGreatestDown (T.automaton t.now) m) }
    ensures simulation { IfOk result (λ m. IsDown (HasRule (T.automaton t.now)) (Holds m)) }
    ensures reflexive { IfOk result (λ m. (q : ℕ) → IsState (T.automaton t.now) q → Holds m q q) }
    ensures transitive { IfOk result (λ m. (q r s : ℕ) → Holds m q r → Holds m r s → Holds m q s) }
    ensures few { IfOk result (λ _. length (T.automaton t.now).states ≤ 20000) }
    ensures large { IsErrOf result SimError.TooLarge → 20000 < length (T.automaton t.now).states }
    ensures refused { 20000 < length (T.automaton t.now).states → IsErrOf result SimError.TooLarge }
{
    if t.states() > MAX_STATES {
        return Err(SimError::TooLarge);
    }
    let a = t.listed()?;
    let sim = down_of(alloc, &a)?;
    Ok(sim)
}

/// The greatest upward simulation between the states: q is below r where r is final if q is, and
/// each rule with q at some place leads, with r there and the other children kept, to a state above
/// its parent.
pub fn up<T: Table>(alloc: Global, t: &T) -> Result<Matrix, SimError>
    ensures greatest { IfOk result (λ m. IsGreatestUp (T.automaton t.now) m) }
    ensures simulation { IfOk result (λ m. IsUp (T.automaton t.now) (Holds m)) }
    ensures reflexive { IfOk result (λ m. (q : ℕ) → IsState (T.automaton t.now) q → Holds m q q) }
    ensures transitive { IfOk result (λ m. (q r s : ℕ) → Holds m q r → Holds m r s → Holds m q s) }
    ensures few { IfOk result (λ _. length (T.automaton t.now).states ≤ 20000) }
    ensures large { IsErrOf result SimError.TooLarge → 20000 < length (T.automaton t.now).states }
    ensures refused { 20000 < length (T.automaton t.now).states → IsErrOf result SimError.TooLarge }
{
    if t.states() > MAX_STATES {
        return Err(SimError::TooLarge);
    }
    let a = t.listed()?;
    let sim = up_of(alloc, &a)?;
    Ok(sim)
}
