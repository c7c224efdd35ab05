//! The relations over which the states of automata are compared.

ghost use Rattle.std.specs.Prelude.{◌≤◌, ◌<◌, ℕ, true, false, IfOk, IsErrOf, length};
ghost use Rattle.tree_definitions.specs.Automaton.{IsState};
ghost use Rattle.tree_definitions.specs.Canonical.{canon};
ghost use Rattle.tree_definitions.specs.Relation.{Holds};
ghost use Rattle.tree_definitions.specs.Simulation.{IsUp};
ghost use Rattle.antichain_up.specs.Orders.{IsUpOrder};
ghost use Rattle.simulations.specs.Relations.{IsGreatestUp};
ghost use Rattle.upward_inclusion.specs.Inclusion.{IsSearched};

use bit_matrix::{Matrix, MatrixError};
use explicit_ta::Explicit;
use simulations::{SimError, up};
use std::alloc::{AllocError, Global};
use ta_model::Listed;

/// The greatest upward simulation of an automaton in its encoding.
fn up_of(alloc: Global, table: Explicit) -> Result<Matrix, SimError>
    ensures greatest { IfOk result (IsGreatestUp table) }
    ensures simulation { IfOk result (λ m. IsUp table (Holds m)) }
    ensures reflexive { IfOk result (λ m. (q : ℕ) → IsState table q → Holds m q q) }
    ensures transitive { IfOk result (λ m. (q r s : ℕ) → Holds m q r → Holds m r s → Holds m q s) }
    ensures large { IsErrOf result SimError.TooLarge → 20000 < length table.states }
{
    up(alloc, &table)
}

/// The greatest upward simulation.
fn greatest_of(alloc: Global, a: &Listed) -> Result<Matrix, AllocError>
    requires { length a.now.states ≤ 20000 }
    ensures searched { IfOk result (IsSearched true a.now) }
    ensures order { IfOk result (IsUpOrder (canon a.now)) }
{
    let Ok(table) = Explicit::from_listed(a) else {
        return Err(AllocError);
    };
    match up_of(alloc, table) {
        Ok(relation) => Ok(relation),
        Err(SimError::TooLarge) => unreachable!(),
        Err(SimError::Memory) => Err(AllocError),
    }
}

/// The identity.
fn identity_of(alloc: Global, a: &Listed) -> Result<Matrix, AllocError>
    requires { length a.now.states ≤ 20000 }
    ensures searched { IfOk result (IsSearched false a.now) }
    ensures order { IfOk result (IsUpOrder (canon a.now)) }
{
    match Matrix::identity(alloc, a.states().len()) {
        Ok(relation) => Ok(relation),
        Err(MatrixError::TooLarge) => unreachable!(),
        Err(MatrixError::Memory) => Err(AllocError),
    }
}

/// The greatest upward simulation with `sim`, and else the identity.
fn relation_of(alloc: Global, a: &Listed, sim: bool) -> Result<Matrix, AllocError>
    requires { length a.now.states ≤ 20000 }
    ensures searched { IfOk result (IsSearched sim a.now) }
    ensures order { IfOk result (IsUpOrder (canon a.now)) }
{
    if sim {
        return greatest_of(alloc, a);
    }
    identity_of(alloc, a)
}

/// Those of two automata.
pub(crate) fn relations_of(
    alloc: Global,
    a: &Listed,
    b: &Listed,
    sim: bool,
) -> Result<(Matrix, Matrix), AllocError>
    requires left { length a.now.states ≤ 20000 }
    requires right { length b.now.states ≤ 20000 }
    ensures left { IfOk result (λ both. IsSearched sim a.now both.0) }
    ensures right { IfOk result (λ both. IsSearched sim b.now both.1) }
    ensures left_order { IfOk result (λ both. IsUpOrder (canon a.now) both.0) }
    ensures right_order { IfOk result (λ both. IsUpOrder (canon b.now) both.1) }
{
    let left = relation_of(alloc, a, sim)?;
    let right = relation_of(alloc, b, sim)?;
    Ok((left, right))
}
