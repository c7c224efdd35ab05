//! From two lists to an answer.

ghost use Rattle.std.specs.Prelude.{◌≡◌, ◌≤◌, ◌<◌, ◌⊎◌, ◌*◌, ◌^◌, IfOk, IsErrOf, length};
ghost use Rattle.tree_definitions.specs.Joint.{joint_symbols};
ghost use Rattle.ta_model.specs.Pairing.{FitTogether};
ghost use Rattle.antichain_up.specs.Orders.{IsUpOrder};
ghost use Rattle.certificate_kinds.specs.Answers.{IsDecided, IsUpAnswer};
ghost use Rattle.upward_inclusion.specs.Inclusion.{IsInclusionAnswer};

use crate::limits::judge_limits;
use crate::relation::relations_of;
use antichain_up::includes;
use bit_matrix::Matrix;
use certificate_kinds::Certificate;
use explicit_ta::ExplicitPair;
use std::alloc::{AllocError, Global};
use ta_model::{Listed, PairError};

/// Why there is no answer.
#[derive(Clone, Copy, Debug, PartialEq, Eq)]
pub enum InclusionError {
    /// Together the two have more than 65,535 symbols.
    Symbols,
    /// That isn't so, and one of them has more than 20,000 states.
    Relation,
    Memory,
}

/// The answer of a search over these relations.
fn searched(
    alloc: Global,
    pair: ExplicitPair,
    left: &Matrix,
    right: &Matrix,
    budget: u64,
) -> Result<Certificate, AllocError>
    requires left { IsUpOrder pair.left left.now }
    requires right { IsUpOrder pair.right right.now }
    requires some { 1 ≤ budget }
    requires few { budget ≤ 1000000 }
    ensures answer { IfOk result (IsUpAnswer pair.left pair.right left.now right.now budget) }
    ensures decided { length pair.left.states * 2 ^ length pair.right.states ≤ budget → IfOk result IsDecided }
{
    let mut pair = pair;
    includes(alloc, &mut pair, left, right, budget)
}

/// The answer of a search over the relations of these two, which are within the limits.
fn answered(
    alloc: Global,
    a: &Listed,
    b: &Listed,
    sim: bool,
    budget: u64,
) -> Result<Certificate, AllocError>
    requires together { FitTogether a.now b.now }
    requires few_symbols { length (joint_symbols a.now.symbols b.now.symbols) ≤ 65535 }
    requires left { length a.now.states ≤ 20000 }
    requires right { length b.now.states ≤ 20000 }
    requires some { 1 ≤ budget }
    requires few { budget ≤ 1000000 }
    ensures answer { IfOk result (IsInclusionAnswer sim budget a.now b.now) }
    ensures decided { length a.now.states * 2 ^ length b.now.states ≤ budget → IfOk result IsDecided }
{
    let (left, right) = relations_of(alloc, a, b, sim)?;
    let pair = match ExplicitPair::from_listed(a, b) {
        Ok(pair) => pair,
        Err(PairError::Symbols) => unreachable!(),
        Err(PairError::Memory) => return Err(AllocError),
    };
    searched(alloc, pair, &left, &right, budget)
}

/// Whether each tree that `a` accepts is accepted by `b`, by an upward search that stops once it has
/// made more than `budget` pairs, those that were taken out again among them. It goes over the
/// greatest upward simulations of the two with `sim`, and else over the identities.
pub fn includes_upward(
    alloc: Global,
    a: &Listed,
    b: &Listed,
    sim: bool,
    budget: u64,
) -> Result<Certificate, InclusionError>
    requires together { FitTogether a.now b.now }
    requires some { 1 ≤ budget }
    requires few { budget ≤ 1000000 }
    ensures answer { IfOk result (IsInclusionAnswer sim budget a.now b.now) }
    ensures decided { length a.now.states * 2 ^ length b.now.states ≤ budget → IfOk result IsDecided }
    ensures few_symbols { IfOk result (λ _. length (joint_symbols a.now.symbols b.now.symbols) ≤ 65535) }
    ensures few_states { IfOk result (λ _. (length a.now.states ≤ 20000) × (length b.now.states ≤ 20000)) }
    ensures symbols { IsErrOf result InclusionError.Symbols → 65535 < length (joint_symbols a.now.symbols b.now.symbols) }
    ensures relation { IsErrOf result InclusionError.Relation
        → (length (joint_symbols a.now.symbols b.now.symbols) ≤ 65535)
        × ((20000 < length a.now.states) ⊎ (20000 < length b.now.states)) }
{
    if let Err(error) = judge_limits(alloc, a, b) {
        return Err(error);
    }
    match answered(alloc, a, b, sim, budget) {
        Ok(certificate) => Ok(certificate),
        Err(_) => Err(InclusionError::Memory),
    }
}
