//! Whether a relation is a downward simulation of two automata together.

ghost use Rattle.std.specs.Prelude.{◌≡◌, ◌+◌, ◌↔◌, IsTrue, IfOk, length};
ghost use Rattle.tree_definitions.specs.Joint.{JointRule};
ghost use Rattle.tree_definitions.specs.Relation.{Holds};
ghost use Rattle.tree_definitions.specs.Simulation.{IsDown};

use crate::between::is_down_between;
use bit_matrix::Matrix;
use std::alloc::{AllocError, Global};
use ta_model::Listed;

/// Whether the relation, on A's states and then B's, is a downward simulation of the two together.
pub fn is_down_simulation(
    alloc: Global,
    a: &Listed,
    b: &Listed,
    both: &Matrix,
) -> Result<bool, AllocError>
    requires { length both.now ≡ length a.now.states + length b.now.states }
    ensures { IfOk result (λ yes. IsTrue yes ↔ IsDown (JointRule a.now b.now) (Holds both.now)) }
{
    // The number of places tells the proof that nothing is related past it.
    let _places = both.size();
    let m = a.states().len();
    if !is_down_between(alloc, a, a, 0, 0, both)? {
        return Ok(false);
    }
    if !is_down_between(alloc, a, b, 0, m, both)? {
        return Ok(false);
    }
    if !is_down_between(alloc, b, a, m, 0, both)? {
        return Ok(false);
    }
    is_down_between(alloc, b, b, m, m, both)
}
