//! The union of two automata, however they are kept.

ghost use Rattle.std.specs.Prelude.{◌↔◌, ◌⊎◌, IfOk};
ghost use Rattle.tree_definitions.specs.Language.{Accepts};
ghost use Rattle.tree_definitions.specs.Tree.{Tree};
ghost use Rattle.ta_model.specs.Listing.{IsListed};
ghost use Rattle.bool_ops.specs.Results.{IsCanonicalUnion};

use std::alloc::{AllocError, Global};
use ta_model::{Joint, Listed, Table};

/// The union of both automata in canonical form, named `union`: the states of the left with `_1` at
/// their names, then those of the right with `_2`, with the final states and the rules of both.
pub fn union<J: Joint>(_alloc: Global, j: &J) -> Result<Listed, AllocError>
    ensures automaton { IfOk result (λ u. IsCanonicalUnion (J.left j.now) (J.right j.now) u) }
    ensures language { IfOk result (λ u. (t : Tree) → Accepts u t ↔ (Accepts (J.left j.now) t ⊎ Accepts (J.right j.now) t)) }
    ensures listed { IfOk result IsListed }
{
    let _symbols = j.symbols();
    j.joined()?.listed()
}
