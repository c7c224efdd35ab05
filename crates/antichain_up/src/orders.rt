//! The two relations of a search, and which sets are below which.

ghost use Rattle.std.specs.Prelude.{◌≡◌, ◌<◌, ◌↔◌, IfOk, IfSome, IsNone, IsTrue, length};
ghost use Rattle.tree_definitions.specs.Relation.{Below, Has, Holds};
ghost use Rattle.ta_model.specs.Macrostates.{row_at};
ghost use Rattle.upward_search.specs.Search.{IsOrder};
ghost use Rattle.antichain_up.specs.Orders.{IsEmptyFrom, IsLeastFrom, IsTurnOf};

use bit_matrix::Matrix;
use std::alloc::AllocError;
use std::marker::Model;
use ta_model::MacroStore;

/// A relation of the left automaton and one of the right, each reflexive and transitive. Whether
/// they are the identities is asked once, and the left one is turned where it isn't.
#[derive(Drop)]
pub(crate) struct Orders<'a> {
    pub(crate) left: &'a Matrix,
    pub(crate) right: &'a Matrix,
    left_turned: Option<Matrix>,
    is_right_identity: bool,
}

impl<'a> Model for Orders<'a> {
    ghost use Rattle.std.specs.Prelude.{IsTrue, length};
    ghost use Rattle.bit_matrix.specs.Matrices.{IsIdentity};
    ghost use Rattle.antichain_up.specs.Orders.{TwoOrders, IsTurnOf};

    ghost Value = { TwoOrders };

    ghost view = { λ o. record { left = o.left.now; right = o.right.now } };

    ghost invariant = { λ o. IsTurnOf o.left.now o.left_turned × (IsTrue o.is_right_identity → IsIdentity (length o.right.now) o.right.now) };
}

/// The relation with its two places exchanged, unless it is the identity.
fn turn_of(relation: &Matrix) -> Result<Option<Matrix>, AllocError>
    ensures { IfOk result (IsTurnOf relation.now) }
{
    if relation.is_identity() {
        return Ok(None);
    }
    let turned = relation.transpose()?;
    Ok(Some(turned))
}

/// The state itself, if it is `from` or later.
fn itself_from(state: usize, from: usize) -> Option<usize>
    ensures none { IsNone result ↔ IsEmptyFrom (λ r. r ≡ state) from }
    ensures least { IfSome result (λ r. IsLeastFrom (λ s. s ≡ state) from r) }
{
    if from <= state { Some(state) } else { None }
}

impl<'a> Orders<'a> {
    /// Those of these relations.
    pub(crate) fn of(left: &'a Matrix, right: &'a Matrix) -> Result<Orders<'a>, AllocError>
        ensures left { IfOk result (λ o. o.left ≡ left.now) }
        ensures right { IfOk result (λ o. o.right ≡ right.now) }
    {
        let left_turned = turn_of(left)?;
        Ok(Orders {
            left,
            right,
            left_turned,
            is_right_identity: right.is_identity(),
        })
    }

    /// The least left state that is `from` or later and that this one is below.
    pub(crate) fn next_above(&self, state: usize, from: usize) -> Option<usize>
        requires { state < length self.now.left }
        ensures none { IsNone result ↔ IsEmptyFrom (λ r. Holds self.now.left state r) from }
        ensures least { IfSome result (λ r. IsLeastFrom (λ s. Holds self.now.left state s) from r) }
        ensures within { IfSome result (λ r. r < length self.now.left) }
        ensures few { IfSome result (λ r. r < 20000) }
    {
        // The size tells the proof that a state is a small number.
        let _states = self.left.size();
        if self.left_turned.is_none() {
            return itself_from(state, from);
        }
        self.left.row(state).first_from(from)
    }

    /// The least left state that is `from` or later and below this one.
    pub(crate) fn next_below(&self, state: usize, from: usize) -> Option<usize>
        requires { state < length self.now.left }
        ensures none { IsNone result ↔ IsEmptyFrom (λ r. Holds self.now.left r state) from }
        ensures least { IfSome result (λ r. IsLeastFrom (λ s. Holds self.now.left s state) from r) }
        ensures within { IfSome result (λ r. r < length self.now.left) }
        ensures few { IfSome result (λ r. r < 20000) }
    {
        // The size tells the proof that a state is a small number.
        let _states = self.left.size();
        let Some(turned) = &self.left_turned else {
            return itself_from(state, from);
        };
        turned.row(state).first_from(from)
    }

    /// Whether each member of the first set is below some member of the second.
    pub(crate) fn is_set_below(&self, store: &MacroStore, set: usize, other_set: usize) -> bool
        requires set { set < length store.now.rows }
        requires other_set { other_set < length store.now.rows }
        requires wide { store.now.states ≡ length self.now.right }
        requires order { IsOrder store.now.states (Holds self.now.right) }
        ensures { IsTrue result ↔ Below (Holds self.now.right) (Has (row_at store.now set)) (Has (row_at store.now other_set)) }
    {
        let row = store.row(set);
        if set == other_set {
            return true;
        }
        let other = store.row(other_set);
        if self.is_right_identity {
            return row.subset_of(other);
        }
        self.right.lifted_below(row, other)
    }
}
