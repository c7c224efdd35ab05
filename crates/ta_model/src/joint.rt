//! Two automata in an encoding.

ghost use Rattle.std.specs.Prelude.{◌≡◌, ◌<◌, ℕ, ◌↔◌, All, IsTrue, IfOk, length, map};
ghost use Rattle.tree_definitions.specs.Automaton.{Automaton, IsFinal, IsState};
ghost use Rattle.tree_definitions.specs.Canonical.{canon};
ghost use Rattle.tree_definitions.specs.Joint.{JointRule, joint_symbols};
ghost use Rattle.tree_definitions.specs.Union.{IsUnion};
ghost use Rattle.ta_model.specs.Listing.{IsListed};
ghost use Rattle.ta_model.specs.Classes.{AreClasses};
ghost use Rattle.ta_model.specs.DownGroups.{AreDownGroups};
ghost use Rattle.ta_model.specs.Macrostates.{StoreGrows, row_at};
ghost use Rattle.ta_model.specs.Pairing.{ArePaired, IsJointState};
ghost use Rattle.ta_model.specs.Tuples.{kids_of};
ghost use Rattle.ta_model.specs.UpGroups.{AreUpGroups, HasKidsWith};

use crate::listed::Listed;
use crate::macrostates::MacroStore;
use crate::rule::Kids;
use crate::symbol::Symbol;
use crate::table::{Class, Table};
use crate::tuples::Tuples;
use std::alloc::AllocError;

/// Why two automata are not put together.
#[derive(Clone, Copy, Debug, PartialEq, Eq)]
pub enum PairError {
    /// Together they have more than 65,535 symbols.
    Symbols,
    Memory,
}

/// Under one symbol, which is given by its place or by its code as a number, the parents to which some children lead, and the
/// number of the set to which some sets lead.
#[derive(Debug, Drop)]
pub struct UpGroup {
    pub symbol: u32,
    pub parents: Vec<u32>,
    pub set: usize,
}

/// Under one symbol, which is given as in `UpGroup`, the child tuples of a state and those of a set of
/// states.
#[derive(Debug, Drop)]
pub struct DownGroup {
    pub symbol: u32,
    pub rules: Tuples,
    pub tuples: Tuples,
}

/// Two automata, the left and the right one, over one list of symbols: those of the left, then
/// those of the right that the left lacks. A joint place is a left place, or a right place plus the
/// number of left states.
pub trait Joint {
    /// What keeps one automaton in the same way.
    type One: Table;

    ghost left: { Self → Automaton };

    ghost right: { Self → Automaton };

    /// How many diagram nodes it has now.
    ghost nodes: { Self → ℕ };

    /// How many diagram nodes it has, 0 where it keeps no diagrams.
    fn nodes(&self) -> usize
        ensures { result ≡ nodes self.now };

    /// How many digits a code of each has, 0 where the symbols are names.
    fn bits(&self) -> u8
        ensures left { result ≡ (left self.now).bits }
        ensures right { result ≡ (right self.now).bits };

    /// How many states the left and the right automaton have.
    fn sizes(&self) -> (u32, u32)
        ensures left { result.0 ≡ length (left self.now).states }
        ensures right { result.1 ≡ length (right self.now).states }
        ensures paired { ArePaired (left self.now) (right self.now) };

    /// The symbols of both.
    fn symbols(&self) -> &[Symbol]
        ensures value { result.now ≡ joint_symbols (left self.now).symbols (right self.now).symbols }
        ensures paired { ArePaired (left self.now) (right self.now) };

    /// Whether the left state q is final.
    fn left_final(&self, q: u32) -> bool
        requires { IsState (left self.now) q }
        ensures { IsTrue result ↔ IsFinal (left self.now) q };

    /// Whether the right state s is final.
    fn right_final(&self, s: u32) -> bool
        requires { IsState (right self.now) s }
        ensures { IsTrue result ↔ IsFinal (right self.now) s };

    /// The classes of the joint places x and y: for each symbol under which x has a rule one with
    /// all child tuples of x and all of y under it, as joint places.
    fn classes(&self, x: u32, y: u32) -> Result<Vec<Class>, AllocError>
        requires first { IsJointState (left self.now) (right self.now) x }
        requires second { IsJointState (left self.now) (right self.now) y }
        ensures { IfOk result (λ v. AreClasses (left self.now).bits
            (joint_symbols (left self.now).symbols (right self.now).symbols)
            (JointRule (left self.now) (right self.now)) x y v.items) };

    /// The distinct child tuples of the left rules in which the left state q stands as a child.
    fn kids_with(&self, q: u32) -> Result<Vec<Kids>, AllocError>
        requires { IsState (left self.now) q }
        ensures { IfOk result (λ v. HasKidsWith (left self.now) q (kids_of v.items)) };

    /// The groups of left children and as many sets of right states: for each symbol under which
    /// some left rule has the children one with all its parents, and with the number of the set of
    /// the parents of the right rules under it whose children are in the sets. New sets are
    /// appended to the store.
    fn up_groups(
        &mut self,
        kids: &[u32],
        sets: &[usize],
        store: &mut MacroStore,
    ) -> Result<Vec<UpGroup>, AllocError>
        requires kids { All (IsState (left self.old)) kids.now }
        requires many { length sets.now ≡ length kids.now }
        requires states { store.old.states ≡ length (right self.old).states }
        requires sets { All (λ k. k < length store.old.rows) sets.now }
        ensures left { left self.new ≡ left self.old }
        ensures right { right self.new ≡ right self.old }
        ensures nodes { nodes self.new ≡ nodes self.old }
        ensures grows { StoreGrows store.old store.new }
        ensures groups { IfOk result (λ v. AreUpGroups (left self.old) (right self.old)
            kids.now (map (row_at store.old) sets.now) store.new v.items) };

    /// The groups of the left state q and a set of right states: for each symbol under which q has
    /// a left rule one with all child tuples of q and all of the set's members under it.
    fn down_groups(
        &mut self,
        q: u32,
        set: usize,
        store: &MacroStore,
    ) -> Result<Vec<DownGroup>, AllocError>
        requires state { IsState (left self.old) q }
        requires states { store.now.states ≡ length (right self.old).states }
        requires set { set < length store.now.rows }
        ensures left { left self.new ≡ left self.old }
        ensures right { right self.new ≡ right self.old }
        ensures nodes { nodes self.new ≡ nodes self.old }
        ensures groups { IfOk result (λ v. AreDownGroups (left self.old) (right self.old)
            q (row_at store.now set) v.items) };

    /// The union of the two.
    fn joined(&self) -> Result<Self::One, AllocError>
        ensures { IfOk result (λ one.
            IsUnion (left self.now) (right self.now) (Self.One.automaton one)) };

    /// The canonical forms of the left and the right automaton, each with its own symbols.
    fn listed(&self) -> Result<(Listed, Listed), AllocError>
        ensures left { IfOk result (λ both. both.0 ≡ canon (left self.now)) }
        ensures right { IfOk result (λ both. both.1 ≡ canon (right self.now)) }
        ensures listed { IfOk result (λ both. IsListed both.0 × IsListed both.1) };
}
