//! An automaton in an encoding.

ghost use Rattle.std.specs.Prelude.{◌≡◌, ℕ, ◌↔◌, IsTrue, IfOk, length, All};
ghost use Rattle.tree_definitions.specs.Automaton.{Automaton, HasRule, IsFinal, IsState};
ghost use Rattle.tree_definitions.specs.Canonical.{canon};
ghost use Rattle.ta_model.specs.Listing.{IsListed};
ghost use Rattle.ta_model.specs.Tuples.{kids_of};
ghost use Rattle.ta_model.specs.Classes.{AreAll, LeadTo, StandWith, AreClasses, AreUpClasses};
ghost use Rattle.ta_model.specs.Restriction.{IsRestriction};

use crate::listed::Listed;
use crate::rule::Kids;
use crate::tuples::Tuples;
use bit_rows::Row;
use std::alloc::AllocError;

/// Child tuples of two states under one symbol, which is given by its place, or by its code as a
/// number.
#[derive(Debug, Drop)]
pub struct Class {
    pub symbol: u32,
    pub first: Tuples,
    pub second: Tuples,
}

/// Parents of two rows of children under one symbol, which is given by its place, or by its code as a
/// number. A row has a place for each state.
#[derive(Debug, Drop)]
pub struct UpClass {
    pub symbol: u32,
    pub first: Row,
    pub second: Row,
}

/// An automaton, however it is kept. A state is given by its place.
pub trait Table: Sized + Drop {
    /// The automaton that the table stands for.
    ghost automaton: { Self → Automaton };

    /// How many diagram nodes it has now.
    ghost nodes: { Self → ℕ };

    /// How many diagram nodes it has, 0 where it keeps no diagrams.
    fn nodes(&self) -> usize
        ensures { result ≡ nodes self.now };

    /// How many digits a code has, 0 where the symbols are names.
    fn bits(&self) -> u8
        ensures { result ≡ (automaton self.now).bits };

    /// How many states there are.
    fn states(&self) -> u32
        ensures value { result ≡ length (automaton self.now).states }
        ensures listed { IsListed (automaton self.now) };

    /// Whether the state is final.
    fn is_final(&self, q: u32) -> bool
        requires { IsState (automaton self.now) q }
        ensures { IsTrue result ↔ IsFinal (automaton self.now) q };

    /// The distinct child tuples of the rules with parent q.
    fn kid_tuples(&self, q: u32) -> Result<Vec<Kids>, AllocError>
        requires { IsState (automaton self.now) q }
        ensures { IfOk result (λ v.
            AreAll (LeadTo (HasRule (automaton self.now)) q) (kids_of v.items)) };

    /// The distinct child tuples of the rules in which q stands as a child.
    fn tuples_with(&self, q: u32) -> Result<Vec<Kids>, AllocError>
        requires { IsState (automaton self.now) q }
        ensures { IfOk result (λ v.
            AreAll (StandWith (HasRule (automaton self.now)) q) (kids_of v.items)) };

    /// The classes of q and r: for each symbol under which q has a rule one with all child tuples
    /// of q and all of r under it.
    fn classes(&self, q: u32, r: u32) -> Result<Vec<Class>, AllocError>
        requires first { IsState (automaton self.now) q }
        requires second { IsState (automaton self.now) r }
        ensures { IfOk result (λ v.
            AreClasses (automaton self.now).bits (automaton self.now).symbols (HasRule (automaton self.now)) q r v.items) };

    /// The classes of two rows of children: for each symbol under which some rule has the first
    /// children one with all parents of the first and all of the second under it.
    fn up_classes(&self, first: &[u32], second: &[u32]) -> Result<Vec<UpClass>, AllocError>
        requires lengths { length first.now ≡ length second.now }
        requires first { All (IsState (automaton self.now)) first.now }
        requires second { All (IsState (automaton self.now)) second.now }
        ensures { IfOk result (λ v.
            AreUpClasses (automaton self.now) first.now second.now v.items) };

    /// The automaton with the kept states alone, in their order, with the kept final states and
    /// the rules between kept states.
    fn restricted(&self, keep: &Row) -> Result<Self, AllocError>
        requires { length keep.now ≡ length (automaton self.now).states }
        ensures { IfOk result (λ part.
            IsRestriction (automaton self.now) keep.now (automaton part)) };

    /// The automaton's canonical form.
    fn listed(&self) -> Result<Listed, AllocError>
        ensures value { IfOk result (λ a. a ≡ canon (automaton self.now)) }
        ensures listed { IfOk result IsListed };
}
