//! Numbers of entries by their states.

ghost use Rattle.std.specs.Prelude.{◌≡◌, ◌≢◌, ◌<◌, ◌↔◌, ℕ, List, false, [], ◌∷◌, ◌++◌, Contains, IfOk, OnErr, OnOk, length, replicate, slice_get, slice_index_or, slice_set};
ghost use Rattle.tree_definitions.specs.Relation.{Has, IsAt};
ghost use Rattle.antichain_up.specs.ByState.{Keeps};

use std::alloc::{AllocError, Global};
use std::marker::Model;

/// For each state a list of numbers of entries.
#[derive(Drop)]
pub(crate) struct ByState {
    lists: Vec<Vec<u32>>,
}

impl Model for ByState {
    ghost use Rattle.std.specs.Prelude.{ℕ, List, map};

    ghost Value = { List (List ℕ) };

    ghost view = { λ b. map (λ v. v.items) b.lists.items };
}

/// Whether the flag at this place is set.
fn is_set(kept: &[bool], k: u32) -> bool
    ensures { result ≡ slice_index_or kept.now k false }
{
    let k = k as usize;
    k < kept.len() && kept[k]
}

/// Takes out the numbers whose flag is not set.
fn keep(numbers: &mut Vec<u32>, kept: &[bool])
    ensures { (k : ℕ) → Contains numbers.new.items k ↔ (Contains numbers.old.items k × Has kept.now k) }
{
    numbers.retain(|k| is_set(kept, *k));
}

impl ByState {
    /// An empty list for each state.
    pub(crate) fn new(alloc: Global, states: usize) -> Result<ByState, AllocError>
        ensures { IfOk result (λ b. b ≡ replicate states []) }
    {
        let mut lists = Vec::with_capacity(alloc, states)?;
        for _ in 0..states {
            lists.push(Vec::new(alloc))?;
        }
        Ok(ByState { lists })
    }

    /// The numbers of this state.
    pub(crate) fn at(&self, q: usize) -> &[u32]
        requires { q < length self.now }
        ensures { IsAt self.now q result.now }
    {
        &self.lists[q]
    }

    /// Adds a number to the list of this state.
    pub(crate) fn add(&mut self, q: usize, k: u32) -> Result<(), AllocError>
        requires { q < length self.old }
        ensures ok { OnOk result (self.new ≡ slice_set self.old q (slice_index_or self.old q [] ++ k ∷ [])) }
        ensures err { OnErr result (self.new ≡ self.old) }
    {
        let list = &mut self.lists[q];
        list.push(k)?;
        Ok(())
    }

    /// Takes out of the list of this state the numbers whose flag is not set.
    pub(crate) fn keep(&mut self, q: usize, kept: &[bool])
        requires { q < length self.old }
        ensures { Keeps kept.now q self.old self.new }
    {
        let list = &mut self.lists[q];
        keep(list, kept);
    }
}
