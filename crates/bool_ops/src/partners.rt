//! For each left state the right states with which it is reached.

ghost use Rattle.std.specs.Prelude.{◌≡◌, ◌<◌, ℕ, [], Contains, IfOk, length, slice_index_or};

use std::alloc::{AllocError, Global};
use std::marker::Model;

/// Lists of right states, for the left states from 0 on. It is seen as the list of these lists.
#[derive(Drop)]
pub(crate) struct Partners {
    lists: Vec<Vec<u32>>,
}

impl Model for Partners {
    ghost use Rattle.std.specs.Prelude.{ℕ, List, map};

    ghost Value = { List (List ℕ) };

    ghost view = { λ p. map (λ v. v.items) p.lists.items };
}

impl Partners {
    /// No partners.
    pub fn new(alloc: Global) -> Partners
        ensures { result ≡ [] }
    {
        Partners {
            lists: Vec::new(alloc),
        }
    }

    /// The partners of the left state.
    pub fn of(&self, left: u32) -> &[u32]
        ensures { result.now ≡ slice_index_or self.now left [] }
    {
        if (left as usize) < self.lists.len() {
            &self.lists[left as usize]
        } else {
            &[]
        }
    }

    /// Makes room for this left state.
    fn widen(&mut self, left: u32) -> Result<(), AllocError>
        ensures kept { (p q : ℕ) → Contains (slice_index_or self.old p []) q → Contains (slice_index_or self.new p []) q }
        ensures wide { IfOk result (λ _. left < length self.new) }
    {
        let alloc = *self.lists.allocator();
        while self.lists.len() <= left as usize {
            self.lists.push(Vec::new(alloc))?;
        }
        Ok(())
    }

    /// Adds a partner of the left state.
    pub fn add(&mut self, left: u32, right: u32) -> Result<(), AllocError>
        ensures kept { (p q : ℕ) → Contains (slice_index_or self.old p []) q → Contains (slice_index_or self.new p []) q }
        ensures here { IfOk result (λ _. Contains (slice_index_or self.new left []) right) }
    {
        self.widen(left)?;
        let list = &mut self.lists[left as usize];
        list.push(right)?;
        Ok(())
    }
}
