//! The child tuples of one parent under one symbol.

ghost use Rattle.std.specs.Prelude.{◌≡◌, ◌≢◌, ◌↔◌, ◌⊎◌, ℕ, List, [], ◌∷◌, true, Contains, IsTrue, IfOk, IfErr, OnOk, OnErr, length};
ghost use Rattle.tree_definitions.specs.Relation.{IsAt};
ghost use Rattle.ta_model.specs.Tuples.{IsRising, Precedes, kids_of};
ghost use Rattle.shared_clusters.specs.Gap.{HasGapAt};
ghost use Rattle.shared_clusters.specs.Clusters.{Gains, Loses};

use smallvec::SmallVec;
use std::alloc::{AllocError, Global};
use std::marker::Model;
use ta_model::Kids;

/// The child tuples of one parent under one symbol, in rising order.
#[derive(Debug, Drop)]
pub struct Group {
    symbol: u32,
    tuples: Vec<Kids>,
}

impl Model for Group {
    ghost use Rattle.ta_model.specs.Tuples.{IsRising, kids_of};
    ghost use Rattle.shared_clusters.specs.Clusters.{Group as GroupSpec};

    ghost Value = { GroupSpec };

    ghost view = { λ g. record { symbol = g.symbol; tuples = kids_of g.tuples.items } };

    ghost invariant = { λ g. IsRising (kids_of g.tuples.items) };
}

/// Copies of the tuples.
pub fn copied(alloc: Global, tuples: &[Kids]) -> Result<Vec<Kids>, AllocError>
    ensures { IfOk result (λ v. kids_of v.items ≡ kids_of tuples.now) }
{
    Vec::from_clones(alloc, tuples)
}

impl Group {
    /// The group with this tuple alone.
    pub fn single(alloc: Global, symbol: u32, kids: &Kids) -> Result<Group, AllocError>
        ensures { IfOk result (λ g. g ≡ record { symbol = symbol; tuples = kids.now.items ∷ [] }) }
    {
        let mut tuples = Vec::new(alloc);
        tuples.push(SmallVec::from_slice(alloc, kids.as_slice())?)?;
        Ok(Group { symbol, tuples })
    }

    pub fn symbol(&self) -> u32
        ensures { result ≡ self.now.symbol }
    {
        self.symbol
    }

    pub fn tuples(&self) -> &[Kids]
        ensures value { kids_of result.now ≡ self.now.tuples }
        ensures rising { IsRising self.now.tuples }
    {
        &self.tuples
    }

    /// Where the tuple stands, or would go.
    fn place(&self, kids: &Kids) -> Result<usize, usize>
        ensures found { IfOk result (λ i. IsAt self.now.tuples i kids.now.items) }
        ensures absent { IfErr result (λ i. HasGapAt Precedes Precedes self.now.tuples kids.now.items i) }
        ensures rising { IsRising self.now.tuples }
    {
        self.tuples.binary_search(kids)
    }

    /// Whether it has this tuple and no other.
    pub fn has_only(&self, kids: &Kids) -> bool
        ensures { IsTrue result ↔ (self.now.tuples ≡ kids.now.items ∷ []) }
    {
        let tuples = self.tuples.as_slice();
        tuples.len() == 1 && tuples[0].as_slice() == kids.as_slice()
    }

    /// Adds the tuple. Whether it is new.
    pub fn insert(&mut self, kids: &Kids) -> Result<bool, AllocError>
        ensures fresh { IfOk result (λ fresh. IsTrue fresh ↔ (Contains self.old.tuples kids.now.items → ⊥)) }
        ensures symbol { self.new.symbol ≡ self.old.symbol }
        ensures ok { OnOk result (Gains self.old.tuples self.new.tuples kids.now.items) }
        ensures err { OnErr result (self.new ≡ self.old) }
    {
        match self.place(kids) {
            Ok(_) => Ok(false),
            Err(i) => {
                let copy = SmallVec::from_slice(*self.tuples.allocator(), kids.as_slice())?;
                self.tuples.insert(i, copy)?;
                Ok(true)
            }
        }
    }

    /// Takes the tuple out. Whether it was there.
    pub fn remove(&mut self, kids: &Kids) -> bool
        ensures was { IsTrue result ↔ Contains self.old.tuples kids.now.items }
        ensures symbol { self.new.symbol ≡ self.old.symbol }
        ensures loses { Loses self.old.tuples self.new.tuples kids.now.items }
        ensures filled { self.old.tuples ≢ [] → self.old.tuples ≢ kids.now.items ∷ [] → self.new.tuples ≢ [] }
    {
        match self.place(kids) {
            Ok(i) => {
                self.tuples.remove(i);
                true
            }
            Err(_) => false,
        }
    }
}

impl Clone for Group {
    ghost use Rattle.std.specs.Prelude.{◌≡◌};

    ghost is_clone = { λ a b. b ≡ a };

    fn clone(&self) -> Result<Group, AllocError> {
        Ok(Group {
            symbol: self.symbol,
            tuples: copied(*self.tuples.allocator(), &self.tuples)?,
        })
    }
}
