//! Words, each kept once.

ghost use Rattle.std.specs.Prelude.{◌≡◌, ◌≢◌, ◌<◌, ◌≤◌, [], length, AllPairs, Contains, IfNone, IfOk, IfSome, OnErr};
ghost use Rattle.tree_definitions.specs.Relation.{IsAt};
ghost use Rattle.word_table.specs.Table.{IsInterned};

use crate::numbered::Numbered;
use crate::slots::SlotTable;
use crate::words::Words;
use std::alloc::{AllocError, Global};
use std::marker::Model;

/// At most 1,000,000 distinct words of at most 1,000 bytes each, with places from 0 in the order in
/// which they came. They are seen as the list of the words.
///
/// A word that is like the first one but for the number at its end is found by that number, any other
/// by its hash.
#[derive(Drop)]
pub struct WordTable {
    /// All words.
    slots: SlotTable,
    /// Places of some of them.
    numbered: Numbered,
}

impl Model for WordTable {
    ghost use Rattle.std.specs.Prelude.{ℕ, List};
    ghost use Rattle.word_table.specs.Numbered.{AreNumbered};

    ghost Value = { List (List ℕ) };

    ghost view = { λ t. t.slots };

    ghost invariant = { λ t. AreNumbered t.slots t.numbered };
}

impl WordTable {
    /// No words. Takes no memory.
    pub fn new(alloc: Global) -> WordTable
        ensures { result ≡ [] }
    {
        WordTable {
            slots: SlotTable::new(alloc),
            numbered: Numbered::like(alloc, b""),
        }
    }

    /// How many words there are.
    #[inline]
    pub fn len(&self) -> usize
        ensures value { result ≡ length self.now }
        ensures few { length self.now ≤ 1000000 }
    {
        self.slots.len()
    }

    /// The words in the order of their places.
    #[inline]
    pub fn words(&self) -> &Words
        ensures value { result.now ≡ self.now }
        ensures distinct { AllPairs ◌≢◌ self.now }
    {
        self.slots.words()
    }

    /// The place of the word, if it stands in the table. Takes no memory.
    #[inline]
    pub fn find(&self, word: &[u8]) -> Option<u32>
        ensures some { IfSome result (λ place. IsAt self.now place word.now) }
        ensures none { IfNone result (¬ Contains self.now word.now) }
    {
        match self.numbered.find(word) {
            Some(place) => Some(place),
            None => self.slots.find(word),
        }
    }

    /// The place of the word of at most 1,000 bytes, which comes last if it is new, where there are
    /// fewer than 1,000,000. A refusal for want of memory leaves the words as they were.
    #[inline]
    pub fn intern(&mut self, word: &[u8]) -> Result<u32, AllocError>
        requires few { length self.old < 1000000 }
        requires short { length word.now ≤ 1000 }
        ensures ok { IfOk result (IsInterned self.old word.now self.new) }
        ensures err { OnErr result (self.new ≡ self.old) }
    {
        if let Some(place) = self.numbered.find(word) {
            return Ok(place);
        }
        self.intern_by_hash(word)
    }

    /// The same for a word that isn't found by its number.
    fn intern_by_hash(&mut self, word: &[u8]) -> Result<u32, AllocError>
        requires few { length self.old < 1000000 }
        requires short { length word.now ≤ 1000 }
        ensures ok { IfOk result (IsInterned self.old word.now self.new) }
        ensures err { OnErr result (self.new ≡ self.old) }
    {
        let count = self.slots.len();
        let place = self.slots.intern(word)?;
        if self.slots.len() > count {
            self.numbered.put(word, place);
        }
        Ok(place)
    }
}
