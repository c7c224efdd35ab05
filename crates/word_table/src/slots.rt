//! Words, each kept once and found by its hash.

ghost use Rattle.std.specs.Prelude.{◌≡◌, ◌≢◌, ◌<◌, ◌≤◌, [], ◌∷◌, ◌++◌, length, AllPairs, Contains, IfNone, IfOk, IfSome, OnErr, OnOk};
ghost use Rattle.tree_definitions.specs.Relation.{IsAt};
ghost use Rattle.word_table.specs.Index as index;
ghost use Rattle.word_table.specs.Table.{IsInterned};

use crate::index::{
    Overflow, Slot, WINDOW, bucket_of, enter, hash_of, is_slot_of, key_of, make_room,
    place_in_overflow, slot_for,
};
use crate::words::Words;
use std::alloc::{AllocError, Global};
use std::collections::BTreeMap;
use std::marker::Model;

/// At most 1,000,000 distinct words of at most 1,000 bytes each, with places from 0 in the order in
/// which they came. They are seen as the list of the words.
///
/// A word is found by its hash, of which the low bits are its bucket. The seed is fixed, so whoever
/// picks the words can give many the same bucket. A search still goes over at most 64 slots, and then
/// down an ordered map.
#[derive(Drop)]
pub struct SlotTable {
    words: Words,
    /// How many buckets there are: a power of two, or 0.
    buckets: usize,
    /// For each bucket a slot, and 64 more behind them. A word has the first that was empty when it
    /// came, of the 64 from the slot of its bucket on.
    slots: Vec<Slot>,
    /// The words for which none of the 64 was empty.
    overflow: Overflow,
}

impl Model for SlotTable {
    ghost use Rattle.std.specs.Prelude.{ℕ, List};
    ghost use Rattle.word_table.specs.Index.{place_in};
    ghost use Rattle.word_table.specs.Table.{IsTable};

    ghost Value = { List (List ℕ) };

    ghost view = { λ t. t.words };

    ghost invariant = { λ t. IsTable t.words t.buckets t.slots.items (place_in t.overflow) };
}

impl SlotTable {
    /// No words. Takes no memory.
    pub fn new(alloc: Global) -> SlotTable
        ensures { result ≡ [] }
    {
        SlotTable {
            words: Words::new(alloc),
            buckets: 0,
            slots: Vec::new(alloc),
            overflow: BTreeMap::new(alloc),
        }
    }

    /// How many words there are.
    #[inline]
    pub fn len(&self) -> usize
        ensures value { result ≡ length self.now }
        ensures few { length self.now ≤ 1000000 }
    {
        self.words.len()
    }

    /// The words in the order of their places.
    #[inline]
    pub fn words(&self) -> &Words
        ensures value { result.now ≡ self.now }
        ensures distinct { AllPairs ◌≢◌ self.now }
    {
        &self.words
    }

    /// The place of the word with this hash and this key.
    #[inline]
    fn place_of(&self, hash: u64, key: u64, word: &[u8]) -> Option<u32>
        requires hash { hash ≡ index.hash_of word.now }
        requires key { key ≡ index.key_of word.now }
        ensures some { IfSome result (λ place. IsAt self.now place word.now) }
        ensures none { IfNone result (¬ Contains self.now word.now) }
    {
        if self.buckets == 0 {
            return None;
        }
        let bucket = bucket_of(hash, self.buckets);
        for at in bucket..bucket + WINDOW {
            let slot = self.slots[at];
            if slot.count == 0 {
                return None;
            }
            if is_slot_of(&self.words, slot, key, word) {
                return Some(slot.count - 1);
            }
        }
        place_in_overflow(&self.words, &self.overflow, word)
    }

    /// Appends the word with this hash and this key, which the table lacks.
    fn append(&mut self, hash: u64, key: u64, word: &[u8]) -> Result<u32, AllocError>
        requires few { length self.old < 1000000 }
        requires short { length word.now ≤ 1000 }
        requires hash { hash ≡ index.hash_of word.now }
        requires key { key ≡ index.key_of word.now }
        requires fresh { ¬ Contains self.old word.now }
        ensures place { IfOk result (λ place. place ≡ length self.old) }
        ensures ok { OnOk result (self.new ≡ self.old ++ word.now ∷ []) }
        ensures err { OnErr result (self.new ≡ self.old) }
    {
        let place = self.words.len();
        let alloc = *self.slots.allocator();
        make_room(
            alloc,
            &self.words,
            &mut self.buckets,
            &mut self.slots,
            &mut self.overflow,
        )?;
        let bucket = bucket_of(hash, self.buckets);
        // The overflow comes before the words: where these refuse, its entry counts for nothing.
        let at = slot_for(
            alloc,
            &self.slots,
            &mut self.overflow,
            bucket,
            word,
            place as u32,
        )?;
        self.words.push(word)?;
        let slot = Slot {
            key,
            len: word.len() as u32,
            count: place as u32 + 1,
        };
        enter(&mut self.slots, at, slot);
        Ok(place as u32)
    }

    /// The place of the word, if it stands in the table. Takes no memory.
    #[inline]
    pub fn find(&self, word: &[u8]) -> Option<u32>
        ensures some { IfSome result (λ place. IsAt self.now place word.now) }
        ensures none { IfNone result (¬ Contains self.now word.now) }
    {
        self.place_of(hash_of(word), key_of(word), word)
    }

    /// The place of the word of at most 1,000 bytes, which comes last if it is new, where there are
    /// fewer than 1,000,000. A refusal for want of memory leaves the words as they were.
    #[inline]
    pub fn intern(&mut self, word: &[u8]) -> Result<u32, AllocError>
        requires few { length self.old < 1000000 }
        requires short { length word.now ≤ 1000 }
        ensures ok { IfOk result (IsInterned self.old word.now self.new) }
        ensures err { OnErr result (self.new ≡ self.old) }
    {
        let hash = hash_of(word);
        let key = key_of(word);
        if let Some(place) = self.place_of(hash, key, word) {
            return Ok(place);
        }
        self.append(hash, key, word)
    }
}
