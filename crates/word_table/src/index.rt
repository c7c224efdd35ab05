//! Places of words in slots, by the hashes of the words.

ghost use Rattle.std.specs.Prelude.{◌≡◌, ◌≢◌, ◌↔◌, ℕ, List, Option, Some, ◌+◌, ◌-◌, ◌*◌, ◌<◌, ◌≤◌, length, vec_len, AllPairs, IfNone, IfOk, IfSome, IsTrue, OnOk};
ghost use Rattle.std.specs.Int.{IsPowerOfTwo};
ghost use Rattle.tree_definitions.specs.Relation.{IsAt};
ghost use Rattle.word_table.specs.Index.{AreBytes, IsIndex, IsIndexOf, IsShort, IsSlotFor, IsSlotOf, bucket_of, hash_of, key_of, place_in, word_at};

use crate::words::Words;
use std::alloc::{AllocError, Global};
use std::collections::BTreeMap;
use std::hash::{FoldHasher, Hasher};

const FEWEST_BUCKETS: usize = 16;

/// How many slots a word may stand in: that of its bucket and the next ones.
pub const WINDOW: usize = 64;

/// How many bytes a key has.
const KEY_LEN: usize = 8;

const EMPTY: Slot = Slot {
    key: 0,
    len: 0,
    count: 0,
};

/// The places of the words that have no slot, by copies of the words.
pub type Overflow = BTreeMap<Vec<u8>, u32>;

/// The place of a word, with what tells it from most other words.
#[derive(Clone, Copy)]
pub struct Slot {
    /// The first up to 8 bytes of the word, the first one lowest.
    pub key: u64,
    /// How many bytes the word has.
    pub len: u32,
    /// One more than the place of the word, or 0 in an empty slot.
    pub count: u32,
}

#[inline]
#[tactic(auto, unfolding(crate::specs::Index::hash_of))]
pub fn hash_of(word: &[u8]) -> u64
    ensures { result ≡ hash_of word.now }
{
    let mut hasher = FoldHasher::default();
    hasher.write(word);
    hasher.finish()
}

/// The first up to 8 bytes of the word as one number, the first one lowest.
#[inline]
pub fn key_of(word: &[u8]) -> u64
    ensures { result ≡ key_of word.now }
{
    let mut key = 0u64;
    for place in (0..word.len().min(KEY_LEN)).rev() {
        key = key * 256 + word[place] as u64;
    }
    key
}

/// The bucket of the hash among so many: its low bits.
#[inline]
pub fn bucket_of(hash: u64, buckets: usize) -> usize
    requires { IsPowerOfTwo buckets }
    ensures value { result ≡ bucket_of buckets hash }
    ensures within { result < buckets }
{
    hash as usize & (buckets - 1)
}

/// Whether the slot, which is taken, is that of the word with this key.
#[inline]
pub fn is_slot_of(words: &Words, slot: Slot, key: u64, word: &[u8]) -> bool
    requires some { 0 < slot.count }
    requires slot { IsSlotOf (word_at words.now) (length words.now) slot }
    requires short { IsShort (word_at words.now (slot.count - 1)) }
    requires key { key ≡ key_of word.now }
    requires bytes { AreBytes word.now }
    ensures { IsTrue result ↔ word_at words.now (slot.count - 1) ≡ word.now }
{
    slot.key == key
        && slot.len as usize == word.len()
        && (word.len() <= KEY_LEN || words.word(slot.count - 1) == word)
}

/// The place of the word, if the overflow has it. An entry whose word does not stand at its place
/// counts for nothing.
#[cold]
pub fn place_in_overflow(words: &Words, overflow: &Overflow, word: &[u8]) -> Option<u32>
    ensures some { IfSome result (λ place. IsAt words.now place word.now) }
    ensures none { IfNone result ((k : ℕ) → IsAt words.now k word.now → place_in overflow.now word.now ≢ Some k) }
{
    let place = *overflow.get(word)?;
    if (place as usize) < words.len() && words.word(place) == word {
        Some(place)
    } else {
        None
    }
}

/// The first empty slot of the bucket's window. Where there is none, the word and its place go into
/// the overflow.
pub fn slot_for(
    alloc: Global,
    slots: &[Slot],
    overflow: &mut Overflow,
    bucket: usize,
    word: &[u8],
    place: u32,
) -> Result<Option<usize>, AllocError>
    requires { bucket + 64 ≤ length slots.now }
    ensures slot { IfOk result (IsSlotFor slots.now bucket (place_in overflow.new word.now) place) }
    ensures others { (other : List ℕ) → other ≢ word.now → place_in overflow.new other ≡ place_in overflow.old other }
{
    for at in bucket..bucket + WINDOW {
        if slots[at].count == 0 {
            return Ok(Some(at));
        }
    }
    let copy = Vec::from_slice(alloc, word)?;
    overflow.insert(copy, place)?;
    Ok(None)
}

/// Writes the slot of the next place at this index, if it has one.
pub fn enter(slots: &mut Vec<Slot>, at: Option<usize>, slot: Slot)
    requires some { 0 < slot.count }
    requires within { IfSome at (λ s. s < vec_len slots.old) }
    ensures index { (word_of_place : ℕ → List ℕ) (buckets : ℕ) (listed : List ℕ → Option ℕ) → IsSlotOf word_of_place slot.count slot →
        IsSlotFor slots.old.items (bucket_of buckets (hash_of (word_of_place (slot.count - 1)))) (listed (word_of_place (slot.count - 1))) (slot.count - 1) at →
        IsIndex word_of_place buckets slots.old.items listed (slot.count - 1) → IsIndex word_of_place buckets slots.new.items listed slot.count }
    ensures len { vec_len slots.new ≡ vec_len slots.old }
{
    if let Some(at) = at {
        slots[at] = slot;
    }
}

/// The index of the words over so many buckets: its slots and its overflow.
fn indexed(
    alloc: Global,
    words: &Words,
    buckets: usize,
) -> Result<(Vec<Slot>, Overflow), AllocError>
    requires power { IsPowerOfTwo buckets }
    requires few { buckets ≤ 2500002 }
    requires distinct { AllPairs ◌≢◌ words.now }
    requires short { (k : ℕ) → k < length words.now → IsShort (word_at words.now k) }
    ensures wide { IfOk result (λ index. vec_len index.0 ≡ buckets + 64) }
    ensures index { IfOk result (λ index. IsIndex (word_at words.now) buckets index.0.items (place_in index.1) (length words.now)) }
{
    let mut slots = vec![in alloc; EMPTY; buckets + WINDOW]?;
    let mut overflow = BTreeMap::new(alloc);
    for place in 0..words.len() {
        let word = words.word(place as u32);
        let bucket = bucket_of(hash_of(word), buckets);
        let at = slot_for(alloc, &slots, &mut overflow, bucket, word, place as u32)?;
        let slot = Slot {
            key: key_of(word),
            len: word.len() as u32,
            count: place as u32 + 1,
        };
        enter(&mut slots, at, slot);
    }
    Ok((slots, overflow))
}

/// Twice as many buckets, or the first ones.
fn more_than(buckets: usize) -> usize
    requires few { buckets ≤ 1250001 }
    requires power { 0 < buckets → IsPowerOfTwo buckets }
    ensures power { IsPowerOfTwo result }
    ensures more { 2 * buckets ≤ result }
    ensures some { 2 ≤ result }
    ensures few { result ≤ 2500002 }
{
    if buckets == 0 {
        FEWEST_BUCKETS
    } else {
        2 * buckets
    }
}

/// Makes room for one more word: doubles the buckets where there would be fewer than 5 for 4 words.
/// A refusal for want of memory leaves an index of the words.
pub fn make_room(
    alloc: Global,
    words: &Words,
    buckets: &mut usize,
    slots: &mut Vec<Slot>,
    overflow: &mut Overflow,
) -> Result<(), AllocError>
    requires distinct { AllPairs ◌≢◌ words.now }
    requires index { IsIndexOf words.now buckets.old slots.old.items (place_in overflow.old) }
    ensures index { IsIndexOf words.now buckets.new slots.new.items (place_in overflow.new) }
    ensures room { OnOk result (5 * (length words.now + 1) ≤ 4 * buckets.new) }
{
    if *buckets < (5 * (words.len() + 1)).div_ceil(4) {
        let wider = more_than(*buckets);
        let (new_slots, new_overflow) = indexed(alloc, words, wider)?;
        *buckets = wider;
        *slots = new_slots;
        *overflow = new_overflow;
    }
    Ok(())
}
