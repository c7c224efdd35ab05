//! A row of bits.
ghost use Rattle.std.specs.Prelude.{◌≡◌, ◌≢◌, ℕ, ◌+◌, ◌*◌, ◌/◌, ◌%◌, ◌<◌, ◌≤◌, ◌↔◌, ◌⊎◌, ◌||◌, ◌&&◌, not, true, false, IsTrue, IsNone, IfSome, IfOk, length, slice_get, slice_set, replicate, count_by};
ghost use Rattle.std.specs.Int.{bit_at};
ghost use Rattle.std.specs.Simd.Lanes.{zip2};
ghost use Rattle.bit_rows.specs.Rows.{Has, IsSubset, Meets, IsEmptyFrom, IsLeastFrom};

use crate::first::first_bit;
use crate::lanes::{and_not_words, and_words, or_words, words_apart, words_equal, words_within};
use std::alloc::{AllocError, Global};
use std::hash::{Hash, Hasher};
use std::marker::Model;

/// A row of bits: `len` of them, in words of 64, with no bit set past the last.
/// Four words are kept for each 256 places.
#[derive(Debug, Drop)]
pub struct Row {
    len: usize,
    words: Vec<u64>,
}

impl Model for Row {
    ghost use Rattle.std.specs.Prelude.{Bool, List};
    ghost use Rattle.bit_rows.specs.Bits.{bits, IsRow};

    ghost Value = { List Bool };

    ghost view = { λ r. bits r.len r.words.items };

    ghost invariant = { λ r. IsRow r.len r.words.items };
}

impl Row {
    /// n places, all false.
    pub fn zeros(alloc: Global, n: usize) -> Result<Row, AllocError>
        ensures value { IfOk result (λ row. row ≡ replicate n false) }
        ensures long { IfOk result (λ row. length row ≡ n) }
        ensures members { IfOk result (λ row. IsEmptyFrom row 0) }
    {
        let words = vec![in alloc; 0; 4 * n.div_ceil(256)]?;
        Ok(Row { len: n, words })
    }

    /// An equal row.
    pub fn copy(&self) -> Result<Row, AllocError>
        ensures { IfOk result (λ row. row ≡ self.now) }
    {
        Ok(Row {
            len: self.len,
            words: Vec::from_slice(*self.words.allocator(), &self.words)?,
        })
    }

    /// How many places there are.
    pub fn len(&self) -> usize
        ensures { result ≡ length self.now }
    {
        self.len
    }

    /// Whether the place i is set.
    pub fn get(&self, i: usize) -> bool
        requires { i < length self.now }
        ensures value { slice_get self.now i ≡ Some result }
        ensures set { IsTrue result ↔ Has self.now i }
    {
        (self.words[i / 64] >> (i % 64)) & 1 == 1
    }

    /// Sets the place i.
    pub fn set(&mut self, i: usize)
        requires { i < length self.old }
        ensures value { self.new ≡ slice_set self.old i true }
        ensures long { length self.new ≡ length self.old }
        ensures members { (s : ℕ) → Has self.new s ↔ ((s ≡ i) ⊎ Has self.old s) }
    {
        self.words[i / 64] |= 1 << (i % 64);
    }

    /// Clears the place i.
    pub fn clear(&mut self, i: usize)
        requires { i < length self.old }
        ensures value { self.new ≡ slice_set self.old i false }
        ensures long { length self.new ≡ length self.old }
        ensures members { (s : ℕ) → Has self.new s ↔ ((s ≢ i) × Has self.old s) }
    {
        self.words[i / 64] &= !(1 << (i % 64));
    }

    /// Whether each place that is set here is set in the other.
    pub fn subset_of(&self, other: &Row) -> bool
        requires { length self.now ≡ length other.now }
        ensures { IsTrue result ↔ IsSubset self.now other.now }
    {
        words_within(&self.words, &other.words)
    }

    /// Whether some place is set in both.
    pub fn meets(&self, other: &Row) -> bool
        requires { length self.now ≡ length other.now }
        ensures { IsTrue result ↔ Meets self.now other.now }
    {
        !words_apart(&self.words, &other.words)
    }

    /// Whether the two are equal, place by place.
    pub fn equals(&self, other: &Row) -> bool
        requires { length self.now ≡ length other.now }
        ensures { IsTrue result ↔ (self.now ≡ other.now) }
    {
        words_equal(&self.words, &other.words)
    }

    /// The target becomes target or self, place by place.
    pub fn or_into(&self, target: &mut Row)
        requires { length self.now ≡ length target.old }
        ensures value { target.new ≡ zip2 ◌||◌ target.old self.now }
        ensures long { length target.new ≡ length target.old }
        ensures members { (s : ℕ) → Has target.new s ↔ (Has target.old s ⊎ Has self.now s) }
    {
        or_words(&self.words, &mut target.words);
    }

    /// The target becomes target and self, place by place.
    pub fn and_into(&self, target: &mut Row)
        requires { length self.now ≡ length target.old }
        ensures value { target.new ≡ zip2 ◌&&◌ target.old self.now }
        ensures long { length target.new ≡ length target.old }
        ensures members { (s : ℕ) → Has target.new s ↔ (Has target.old s × Has self.now s) }
    {
        and_words(&self.words, &mut target.words);
    }

    /// The target becomes target and not self, place by place.
    pub fn and_not_into(&self, target: &mut Row)
        requires { length self.now ≡ length target.old }
        ensures value { target.new ≡ zip2 (λ t s. t && not s) target.old self.now }
        ensures long { length target.new ≡ length target.old }
        ensures members { (s : ℕ) → Has target.new s ↔ (Has target.old s × (Has self.now s → ⊥)) }
    {
        and_not_words(&self.words, &mut target.words);
    }

    /// How many places are set.
    pub fn count(&self) -> usize
        ensures { result ≡ count_by (λ place. place) self.now }
    {
        // Reading the length tells the proof that the count fits.
        let _len = self.len;
        let mut n = 0;
        for word in &self.words {
            n += word.count_ones() as usize;
        }
        n
    }

    /// The least set place.
    pub fn first(&self) -> Option<usize>
        ensures none { IsNone result ↔ IsEmptyFrom self.now 0 }
        ensures least { IfSome result (λ i. IsLeastFrom self.now 0 i) }
    {
        self.first_from(0)
    }

    /// The least set place that is `from` or later.
    pub fn first_from(&self, from: usize) -> Option<usize>
        ensures none { IsNone result ↔ IsEmptyFrom self.now from }
        ensures least { IfSome result (λ i. IsLeastFrom self.now from i) }
    {
        let _len = self.len;
        first_bit(&self.words, from)
    }

    /// For work on whole words: the 64 places from 64 * k on, the first of them as the lowest bit.
    /// A place past the end is 0.
    pub fn word(&self, k: usize) -> u64
        requires { 64 * k < length self.now }
        ensures { (j : ℕ) → j < 64 → (bit_at result j ≡ 1) ↔ Has self.now (64 * k + j) }
    {
        self.words[k]
    }

    /// For work on whole words: writes the 64 places from 64 * k on, the first of them from the
    /// lowest bit.
    pub fn put_word(&mut self, k: usize, word: u64)
        requires in_range { 64 * k < length self.old }
        requires past { (j : ℕ) → j < 64 → length self.old ≤ 64 * k + j → bit_at word j ≡ 0 }
        ensures long { length self.new ≡ length self.old }
        ensures here { (j : ℕ) → j < 64 → Has self.new (64 * k + j) ↔ (bit_at word j ≡ 1) }
        ensures elsewhere { (s : ℕ) → s / 64 ≢ k → Has self.new s ↔ Has self.old s }
    {
        self.words[k] = word;
    }
}

impl PartialEq for Row {
    ghost use Rattle.std.specs.Cmp.{bool_eq_equiv, partial_equiv_from_equiv};
    ghost use Rattle.std.specs.Cmp.Lexicographic.{lists_equiv, pointwise};
    ghost use Rattle.std.specs.Bool.{beq};

    ghost eq = { pointwise beq };

    ghost laws = { partial_equiv_from_equiv (lists_equiv bool_eq_equiv) };

    fn eq(&self, other: &Row) -> bool {
        self.len == other.len && self.equals(other)
    }
}

impl Eq for Row {
    ghost use Rattle.std.specs.Cmp.{bool_eq_equiv};
    ghost use Rattle.std.specs.Cmp.Lexicographic.{lists_equiv};

    ghost laws = { lists_equiv bool_eq_equiv };
}

impl Hash for Row {
    ghost use Rattle.std.specs.Hash as fed;
    ghost use Rattle.std.specs.Cmp.{booleans_Decides};
    ghost use Rattle.std.specs.Cmp.Lexicographic.{pointwise_decides};
    ghost use Rattle.bit_rows.specs.Bits.{words_of};

    ghost hash_input = { λ row. fed.slice fed.u64 (words_of row) };

    ghost respects_eq = { (fed.same_Alike (λ row. fed.slice fed.u64 (words_of row)) (pointwise_decides booleans_Decides)).fed };

    fn hash<H: Hasher>(&self, state: &mut H) {
        self.words.as_slice().hash(state);
    }
}
