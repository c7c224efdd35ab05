//! Words four at a time.
ghost use Rattle.std.specs.Prelude.{◌≡◌, ℕ, ◌+◌, ◌*◌, ◌/◌, ◌%◌, ◌<◌, ◌≤◌, ◌↔◌, ◌==◌, IsTrue, length, slice_index, bit_and, bit_or};
ghost use Rattle.std.specs.Int.{bit_not, w64};
ghost use Rattle.std.specs.Simd.Lanes.{zip2};
ghost use Rattle.bit_rows.specs.Bits.{is_within, is_apart, AllPlaces};

use std::simd::prelude::*;

/// Ors `from` into `target`, word by word.
pub(crate) fn or_words(from: &[u64], target: &mut [u64])
    requires same { length from.now ≡ length target.old }
    requires whole { length target.old % 4 ≡ 0 }
    ensures { target.new ≡ zip2 bit_or target.old from.now }
{
    for k in 0..target.len() / 4 {
        let at = 4 * k;
        let lanes = u64x4::from_slice(&target[at..]) | u64x4::from_slice(&from[at..]);
        lanes.copy_to_slice(&mut target[at..]);
    }
}

/// Keeps in `target` what `from` has too, word by word.
pub(crate) fn and_words(from: &[u64], target: &mut [u64])
    requires same { length from.now ≡ length target.old }
    requires whole { length target.old % 4 ≡ 0 }
    ensures { target.new ≡ zip2 bit_and target.old from.now }
{
    for k in 0..target.len() / 4 {
        let at = 4 * k;
        let lanes = u64x4::from_slice(&target[at..]) & u64x4::from_slice(&from[at..]);
        lanes.copy_to_slice(&mut target[at..]);
    }
}

/// Keeps in `target` what `from` lacks, word by word.
pub(crate) fn and_not_words(from: &[u64], target: &mut [u64])
    requires same { length from.now ≡ length target.old }
    requires whole { length target.old % 4 ≡ 0 }
    ensures { target.new ≡ zip2 (λ t f. bit_and t (bit_not w64 f)) target.old from.now }
{
    for k in 0..target.len() / 4 {
        let at = 4 * k;
        let lanes = u64x4::from_slice(&target[at..]) & !u64x4::from_slice(&from[at..]);
        lanes.copy_to_slice(&mut target[at..]);
    }
}

fn lanes_within(a: u64x4, b: u64x4) -> bool
    ensures { IsTrue result ↔ AllPlaces 4 is_within a b }
{
    (a & !b).reduce_or() == 0
}

/// Whether each word of `a` has no bit that the word of `b` lacks.
pub(crate) fn words_within(a: &[u64], b: &[u64]) -> bool
    requires same { length a.now ≡ length b.now }
    requires whole { length a.now % 4 ≡ 0 }
    ensures { IsTrue result ↔ AllPlaces (length a.now) is_within a.now b.now }
{
    for k in 0..a.len() / 4 {
        let at = 4 * k;
        if !lanes_within(u64x4::from_slice(&a[at..]), u64x4::from_slice(&b[at..])) {
            return false;
        }
    }
    true
}

fn lanes_apart(a: u64x4, b: u64x4) -> bool
    ensures { IsTrue result ↔ AllPlaces 4 is_apart a b }
{
    (a & b).reduce_or() == 0
}

/// Whether no word of `a` has a bit in common with the word of `b`.
pub(crate) fn words_apart(a: &[u64], b: &[u64]) -> bool
    requires same { length a.now ≡ length b.now }
    requires whole { length a.now % 4 ≡ 0 }
    ensures { IsTrue result ↔ AllPlaces (length a.now) is_apart a.now b.now }
{
    for k in 0..a.len() / 4 {
        let at = 4 * k;
        if !lanes_apart(u64x4::from_slice(&a[at..]), u64x4::from_slice(&b[at..])) {
            return false;
        }
    }
    true
}

fn lanes_equal(a: u64x4, b: u64x4) -> bool
    ensures { IsTrue result ↔ AllPlaces 4 ◌==◌ a b }
{
    (a ^ b).reduce_or() == 0
}

/// Whether the words are the same.
pub(crate) fn words_equal(a: &[u64], b: &[u64]) -> bool
    requires same { length a.now ≡ length b.now }
    requires whole { length a.now % 4 ≡ 0 }
    ensures { IsTrue result ↔ AllPlaces (length a.now) ◌==◌ a.now b.now }
{
    for k in 0..a.len() / 4 {
        let at = 4 * k;
        if !lanes_equal(u64x4::from_slice(&a[at..]), u64x4::from_slice(&b[at..])) {
            return false;
        }
    }
    true
}
