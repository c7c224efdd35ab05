//! The least bit that is set, word by word.
ghost use Rattle.std.specs.Prelude.{◌≡◌, ℕ, ◌+◌, ◌*◌, ◌^◌, ◌<◌, ◌≤◌, ◌↔◌, true, false, IsNone, IfSome, slice_index};
ghost use Rattle.bit_rows.specs.Bits.{bit_of, IsFirstBit};

/// The least bit from `from` on that is set.
pub(crate) fn first_bit(words: &[u64], from: usize) -> Option<usize>
    requires fits { (i : ℕ) → bit_of words.now i ≡ true → i < 2 ^ 64 }
    ensures none { IsNone result ↔ ((i : ℕ) → from ≤ i → bit_of words.now i ≡ false) }
    ensures first { IfSome result (λ i. IsFirstBit words.now from i) }
{
    let start = from / 64;
    if start >= words.len() {
        return None;
    }
    let rest = words[start] & (u64::MAX << (from % 64));
    if rest != 0 {
        return Some(64 * start + rest.trailing_zeros() as usize);
    }
    for k in start + 1..words.len() {
        let word = words[k];
        if word != 0 {
            return Some(64 * k + word.trailing_zeros() as usize);
        }
    }
    None
}
