//! Places of words that are a prefix and a number.

ghost use Rattle.std.specs.Prelude.{◌≡◌, ◌<◌, ◌≤◌, ℕ, List, length, IfSome};
ghost use Rattle.tree_definitions.specs.Relation.{IsAt};
ghost use Rattle.word_table.specs.Numbered.{AreDigits, AreNumbered, IsNumber, number_from};

use std::alloc::Global;

/// No number goes on from this one.
const MOST: usize = 10_000_000;

/// For each word there may be so many numbers.
const NUMBERS_FOR_WORD: usize = 4;

/// Places of words that begin with one prefix and go on with digits alone, by the number of the
/// digits. Most files name their states so, as `q0`, `q1` and so on. Each list of digits has a number
/// of its own: none is 0, `0` to `9` are 1 to 10, `00` is 11.
#[derive(Drop)]
pub struct Numbered {
    prefix: Vec<u8>,
    /// For each number one more than the place of its word, or 0 where it is not known.
    counts: Vec<u32>,
}

/// The number of the digits, if the bytes are digits and not too many.
#[inline]
fn number_of(digits: &[u8]) -> Option<usize>
    ensures { IfSome result (λ number. AreDigits digits.now × (number_from 0 digits.now ≡ number)) }
{
    let mut number: usize = 0;
    for byte in digits {
        if *byte < b'0' || *byte > b'9' || number >= MOST {
            return None;
        }
        number = 10 * number + (*byte - b'0') as usize + 1;
    }
    Some(number)
}

/// How many bytes stand before the digits at the end.
fn prefix_len(word: &[u8]) -> usize
    ensures { result ≤ length word.now }
{
    let mut len = word.len();
    for place in (0..word.len()).rev() {
        if word[place] < b'0' || word[place] > b'9' {
            return len;
        }
        len = place;
    }
    len
}

impl Numbered {
    /// No places, and the prefix of this word. Where there is no memory for it the prefix is empty.
    pub fn like(alloc: Global, word: &[u8]) -> Numbered
        ensures { (words : List (List ℕ)) → AreNumbered words result }
    {
        let (front, _) = word.split_at(prefix_len(word));
        let prefix = match Vec::from_slice(alloc, front) {
            Ok(prefix) => prefix,
            Err(_) => Vec::new(alloc),
        };
        Numbered {
            prefix,
            counts: Vec::new(alloc),
        }
    }

    /// The number of the word, if it begins with the prefix and goes on with digits.
    #[inline]
    fn number(&self, word: &[u8]) -> Option<usize>
        ensures { IfSome result (IsNumber self.now.prefix.items word.now) }
    {
        if word.len() < self.prefix.len() {
            return None;
        }
        let (front, digits) = word.split_at(self.prefix.len());
        if front == self.prefix.as_slice() {
            number_of(digits)
        } else {
            None
        }
    }

    /// The place of the word, where it is known.
    #[inline]
    pub fn find(&self, word: &[u8]) -> Option<u32>
        ensures { (words : List (List ℕ)) → AreNumbered words self.now → IfSome result (λ place. IsAt words place word.now) }
    {
        let Some(number) = self.number(word) else {
            return None;
        };
        if number < self.counts.len() && self.counts[number] > 0 {
            Some(self.counts[number] - 1)
        } else {
            None
        }
    }

    /// Takes the place of a new word, if it has a number that is not far beyond those of the words
    /// before it. Where there is no memory for it, it is not known.
    fn put_number(&mut self, word: &[u8], place: u32)
        requires few { place < 1000000 }
        ensures { (words : List (List ℕ)) → AreNumbered words self.old → IsAt words place word.now → AreNumbered words self.new }
    {
        let Some(number) = self.number(word) else {
            return;
        };
        if number >= NUMBERS_FOR_WORD * (place as usize + 16) {
            return;
        }
        if number >= self.counts.len() && self.counts.resize(number + 1, 0).is_err() {
            return;
        }
        self.counts[number] = place + 1;
    }

    /// Takes the place of a new word, if it has a number. The first word gives the prefix.
    pub fn put(&mut self, word: &[u8], place: u32)
        requires few { place < 1000000 }
        ensures { (words : List (List ℕ)) → AreNumbered words self.old → IsAt words place word.now → AreNumbered words self.new }
    {
        if place == 0 {
            let alloc = *self.prefix.allocator();
            *self = Numbered::like(alloc, word);
        }
        self.put_number(word, place);
    }
}
