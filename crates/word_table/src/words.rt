//! Words, one behind the other.

ghost use Rattle.std.specs.Prelude.{◌≡◌, ◌<◌, ◌≤◌, [], ◌∷◌, ◌++◌, length, OnErr, OnOk};
ghost use Rattle.tree_definitions.specs.Relation.{IsAt};
ghost use Rattle.word_table.specs.Words.{start_of};

use std::alloc::{AllocError, Global};
use std::marker::Model;

/// At most 1,000,000 words of at most 1,000 bytes each, one behind the other in one block of bytes.
/// They are seen as the list of the words.
#[derive(Drop)]
pub struct Words {
    bytes: Vec<u8>,
    /// For each word the place behind its last byte.
    ends: Vec<u32>,
}

impl Model for Words {
    ghost use Rattle.std.specs.Prelude.{ℕ, List};
    ghost use Rattle.word_table.specs.Words.{AreWords, words_from};

    ghost Value = { List (List ℕ) };

    ghost view = { λ w. words_from 0 w.bytes.items w.ends.items };

    ghost invariant = { λ w. AreWords w.bytes.items w.ends.items };
}

/// Where the word at this place begins.
#[inline]
fn start_of(ends: &[u32], place: u32) -> u32
    requires { place ≤ length ends.now }
    ensures { result ≡ start_of 0 ends.now place }
{
    if place == 0 {
        0
    } else {
        ends[place as usize - 1]
    }
}

impl Words {
    /// No words. Takes no memory.
    pub fn new(alloc: Global) -> Words
        ensures { result ≡ [] }
    {
        Words {
            bytes: Vec::new(alloc),
            ends: Vec::new(alloc),
        }
    }

    /// How many words there are.
    #[inline]
    pub fn len(&self) -> usize
        ensures value { result ≡ length self.now }
        ensures few { length self.now ≤ 1000000 }
    {
        self.ends.len()
    }

    /// Appends a word of at most 1,000 bytes, where there are fewer than 1,000,000. A refusal for want
    /// of memory leaves the words as they were.
    pub fn push(&mut self, word: &[u8]) -> Result<(), AllocError>
        requires few { length self.old < 1000000 }
        requires short { length word.now ≤ 1000 }
        ensures ok { OnOk result (self.new ≡ self.old ++ word.now ∷ []) }
        ensures err { OnErr result (self.new ≡ self.old) }
    {
        let end = self.bytes.len() + word.len();
        self.ends.reserve(1)?;
        self.bytes.extend_from_slice(word)?;
        self.ends.push_reserved(end as u32);
        Ok(())
    }

    /// The word at this place.
    #[inline]
    pub fn word(&self, place: u32) -> &[u8]
        requires { place < length self.now }
        ensures { IsAt self.now place result.now }
    {
        let start = start_of(&self.ends, place);
        let end = self.ends[place as usize];
        &self.bytes[start as usize..end as usize]
    }
}
