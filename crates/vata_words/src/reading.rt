//! The whole line.

ghost use Rattle.std.specs.Prelude.{◌≡◌, ◌+◌, ◌∷◌, ◌≤◌, ◌<◌, map, length, string_bytes, IfOk, Some};
ghost use Rattle.vata_words.specs.Parts.{parts, flag_of, Word};
ghost use Rattle.vata_words.specs.Reading.{nothing_given, with_parts, unless_fault, IsWithin};
ghost use Rattle.vata_words.specs.Requests.{request_in, FitsLine, dash_from, check_request_in};

use crate::asking::asked_by;
use crate::given::{Flag, Given, flag_of};
use crate::number::begins_with;
use crate::request::{CheckRequest, Request, WordFault};

/// The words of a line that are not read yet, and what those before them give.
#[derive(Drop)]
struct Reading<'a> {
    given: Given,
    /// The place of the first word in `left`, counted from 0.
    at: usize,
    left: &'a [String],
}

/// Reads a flag at the place `at`, with its value.
fn read_flag<'a>(
    given: Given,
    flag: Flag,
    at: usize,
    rest: &'a [String],
) -> Result<Reading<'a>, WordFault>
    requires place { at + length rest.now < usize.MAX }
    requires within { IsWithin given at }
    ensures value { (word : Word) → flag_of word ≡ Some flag → unless_fault (λ r. with_parts r.given (parts r.at (map string_bytes r.left.now))) result ≡ with_parts given (parts at (word ∷ map string_bytes rest.now)) }
    ensures place { IfOk result (λ r. r.at + length r.left.now ≡ at + 1 + length rest.now) }
    ensures shorter { IfOk result (λ r. length r.left.now ≤ length rest.now) }
    ensures within { IfOk result (λ r. IsWithin r.given r.at) }
{
    if given.stood(flag) {
        return Err(WordFault::Repeated { at: at + 1 });
    }
    if let Flag::Trim = flag {
        return Ok(Reading {
            given: given.with_trim(at),
            at: at + 1,
            left: rest,
        });
    }
    let Some((value, left)) = rest.split_first() else {
        return Err(WordFault::MissingValue { at: at + 1 });
    };
    let given = given.with_value(flag, at, value.as_str())?;
    Ok(Reading {
        given,
        at: at + 2,
        left,
    })
}

/// Reads the word at the place `at`, with its value if it is a flag with one.
fn read_part<'a>(
    given: Given,
    at: usize,
    word: &str,
    rest: &'a [String],
) -> Result<Reading<'a>, WordFault>
    requires place { at + length rest.now < usize.MAX }
    requires within { IsWithin given at }
    ensures value { unless_fault (λ r. with_parts r.given (parts r.at (map string_bytes r.left.now))) result ≡ with_parts given (parts at (word.now ∷ map string_bytes rest.now)) }
    ensures place { IfOk result (λ r. r.at + length r.left.now ≡ at + 1 + length rest.now) }
    ensures shorter { IfOk result (λ r. length r.left.now ≤ length rest.now) }
    ensures within { IfOk result (λ r. IsWithin r.given r.at) }
{
    match flag_of(word) {
        Some(flag) => read_flag(given, flag, at, rest),
        None => Ok(Reading {
            given: given.with_other(at, word)?,
            at: at + 1,
            left: rest,
        }),
    }
}

/// What the words give, or the first fault among them.
fn given_of(words: &[String]) -> Result<Given, WordFault>
    ensures value { result ≡ with_parts nothing_given (parts 0 (map string_bytes words.now)) }
    ensures within { IfOk result (λ given. IsWithin given (length words.now)) }
{
    let mut given = Given::nothing();
    let mut at = 0;
    let mut left = words;
    while let Some((word, rest)) = left.split_first() {
        let reading = read_part(given, at, word.as_str(), rest)?;
        given = reading.given;
        at = reading.at;
        left = reading.left;
    }
    Ok(given)
}

/// The request of a line. Takes no memory.
pub fn request_of(words: &[String]) -> Result<Request, WordFault>
    ensures value { result ≡ request_in (map string_bytes words.now) }
    ensures fits { IfOk result (FitsLine (length words.now)) }
{
    asked_by(given_of(words)?)
}

/// The check that a line asks for. Takes no memory.
pub fn check_request_of(words: &[String]) -> Result<CheckRequest, WordFault>
    ensures { result ≡ check_request_in (map string_bytes words.now) }
{
    if let Some(at) = dash_in(words) {
        return Err(WordFault::UnknownWord { at });
    }
    if words.len() != 3 {
        return Err(WordFault::FileCount { found: words.len() });
    }
    Ok(CheckRequest {
        first: 0,
        second: 1,
        certificate: 2,
    })
}

/// The place of the first word that begins with a dash, counted from 1.
fn dash_in(words: &[String]) -> Option<usize>
    ensures { result ≡ dash_from 1 (map string_bytes words.now) }
{
    let mut at = 0;
    let mut left = words;
    while let Some((word, rest)) = left.split_first() {
        at += 1;
        if begins_with(b'-', word.as_bytes()) {
            return Some(at);
        }
        left = rest;
    }
    None
}
