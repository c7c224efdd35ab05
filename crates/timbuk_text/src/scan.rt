//! Finding the token at a place of a text.

ghost use Rattle.std.specs.Prelude.{List, ℕ, ◌≡◌, ◌↔◌, ◌≤◌, ◌<◌, IsTrue, length, drop};
ghost use Rattle.timbuk_definitions.specs.Token.{Token, White, Inner, sort_of};
ghost use Rattle.timbuk_definitions.specs.Grammar.{are_digits};
ghost use Rattle.timbuk_definitions.specs.Machine.{kind_of, mark_kind, word_kind};
ghost use Rattle.timbuk_definitions.specs.Cursor.{BeginsWhite, BeginsWord};
ghost use Rattle.timbuk_text.specs.Scan.{GapBetween, WordBetween, BeginsArrow, IsTokenAt};
ghost use Rattle.timbuk_text.specs.Table.{sight_of};

use crate::table::Sight;

#[tactic(auto, unfolding(timbuk_definitions::specs::Token::sort_of))]
fn is_white(b: u8) -> bool
    ensures { IsTrue result ↔ (sort_of b ≡ White) }
{
    b == b' ' || b == b'\t' || b == b'\n' || b == b'\r'
}

#[tactic(auto, unfolding(timbuk_definitions::specs::Token::sort_of))]
fn is_inner(b: u8) -> bool
    ensures { IsTrue result ↔ (sort_of b ≡ Inner) }
{
    b > b' ' && b < 127 && b != b'(' && b != b')' && b != b',' && b != b':'
}

/// Whether white space stands here.
fn begins_white(text: &[u8], at: usize) -> bool
    requires { at ≤ length text.now }
    ensures { IsTrue result ↔ BeginsWhite (drop at text.now) }
{
    at < text.len() && is_white(text[at])
}

/// Whether a word may go on here.
fn begins_word(text: &[u8], at: usize) -> bool
    requires { at ≤ length text.now }
    ensures { IsTrue result ↔ BeginsWord (drop at text.now) }
{
    at < text.len()
        && is_inner(text[at])
        && !(text[at] == b'-' && at + 1 < text.len() && text[at + 1] == b'>')
}

/// The end of the gap that begins here.
pub fn gap_end(text: &[u8], from: usize) -> usize
    requires { from ≤ length text.now }
    ensures within { (from ≤ result) × (result ≤ length text.now) }
    ensures gap { GapBetween text.now from result }
    ensures solid { ¬ BeginsWhite (drop result text.now) }
{
    let mut at = from;
    while begins_white(text, at) {
        at += 1;
    }
    at
}

/// The end of the word that begins here.
fn word_end(text: &[u8], from: usize) -> usize
    requires within { from ≤ length text.now }
    requires word { BeginsWord (drop from text.now) }
    ensures within { (from < result) × (result ≤ length text.now) }
    ensures word { WordBetween text.now from result }
    ensures longest { ¬ BeginsWord (drop result text.now) }
{
    let mut at = from;
    while begins_word(text, at) {
        at += 1;
    }
    at
}

fn are_digits(word: &[u8]) -> bool
    ensures { result ≡ are_digits word.now }
{
    word.iter().all(|b| b'0' <= *b && *b <= b'9')
}

#[tactic(auto, unfolding(timbuk_definitions::specs::Machine::word_kind))]
fn word_sight(word: &[u8]) -> Sight
    ensures { result ≡ sight_of (word_kind word.now) }
{
    if word == b"Ops".as_slice() {
        return Sight::Ops;
    }
    if word == b"Automaton".as_slice() {
        return Sight::Automaton;
    }
    if word == b"States".as_slice() {
        return Sight::States;
    }
    if word == b"Final".as_slice() {
        return Sight::Final;
    }
    if word == b"Transitions".as_slice() {
        return Sight::Transitions;
    }
    if are_digits(word) {
        Sight::Digits
    } else {
        Sight::Name
    }
}

fn mark_sight(byte: u8) -> Sight
    ensures { result ≡ sight_of (mark_kind byte) }
{
    match byte {
        b'(' => Sight::Open,
        b')' => Sight::Close,
        b',' => Sight::Comma,
        b':' => Sight::Colon,
        _ => Sight::Stray,
    }
}

/// Whether the arrow stands here.
fn begins_arrow(text: &[u8], at: usize) -> bool
    requires { at < length text.now }
    ensures { IsTrue result ↔ BeginsArrow (drop at text.now) }
{
    text[at] == b'-' && at + 1 < text.len() && text[at + 1] == b'>'
}

/// The token that begins here, and its end.
pub fn token_at(text: &[u8], at: usize) -> (Sight, usize)
    requires inside { at < length text.now }
    requires solid { ¬ BeginsWhite (drop at text.now) }
    ensures within { (at < result.1) × (result.1 ≤ length text.now) }
    ensures token { (t : Token) × IsTokenAt text.now at result.1 t × (result.0 ≡ sight_of (kind_of t)) }
{
    if begins_word(text, at) {
        let end = word_end(text, at);
        return (word_sight(&text[at..end]), end);
    }
    if begins_arrow(text, at) {
        return (Sight::Pointer, at + 2);
    }
    (mark_sight(text[at]), at + 1)
}
