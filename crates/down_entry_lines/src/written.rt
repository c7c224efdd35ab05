//! The line of an entry as written.

ghost use Rattle.std.specs.Prelude.{◌≡◌, ◌+◌, ◌<◌, ◌≤◌, ℕ, List, IfOk, length, map, option_map, take};
ghost use Rattle.std.specs.List.{list_all};
ghost use Rattle.std.specs.Str.{bytes_eq};
ghost use Rattle.witness_trees.specs.Answers.{Spells, capped};
ghost use Rattle.witness_trees.specs.Judged.{is_number, number_of, pieces_at};
ghost use Rattle.certificate_lines.specs.Pairs.{spelled_names, spelled_words};
ghost use Rattle.down_entry_lines.specs.Entries.{child_words, children_in, ends_with_child, ends_with_root, entry_written, pair_words, root_words, rule_in, split_words, word_at, written_words};
ghost use Rattle.down_entry_lines.specs.Views.{capped_entry, line_view};

use certificate_lines::pairs::{name_of, names_of, spelled_of};
use std::alloc::{AllocError, Global};
use ta_model::Name;
use witness_trees::NodesTextError;
use witness_trees::reader::{mark_place, pieces, value_of, writes_number};

/// A line as written. `from` is the place of the symbol's name. A number over 2^32 is held as 2^32.
#[derive(Debug, Drop)]
pub(crate) enum Line {
    Root {
        state: Name,
        members: Vec<Name>,
    },
    Child {
        state: Name,
        members: Vec<Name>,
        split: u64,
        place: u64,
    },
    Split {
        number: u64,
        from: usize,
        name: Name,
        children: Vec<Name>,
        choice: Vec<u64>,
    },
}

fn all_write_numbers(words: &[&[u8]]) -> bool
    ensures { result ≡ list_all is_number (map (λ x. x.now) words.now) }
{
    for word in words {
        if !writes_number(word) {
            return false;
        }
    }
    true
}

fn values_of(alloc: Global, words: &[&[u8]]) -> Result<Vec<u64>, AllocError>
    ensures { IfOk result (λ v. v.items ≡ map capped (map number_of (map (λ x. x.now) words.now))) }
{
    let mut values = Vec::new(alloc);
    for word in words {
        values.push(value_of(word))?;
    }
    Ok(values)
}

/// The names between the commas.
fn names_between(alloc: Global, at: u64, bytes: &[u8]) -> Result<Vec<Name>, NodesTextError>
    ensures { Spells at (λ v. v.items) result (spelled_names (pieces_at 44 bytes.now)) }
{
    let Ok(words) = pieces(alloc, bytes, b',') else {
        return Err(NodesTextError::Memory);
    };
    names_of(alloc, at, &words)
}

/// The names of the children, behind their opening parenthesis.
#[tactic(auto, unfolding(crate::specs::Entries::children_in))]
fn children_of(alloc: Global, at: u64, bytes: &[u8]) -> Result<Vec<Name>, NodesTextError>
    ensures { Spells at (λ v. v.items) result (children_in bytes.now) }
{
    let Some(end) = mark_place(bytes, b')') else {
        return Err(NodesTextError::BadText { at });
    };
    if !bytes[end + 1..].is_empty() {
        return Err(NodesTextError::BadText { at });
    }
    names_between(alloc, at, &bytes[..end])
}

/// A symbol's name and the names of the children.
#[tactic(auto, unfolding(crate::specs::Entries::rule_in))]
fn rule_of(alloc: Global, at: u64, bytes: &[u8]) -> Result<(Name, Vec<Name>), NodesTextError>
    ensures { Spells {Y = List ℕ × List (List ℕ)} at (λ c. (c.0, c.1.items)) result (rule_in bytes.now) }
{
    let Some(end) = mark_place(bytes, b'(') else {
        return match name_of(alloc, at, bytes) {
            Ok(name) => Ok((name, Vec::new(alloc))),
            Err(error) => Err(error),
        };
    };
    let name = match name_of(alloc, at, &bytes[..end]) {
        Ok(name) => name,
        Err(error) => return Err(error),
    };
    match children_of(alloc, at, &bytes[end + 1..]) {
        Ok(children) => Ok((name, children)),
        Err(error) => Err(error),
    }
}

/// Whether this word stands at the place. Takes no memory.
fn is_word(words: &[&[u8]], k: usize, word: &[u8]) -> bool
    requires { k < length words.now }
    ensures { result ≡ bytes_eq (word_at (map (λ x. x.now) words.now) k) word.now }
{
    words[k] == word
}

/// Whether the word at the place is a number. Takes no memory.
fn is_number_at(words: &[&[u8]], k: usize) -> bool
    requires { k < length words.now }
    ensures { result ≡ is_number (word_at (map (λ x. x.now) words.now) k) }
{
    writes_number(words[k])
}

/// The number at the place, or 2^32 where it is greater. Takes no memory.
fn number_at(words: &[&[u8]], k: usize) -> u64
    requires { k < length words.now }
    ensures { result ≡ capped (number_of (word_at (map (λ x. x.now) words.now) k)) }
{
    value_of(words[k])
}

/// The names of the pair that the first words are.
fn names_before(
    alloc: Global,
    at: u64,
    words: &[&[u8]],
    k: usize,
) -> Result<(Name, Vec<Name>), NodesTextError>
    requires { k ≤ length words.now }
    ensures { Spells {Y = List ℕ × List (List ℕ)} at (λ r. (r.0, r.1.items)) result (spelled_words (take k (map (λ x. x.now) words.now))) }
{
    spelled_of(alloc, at, &words[..k])
}

/// The pair to begin with that the words behind `pair` are.
#[tactic(auto, unfolding(crate::specs::Entries::root_words))]
fn root_of(alloc: Global, at: u64, words: &[&[u8]]) -> Result<Line, NodesTextError>
    ensures { Spells at line_view result (option_map capped_entry (root_words (map (λ x. x.now) words.now))) }
{
    let count = words.len();
    if count < 2 {
        return Err(NodesTextError::BadText { at });
    }
    if !is_word(words, count - 2, b":".as_slice()) {
        return Err(NodesTextError::BadText { at });
    }
    match names_before(alloc, at, words, count - 2) {
        Ok((state, members)) => Ok(Line::Root { state, members }),
        Err(error) => Err(error),
    }
}

/// Whether the last words are a colon, `child` and two numbers. Takes no memory.
fn is_child(words: &[&[u8]]) -> bool
    ensures { result ≡ ends_with_child (map (λ x. x.now) words.now) }
{
    let count = words.len();
    if count < 4 {
        return false;
    }
    if !is_word(words, count - 4, b":".as_slice()) {
        return false;
    }
    if !is_word(words, count - 3, b"child".as_slice()) {
        return false;
    }
    if !is_number_at(words, count - 2) {
        return false;
    }
    is_number_at(words, count - 1)
}

/// The pair of a child that the words behind `pair` are.
#[tactic(auto, unfolding(crate::specs::Entries::child_words))]
fn child_of(alloc: Global, at: u64, words: &[&[u8]]) -> Result<Line, NodesTextError>
    ensures { Spells at line_view result (option_map capped_entry (child_words (map (λ x. x.now) words.now))) }
{
    if !is_child(words) {
        return Err(NodesTextError::BadText { at });
    }
    let count = words.len();
    match names_before(alloc, at, words, count - 4) {
        Ok((state, members)) => Ok(Line::Child {
            state,
            members,
            split: number_at(words, count - 2),
            place: number_at(words, count - 1),
        }),
        Err(error) => Err(error),
    }
}

/// Whether the last word is `root`. Takes no memory.
fn is_root(words: &[&[u8]]) -> bool
    ensures { result ≡ ends_with_root (map (λ x. x.now) words.now) }
{
    let count = words.len();
    if count < 1 {
        return false;
    }
    is_word(words, count - 1, b"root".as_slice())
}

/// The pair that the words behind `pair` are.
fn pair_of(alloc: Global, at: u64, words: &[&[u8]]) -> Result<Line, NodesTextError>
    ensures { Spells at line_view result (option_map capped_entry (pair_words (map (λ x. x.now) words.now))) }
{
    if is_root(words) {
        root_of(alloc, at, words)
    } else {
        child_of(alloc, at, words)
    }
}

/// The byte at which a symbol's name stands behind this number.
fn byte_behind(number: &[u8]) -> usize
    ensures { result ≡ length number.now + 9 }
{
    number.len() + 9
}

/// The split that the words behind `split` are.
#[tactic(auto, unfolding(crate::specs::Entries::split_words))]
fn split_of(alloc: Global, at: u64, words: &[&[u8]]) -> Result<Line, NodesTextError>
    ensures { Spells at line_view result (option_map capped_entry (split_words (map (λ x. x.now) words.now))) }
{
    let [number, colon, rule, mark, choice @ ..] = words else {
        return Err(NodesTextError::BadText { at });
    };
    if !writes_number(number) {
        return Err(NodesTextError::BadText { at });
    }
    if *colon != b":".as_slice() {
        return Err(NodesTextError::BadText { at });
    }
    if *mark != b":".as_slice() {
        return Err(NodesTextError::BadText { at });
    }
    if !all_write_numbers(choice) {
        return Err(NodesTextError::BadText { at });
    }
    let Ok(choice) = values_of(alloc, choice) else {
        return Err(NodesTextError::Memory);
    };
    match rule_of(alloc, at, rule) {
        Ok((name, children)) => Ok(Line::Split {
            number: value_of(number),
            from: byte_behind(number),
            name,
            children,
            choice,
        }),
        Err(error) => Err(error),
    }
}

/// The entry that the words of a line are.
fn worded_of(alloc: Global, at: u64, words: &[&[u8]]) -> Result<Line, NodesTextError>
    ensures { Spells at line_view result (option_map capped_entry (written_words (map (λ x. x.now) words.now))) }
{
    let [word, others @ ..] = words else {
        return Err(NodesTextError::BadText { at });
    };
    if *word == b"pair".as_slice() {
        return pair_of(alloc, at, others);
    }
    if *word == b"split".as_slice() {
        return split_of(alloc, at, others);
    }
    Err(NodesTextError::BadText { at })
}

/// The line as written, where its spelling is that of an entry.
#[tactic(auto, unfolding(crate::specs::Entries::entry_written))]
pub(crate) fn written_of(alloc: Global, at: u64, line: &[u8]) -> Result<Line, NodesTextError>
    ensures { Spells at line_view result (option_map capped_entry (entry_written line.now)) }
{
    let Ok(words) = pieces(alloc, line, b' ') else {
        return Err(NodesTextError::Memory);
    };
    worded_of(alloc, at, &words)
}
