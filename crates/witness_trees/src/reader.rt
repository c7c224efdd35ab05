//! Reading the text of a list of nodes.

ghost use Rattle.std.specs.Prelude.{◌≡◌, ◌≢◌, ◌+◌, ◌-◌, ◌<◌, ◌≤◌, ◌==◌, ◌&&◌, nat_le, ℕ, List, [], length, drop, map, option_map, All, AllPairs, IfOk, if◌then◌else◌};
ghost use Rattle.std.specs.List.{list_all};
ghost use Rattle.std.specs.Str.{bytes_eq};
ghost use Rattle.tree_definitions.specs.Name.{is_name};
ghost use Rattle.tree_definitions.specs.Witness.{AreNodes};
ghost use Rattle.witness_trees.specs.Judged.{call_in, count_in, is_digit, is_in_order, is_number, judged, kids_in, lines_in, node_in, number_of, numbers_in, pieces_at, place_in, written_in};
ghost use Rattle.witness_trees.specs.Answers.{Answers, IsCut, Spells, capped, capped_call, capped_line};
ghost use Rattle.witness_trees.specs.Nodes.{IsNodeList};
ghost use Rattle.witness_trees.specs.NodesText.{nodes_text};
ghost use Rattle.witness_trees.specs.Views.{line_view};

use crate::nodes::{Node, Nodes};
use crate::symbol_places::SymbolPlaces;
use smallvec::SmallVec;
use std::alloc::{AllocError, Global};
use ta_model::{Kids, Name, NameError, Symbol};

/// Why a text isn't read. `at` is the offset of a byte.
#[derive(Clone, Copy, Debug, PartialEq, Eq)]
pub enum NodesTextError {
    /// The line that begins here isn't right, or a line is due here, or the text goes on here.
    BadText { at: u64 },
    /// No symbol has the name that begins here and as many children.
    UnknownName { at: u64 },
    Memory,
}

/// A line as written: its number, where the name stands and which it is, and its children. A number
/// over 2^32 is held as 2^32.
#[derive(Debug, Drop)]
pub(crate) struct Line {
    pub(crate) number: u64,
    pub(crate) place: usize,
    pub(crate) name: Name,
    pub(crate) kids: Vec<u64>,
}

/// The first place of the mark. Takes no memory.
pub fn mark_place(bytes: &[u8], mark: u8) -> Option<usize>
    ensures { IsCut mark bytes.now result }
{
    for i in 0..bytes.len() {
        if bytes[i] == mark {
            return Some(i);
        }
    }
    None
}

fn are_digits(bytes: &[u8]) -> bool
    ensures { result ≡ list_all is_digit bytes.now }
{
    bytes.iter().all(|b| 48 <= *b && *b <= 57)
}

/// Whether the bytes are decimal digits without a leading zero. Takes no memory.
pub fn writes_number(bytes: &[u8]) -> bool
    ensures { result ≡ is_number bytes.now }
{
    match bytes {
        [] => false,
        [first, rest @ ..] => {
            if *first == 48 {
                rest.is_empty()
            } else {
                are_digits(bytes)
            }
        }
    }
}

/// The number that the digits write, or 2^32 where it is greater. Takes no memory.
pub fn value_of(digits: &[u8]) -> u64
    ensures { result ≡ capped (number_of digits.now) }
{
    let mut value = 0;
    for d in digits {
        value = (10 * value + u64::from((*d).saturating_sub(48))).min(4_294_967_296);
    }
    value
}

/// The pieces between the marks.
pub fn pieces(alloc: Global, bytes: &[u8], mark: u8) -> Result<Vec<&[u8]>, AllocError>
    ensures { IfOk result (λ v. map (λ x. x.now) v.items ≡ pieces_at mark bytes.now) }
{
    bytes.split(|b| *b == mark).collect(alloc)
}

fn all_write_numbers(words: &[&[u8]]) -> bool
    ensures { result ≡ list_all is_number (map (λ x. x.now) words.now) }
{
    for word in words {
        if !writes_number(word) {
            return false;
        }
    }
    true
}

fn values_of(alloc: Global, words: &[&[u8]]) -> Result<Vec<u64>, AllocError>
    ensures { IfOk result (λ v. v.items ≡ map capped (map number_of (map (λ x. x.now) words.now))) }
{
    let mut values = Vec::new(alloc);
    for word in words {
        values.push(value_of(word))?;
    }
    Ok(values)
}

/// The numbers between the commas.
#[tactic(auto, unfolding(crate::specs::Judged::numbers_in))]
fn numbers_of(alloc: Global, at: u64, bytes: &[u8]) -> Result<Vec<u64>, NodesTextError>
    ensures { Spells at (λ v. v.items) result (option_map (map capped) (numbers_in bytes.now)) }
{
    let Ok(words) = pieces(alloc, bytes, b',') else {
        return Err(NodesTextError::Memory);
    };
    if !all_write_numbers(&words) {
        return Err(NodesTextError::BadText { at });
    }
    match values_of(alloc, &words) {
        Ok(values) => Ok(values),
        Err(_) => Err(NodesTextError::Memory),
    }
}

/// The children, behind their opening parenthesis.
#[tactic(auto, unfolding(crate::specs::Judged::kids_in))]
fn kids_of(alloc: Global, at: u64, bytes: &[u8]) -> Result<Vec<u64>, NodesTextError>
    ensures { Spells at (λ v. v.items) result (option_map (map capped) (kids_in bytes.now)) }
{
    let Some(end) = mark_place(bytes, b')') else {
        return Err(NodesTextError::BadText { at });
    };
    if !bytes[end + 1..].is_empty() {
        return Err(NodesTextError::BadText { at });
    }
    numbers_of(alloc, at, &bytes[..end])
}

fn name_of(alloc: Global, at: u64, bytes: &[u8]) -> Result<Name, NodesTextError>
    ensures { Spells at (λ n. n) result (if is_name bytes.now then Some bytes.now else None) }
{
    match Name::of(alloc, bytes) {
        Ok(name) => Ok(name),
        Err(NameError::Bad) => Err(NodesTextError::BadText { at }),
        Err(NameError::Memory) => Err(NodesTextError::Memory),
    }
}

/// A name, and the children where there are some.
#[tactic(auto, unfolding(crate::specs::Judged::call_in))]
pub fn call_of(alloc: Global, at: u64, bytes: &[u8]) -> Result<(Name, Vec<u64>), NodesTextError>
    ensures { Spells {Y = List ℕ × List ℕ} at (λ c. (c.0, c.1.items)) result
        (option_map capped_call (call_in bytes.now)) }
{
    let Some(end) = mark_place(bytes, b'(') else {
        return match name_of(alloc, at, bytes) {
            Ok(name) => Ok((name, Vec::new(alloc))),
            Err(error) => Err(error),
        };
    };
    let name = match name_of(alloc, at, &bytes[..end]) {
        Ok(name) => name,
        Err(error) => return Err(error),
    };
    match kids_of(alloc, at, &bytes[end + 1..]) {
        Ok(kids) => Ok((name, kids)),
        Err(error) => Err(error),
    }
}

/// The line as written.
#[tactic(auto, unfolding(crate::specs::Judged::written_in))]
fn written_of(alloc: Global, at: u64, line: &[u8]) -> Result<Line, NodesTextError>
    ensures spelled { Spells at line_view result (option_map capped_line (written_in line.now)) }
    ensures within { IfOk result (λ found. found.place ≤ length line.now) }
{
    let Some(end) = mark_place(line, b' ') else {
        return Err(NodesTextError::BadText { at });
    };
    let number = &line[..end];
    if !writes_number(number) {
        return Err(NodesTextError::BadText { at });
    }
    match call_of(alloc, at, &line[end + 1..]) {
        Ok((name, kids)) => Ok(Line {
            number: value_of(number),
            place: end + 1,
            name,
            kids,
        }),
        Err(error) => Err(error),
    }
}

/// Whether the number is that of node k, and the children are earlier nodes.
fn are_in_order(k: usize, line: &Line) -> bool
    requires { k < 4294967295 }
    ensures { result ≡ is_in_order k (line_view line.now) }
{
    line.number == k as u64 + 1 && are_within(k, &line.kids)
}

/// Whether each number is one of 1 to k. Takes no memory.
pub fn are_within(k: usize, numbers: &[u64]) -> bool
    ensures { result ≡ list_all (λ n. nat_le 1 n && nat_le n k) numbers.now }
{
    numbers.iter().all(|n| 1 <= *n && *n <= k as u64)
}

/// Places for numbers that count from 1.
fn places_from(alloc: Global, numbers: &[u64]) -> Result<Kids, AllocError>
    requires { All (λ n. n ≤ 4294967295) numbers.now }
    ensures { IfOk result (λ v. v.items ≡ map (λ n. n - 1) numbers.now) }
{
    let mut places = SmallVec::new(alloc);
    for n in numbers {
        places.push((*n).saturating_sub(1) as u32)?;
    }
    Ok(places)
}

/// The node of a line, which is that of node k and begins at this byte.
fn node_of(
    alloc: Global,
    symbols: &SymbolPlaces,
    k: usize,
    at: u64,
    line: &[u8],
) -> Result<Node, NodesTextError>
    requires symbols { length symbols.now < 4294967295 }
    requires node { k < 4294967295 }
    requires place { at + length line.now < 4294967296 }
    ensures { Answers (λ n. n) result (node_in symbols.now k at line.now) }
{
    let line = match written_of(alloc, at, line) {
        Ok(line) => line,
        Err(error) => return Err(error),
    };
    let in_order = are_in_order(k, &line);
    let Line {
        place,
        name,
        kids,
        ..
    } = line;
    let Some(symbol) = symbols.find_called(name, kids.len()) else {
        return Err(NodesTextError::UnknownName {
            at: at + place as u64,
        });
    };
    if !in_order {
        return Err(NodesTextError::BadText { at });
    }
    match places_from(alloc, &kids) {
        Ok(kids) => Ok(Node { symbol, kids }),
        Err(_) => Err(NodesTextError::Memory),
    }
}

/// How many nodes the first line says, or 2^32 where it says more.
#[tactic(auto, unfolding(crate::specs::Judged::count_in))]
fn count_of(line: &[u8]) -> Option<u64>
    ensures { result ≡ option_map capped (count_in line.now) }
{
    if !line.starts_with(b"nodes ") {
        return None;
    }
    let digits = &line[6..];
    if !writes_number(digits) {
        return None;
    }
    let count = value_of(digits);
    if count < 1 {
        return None;
    }
    Some(count)
}

/// The nodes of the lines from this byte on, of which so many are due.
fn lines_of(
    alloc: Global,
    symbols: &SymbolPlaces,
    due: u64,
    text: &[u8],
    from: usize,
) -> Result<Vec<Node>, NodesTextError>
    requires symbols { length symbols.now < 4294967295 }
    requires bytes { length text.now < 4294967295 }
    requires from { from ≤ length text.now }
    ensures judged { Answers (λ v. v.items) result (lines_in symbols.now due from [] (drop from text.now)) }
    ensures nodes { IfOk result (λ v. AreNodes symbols.now v.items) }
    ensures few { IfOk result (λ v. length v.items < 4294967295) }
{
    let mut nodes = Vec::new(alloc);
    let mut at = from;
    for _i in 0..due {
        let Some(end) = mark_place(&text[at..], b'\n') else {
            return Err(NodesTextError::BadText { at: at as u64 });
        };
        let node = match node_of(alloc, symbols, nodes.len(), at as u64, &text[at..at + end]) {
            Ok(node) => node,
            Err(error) => return Err(error),
        };
        let Ok(()) = nodes.push(node) else {
            return Err(NodesTextError::Memory);
        };
        at += end + 1;
    }
    if at < text.len() {
        return Err(NodesTextError::BadText { at: at as u64 });
    }
    Ok(nodes)
}

/// The nodes over these symbols whose text it is. The text is judged line by line, as `judged` in
/// `specs/Judged.antt` says.
pub fn read(alloc: Global, text: &[u8], symbols: &[Symbol]) -> Result<Nodes, NodesTextError>
    requires distinct { AllPairs ◌≢◌ symbols.now }
    requires few { length symbols.now < 4294967295 }
    requires bytes { length text.now < 4294967295 }
    ensures judged { Answers (λ nodes. nodes.rows) result (judged symbols.now text.now) }
    ensures symbols { IfOk result (λ nodes. nodes.symbols ≡ symbols.now) }
    ensures text { IfOk result (λ nodes. text.now ≡ nodes_text nodes) }
    ensures list { IfOk result IsNodeList }
    ensures some { IfOk result (λ nodes. 0 < length nodes.rows) }
{
    let Some(end) = mark_place(text, b'\n') else {
        return Err(NodesTextError::BadText { at: 0 });
    };
    let Some(due) = count_of(&text[..end]) else {
        return Err(NodesTextError::BadText { at: 0 });
    };
    let Ok(symbols) = SymbolPlaces::of(alloc, symbols) else {
        return Err(NodesTextError::Memory);
    };
    match lines_of(alloc, &symbols, due, text, end + 1) {
        Ok(nodes) => Ok(Nodes::of_parts(symbols, nodes)),
        Err(error) => Err(error),
    }
}
