//! The text of a certificate.

ghost use Rattle.std.specs.Prelude.{◌≡◌, ◌<◌, All, IfOk, length};
ghost use Rattle.tree_definitions.specs.Canonical.{canon};
ghost use Rattle.tree_definitions.specs.Cover.{FitsPair};
ghost use Rattle.listed_pairs.specs.DownEntries.{AreDownEntries, entries_of};
ghost use Rattle.certificate_kinds.specs.Fitting.{AreUpEntries};
ghost use Rattle.certificate_kinds.specs.Certificates.{Fits};
ghost use Rattle.incl_certificate.specs.Text.{answer_line, certificate_text, down_text, down_trail_text, kind_line, tree_text, up_text, up_trail_text};

use bit_matrix::Matrix;
use certificate_kinds::Certificate;
use certificate_lines::{put_pairs, put_relation};
use down_entry_lines::put_down_entries;
use entry_lines::put_up_entries;
use listed_pairs::{DownEntry, Pair, UpEntry};
use std::alloc::{AllocError, Global};
use ta_model::Listed;
use witness_trees::Nodes;

#[tactic(auto, unfolding(crate::specs::Text::answer_line))]
pub fn answer() -> &'static [u8]
    ensures { result.now ≡ answer_line }
{
    b"not included\n".as_slice()
}

#[tactic(auto, unfolding(crate::specs::Text::kind_line))]
pub fn kind() -> &'static [u8]
    ensures { result.now ≡ kind_line }
{
    b"certificate 1 tree\n".as_slice()
}

#[tactic(auto, unfolding(crate::specs::Text::up_text))]
fn print_up(
    alloc: Global,
    a: &Listed,
    b: &Listed,
    left: &Matrix,
    right: &Matrix,
    pairs: &[Pair],
) -> Result<Vec<u8>, AllocError>
    requires { All (FitsPair a.now b.now) pairs.now }
    ensures { IfOk result (λ text. text.items ≡ up_text a.now b.now left.now right.now pairs.now) }
{
    let mut text = Vec::new(alloc);
    text.extend_from_slice(b"included\n")?;
    text.extend_from_slice(b"certificate 1 up\n")?;
    put_relation(&mut text, b"left", left)?;
    put_relation(&mut text, b"right", right)?;
    put_pairs(&mut text, a, b, pairs)?;
    Ok(text)
}

#[tactic(auto, unfolding(crate::specs::Text::down_text))]
fn print_down(
    alloc: Global,
    a: &Listed,
    b: &Listed,
    both: &Matrix,
    pairs: &[Pair],
) -> Result<Vec<u8>, AllocError>
    requires { All (FitsPair a.now b.now) pairs.now }
    ensures { IfOk result (λ text. text.items ≡ down_text a.now b.now both.now pairs.now) }
{
    let mut text = Vec::new(alloc);
    text.extend_from_slice(b"included\n")?;
    text.extend_from_slice(b"certificate 1 down\n")?;
    put_relation(&mut text, b"both", both)?;
    put_pairs(&mut text, a, b, pairs)?;
    Ok(text)
}

#[tactic(auto, unfolding(crate::specs::Text::up_trail_text))]
fn print_up_trail(
    alloc: Global,
    a: &Listed,
    b: &Listed,
    left: &Matrix,
    right: &Matrix,
    budget: u64,
    entries: &[UpEntry],
) -> Result<Vec<u8>, AllocError>
    requires { AreUpEntries a.now b.now budget entries.now }
    ensures { IfOk result (λ text. text.items ≡ up_trail_text a.now b.now left.now right.now budget entries.now) }
{
    // The call tells the proof that the automaton is narrow.
    let _symbols = a.symbols();
    let mut text = Vec::new(alloc);
    text.extend_from_slice(b"undecided\n")?;
    text.extend_from_slice(b"certificate 1 up-trail\n")?;
    put_relation(&mut text, b"left", left)?;
    put_relation(&mut text, b"right", right)?;
    put_up_entries(&mut text, a, b, budget as u32, entries)?;
    Ok(text)
}

#[tactic(auto, unfolding(crate::specs::Text::down_trail_text))]
fn print_down_trail(
    alloc: Global,
    a: &Listed,
    b: &Listed,
    both: &Matrix,
    budget: u64,
    entries: &[DownEntry],
) -> Result<Vec<u8>, AllocError>
    requires { AreDownEntries (canon a.now) b.now budget (entries_of entries.now) }
    ensures { IfOk result (λ text. text.items ≡ down_trail_text a.now b.now both.now budget (entries_of entries.now)) }
{
    let canonical = a.canon()?;
    let mut text = Vec::new(alloc);
    text.extend_from_slice(b"undecided\n")?;
    text.extend_from_slice(b"certificate 1 down-trail\n")?;
    put_relation(&mut text, b"both", both)?;
    put_down_entries(&mut text, &canonical, b, budget as u32, entries)?;
    Ok(text)
}

fn print_tree(alloc: Global, nodes: &Nodes) -> Result<Vec<u8>, AllocError>
    requires { 0 < length nodes.now.rows }
    ensures { IfOk result (λ text. text.items ≡ tree_text nodes.now) }
{
    let lines = witness_trees::print(alloc, nodes)?;
    let mut text = Vec::with_capacity(alloc, lines.len())?;
    text.extend_from_slice(answer())?;
    text.extend_from_slice(kind())?;
    text.extend_from_slice(&lines)?;
    Ok(text)
}

/// The text of a certificate that fits.
pub fn print(alloc: Global, a: &Listed, b: &Listed, c: &Certificate) -> Result<Vec<u8>, AllocError>
    requires { Fits a.now b.now c.now }
    ensures { IfOk result (λ text. text.items ≡ certificate_text a.now b.now c.now) }
{
    match c {
        Certificate::Up { left, right, pairs } => print_up(alloc, a, b, left, right, pairs),
        Certificate::Down { both, pairs } => print_down(alloc, a, b, both, pairs),
        Certificate::Tree { nodes } => print_tree(alloc, nodes),
        Certificate::UpTrail {
            left,
            right,
            budget,
            entries,
        } => print_up_trail(alloc, a, b, left, right, *budget, entries),
        Certificate::DownTrail {
            both,
            budget,
            entries,
        } => print_down_trail(alloc, a, b, both, *budget, entries),
    }
}
