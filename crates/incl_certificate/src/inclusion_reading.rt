//! Reading the certificates that say that the first automaton is included.

ghost use Rattle.std.specs.Prelude.{◌≡◌, ◌<◌, ◌≤◌, true, IfOk, drop, length};
ghost use Rattle.certificate_lines.specs.Lines.{stands_at};
ghost use Rattle.certificate_kinds.specs.Certificates.{Fits};
ghost use Rattle.incl_certificate.specs.Text.{Reads, certificate_text, included_line, judged_down, judged_included, judged_up};
ghost use Rattle.incl_certificate.specs.Telling.{IsDownBehind, IsUpBehind, cert_error};

use crate::reading::CertError;
use certificate_kinds::Certificate;
use certificate_lines::{read_pairs, read_relation};
use std::alloc::Global;
use ta_model::Listed;
use witness_trees::NodesTextError;

pub(crate) fn error_of(error: NodesTextError) -> CertError
    ensures { result ≡ cert_error error }
{
    match error {
        NodesTextError::BadText { at } => CertError::BadText { at },
        NodesTextError::UnknownName { at } => CertError::UnknownName { at },
        NodesTextError::Memory => CertError::Memory,
    }
}

/// Whether the line stands at this byte.
pub(crate) fn stands(text: &[u8], at: usize, line: &[u8]) -> bool
    requires { at ≤ length text.now }
    ensures { result ≡ stands_at line.now text.now at }
{
    text[at..].starts_with(line)
}

/// The upward certificate whose relations begin at this byte.
#[tactic(auto, unfolding(crate::specs::Text::judged_up))]
fn read_up(
    alloc: Global,
    text: &[u8],
    a: &Listed,
    b: &Listed,
    at: usize,
) -> Result<Certificate, CertError>
    requires bytes { length text.now < 4294967295 }
    requires from { at ≤ length text.now }
    ensures judged { Reads a.now b.now result (judged_up a.now b.now text.now at) }
    ensures text { IfOk result (IsUpBehind a.now b.now (drop at text.now)) }
    ensures fits { IfOk result (Fits a.now b.now) }
{
    let (left, at) = match read_relation(alloc, b"left", a.states().len(), text, at) {
        Ok(found) => found,
        Err(error) => return Err(error_of(error)),
    };
    let (right, at) = match read_relation(alloc, b"right", b.states().len(), text, at) {
        Ok(found) => found,
        Err(error) => return Err(error_of(error)),
    };
    match read_pairs(alloc, a, b, text, at) {
        Ok(pairs) => Ok(Certificate::Up { left, right, pairs }),
        Err(error) => Err(error_of(error)),
    }
}

/// The downward certificate whose relation begins at this byte.
#[tactic(auto, unfolding(crate::specs::Text::judged_down))]
fn read_down(
    alloc: Global,
    text: &[u8],
    a: &Listed,
    b: &Listed,
    at: usize,
) -> Result<Certificate, CertError>
    requires bytes { length text.now < 4294967295 }
    requires from { at ≤ length text.now }
    ensures judged { Reads a.now b.now result (judged_down a.now b.now text.now at) }
    ensures text { IfOk result (IsDownBehind a.now b.now (drop at text.now)) }
    ensures fits { IfOk result (Fits a.now b.now) }
{
    let states = a.states().len() + b.states().len();
    let (both, at) = match read_relation(alloc, b"both", states, text, at) {
        Ok(found) => found,
        Err(error) => return Err(error_of(error)),
    };
    match read_pairs(alloc, a, b, text, at) {
        Ok(pairs) => Ok(Certificate::Down { both, pairs }),
        Err(error) => Err(error_of(error)),
    }
}

/// The certificate with this text, whose first line says that the first automaton is included.
#[tactic(auto, unfolding(crate::specs::Text::judged_included))]
pub(crate) fn read_included(
    alloc: Global,
    text: &[u8],
    a: &Listed,
    b: &Listed,
) -> Result<Certificate, CertError>
    requires bytes { length text.now < 4294967295 }
    requires line { stands_at included_line text.now 0 ≡ true }
    ensures judged { Reads a.now b.now result (judged_included a.now b.now text.now) }
    ensures text { IfOk result (λ c. text.now ≡ certificate_text a.now b.now c) }
    ensures fits { IfOk result (Fits a.now b.now) }
{
    if stands(text, 9, b"certificate 1 up\n") {
        return read_up(alloc, text, a, b, 26);
    }
    if stands(text, 9, b"certificate 1 down\n") {
        return read_down(alloc, text, a, b, 28);
    }
    Err(CertError::BadText { at: 9 })
}
