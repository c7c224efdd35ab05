//! Reading the certificates that decide nothing.

ghost use Rattle.std.specs.Prelude.{◌≡◌, ◌<◌, ◌≤◌, true, IfOk, drop, length};
ghost use Rattle.certificate_lines.specs.Lines.{stands_at};
ghost use Rattle.certificate_kinds.specs.Certificates.{Fits};
ghost use Rattle.incl_certificate.specs.Text.{Reads, certificate_text, judged_down_trail, judged_undecided, judged_up_trail, undecided_line};
ghost use Rattle.incl_certificate.specs.Telling.{IsDownTrailBehind, IsUpTrailBehind};

use crate::inclusion_reading::{error_of, stands};
use crate::reading::CertError;
use certificate_kinds::Certificate;
use certificate_lines::read_relation;
use down_entry_lines::read_down_entries;
use entry_lines::read_up_entries;
use std::alloc::Global;
use ta_model::Listed;

/// The upward trail whose relations begin at this byte.
#[tactic(auto, unfolding(crate::specs::Text::judged_up_trail))]
fn read_up_trail(
    alloc: Global,
    text: &[u8],
    a: &Listed,
    b: &Listed,
    at: usize,
) -> Result<Certificate, CertError>
    requires bytes { length text.now < 4294967295 }
    requires from { at ≤ length text.now }
    ensures judged { Reads a.now b.now result (judged_up_trail a.now b.now text.now at) }
    ensures text { IfOk result (IsUpTrailBehind a.now b.now (drop at text.now)) }
    ensures fits { IfOk result (Fits a.now b.now) }
{
    let (left, at) = match read_relation(alloc, b"left", a.states().len(), text, at) {
        Ok(found) => found,
        Err(error) => return Err(error_of(error)),
    };
    let (right, at) = match read_relation(alloc, b"right", b.states().len(), text, at) {
        Ok(found) => found,
        Err(error) => return Err(error_of(error)),
    };
    match read_up_entries(alloc, a, b, text, at) {
        Ok((budget, entries)) => Ok(Certificate::UpTrail {
            left,
            right,
            budget: budget as u64,
            entries,
        }),
        Err(error) => Err(error_of(error)),
    }
}

/// The downward trail whose relation begins at this byte.
#[tactic(auto, unfolding(crate::specs::Text::judged_down_trail))]
fn read_down_trail(
    alloc: Global,
    text: &[u8],
    a: &Listed,
    b: &Listed,
    at: usize,
) -> Result<Certificate, CertError>
    requires bytes { length text.now < 4294967295 }
    requires from { at ≤ length text.now }
    ensures judged { Reads a.now b.now result (judged_down_trail a.now b.now text.now at) }
    ensures text { IfOk result (IsDownTrailBehind a.now b.now (drop at text.now)) }
    ensures fits { IfOk result (Fits a.now b.now) }
{
    let states = a.states().len() + b.states().len();
    let (both, at) = match read_relation(alloc, b"both", states, text, at) {
        Ok(found) => found,
        Err(error) => return Err(error_of(error)),
    };
    let Ok(canonical) = a.canon() else {
        return Err(CertError::Memory);
    };
    match read_down_entries(alloc, &canonical, b, text, at) {
        Ok((budget, entries)) => Ok(Certificate::DownTrail {
            both,
            budget: budget as u64,
            entries,
        }),
        Err(error) => Err(error_of(error)),
    }
}

/// The certificate with this text, whose first line says that nothing was decided.
#[tactic(auto, unfolding(crate::specs::Text::judged_undecided))]
pub(crate) fn read_undecided(
    alloc: Global,
    text: &[u8],
    a: &Listed,
    b: &Listed,
) -> Result<Certificate, CertError>
    requires bytes { length text.now < 4294967295 }
    requires line { stands_at undecided_line text.now 0 ≡ true }
    ensures judged { Reads a.now b.now result (judged_undecided a.now b.now text.now) }
    ensures text { IfOk result (λ c. text.now ≡ certificate_text a.now b.now c) }
    ensures fits { IfOk result (Fits a.now b.now) }
{
    if stands(text, 10, b"certificate 1 up-trail\n") {
        return read_up_trail(alloc, text, a, b, 33);
    }
    if stands(text, 10, b"certificate 1 down-trail\n") {
        return read_down_trail(alloc, text, a, b, 35);
    }
    Err(CertError::BadText { at: 10 })
}
