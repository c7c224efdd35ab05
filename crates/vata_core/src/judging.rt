//! Judging a certificate against two automata.

ghost use Rattle.std.specs.Prelude.{◌≡◌, ◌<◌, ◌≤◌, [], ◌∷◌, length, IfOk, IfErr};
ghost use Rattle.certificate_kinds.specs.declared.certificate.Certificate.{Certificate};
ghost use Rattle.vata_core.specs.Files.{IsLeftOf, IsLeftOfOne, IsSpelled, Told};
ghost use Rattle.vata_core.specs.Judgement.{HasJudgement, IsCertificateOf, IsJudgement, judgement_line, judgement_status};
ghost use Rattle.vata_core.specs.NoCertificate.{IsTooLongAt};
ghost use Rattle.vata_core.specs.Refusals.{IsFileRefused, IsNoReadFault, IsUnjudged, IsUnread, reason_status};

use crate::loading::{Refusal, automaton_of, certificate_text_of};
use crate::status::Status;
use incl_certificate::{CertError, CheckError, Verdict, check, read};
use std::alloc::{AllocError, Global};
use ta_model::Listed;
use vata_outside::Files;

/// What the checker says of a certificate. The place is the number that is printed.
#[derive(Clone, Copy, Debug, PartialEq, Eq)]
pub enum Judgement {
    Accepted { verdict: Verdict },
    Refused { condition: u8, place: u32 },
}

/// Why there is nothing to judge.
#[derive(Clone, Copy, Debug, PartialEq, Eq)]
pub enum Unjudged {
    /// The file at this place, which counts from 0, gives no automaton, or can't be read.
    File { place: u8, refusal: Refusal },
    /// The line of the certificate that begins at this byte is not as it has to be.
    BadText { at: u64 },
    /// The name that begins there is that of no symbol.
    UnknownName { at: u64 },
    Memory,
}

/// The judgement of a certificate's text for two automata.
fn judge(alloc: Global, a: &Listed, b: &Listed, text: &[u8]) -> Result<Judgement, Unjudged>
    requires { length text.now ≤ 134217728 }
    ensures ok { IfOk result (λ j. (c : Certificate) × IsCertificateOf a.now b.now c text.now × IsJudgement a.now b.now c j) }
    ensures err { IfErr result (IsUnread a.now b.now text.now) }
{
    let certificate = match read(alloc, text, a, b) {
        Ok(certificate) => certificate,
        Err(CertError::BadText { at }) => return Err(Unjudged::BadText { at }),
        Err(CertError::UnknownName { at }) => return Err(Unjudged::UnknownName { at }),
        Err(CertError::Memory) => return Err(Unjudged::Memory),
    };
    match check(alloc, a, b, &certificate) {
        Ok(verdict) => Ok(Judgement::Accepted { verdict }),
        Err(CheckError::Fails { condition, place }) => Ok(Judgement::Refused { condition, place }),
        Err(CheckError::Memory) => Err(Unjudged::Memory),
    }
}

/// The automaton of the file at a place.
fn automaton_at<F: Files>(
    alloc: Global,
    files: &mut F,
    name: &str,
    place: u8,
) -> Result<Listed, Unjudged>
    requires { place < 2 }
    ensures same { F.files files.new ≡ F.files files.old }
    ensures later { F.faults files.old ≤ F.faults files.new }
    ensures left { IsNoReadFault result → IsLeftOf (F.files files.old) name.now 33554433 (F.left files.new) }
    ensures ok { IfOk result (λ a. IsSpelled (F.files files.old) name.now a) }
    ensures err { IfErr result (IsFileRefused (F.files files.old) name.now (F.faults files.old) (F.faults files.new) place) }
{
    match automaton_of(alloc, files, name) {
        Ok(a) => Ok(a),
        Err(refusal) => Err(Unjudged::File { place, refusal }),
    }
}

/// The bytes of the certificate's file.
fn certificate_at<F: Files>(alloc: Global, files: &mut F, name: &str) -> Result<Vec<u8>, Unjudged>
    ensures same { F.files files.new ≡ F.files files.old }
    ensures later { F.faults files.old ≤ F.faults files.new }
    ensures left { IsNoReadFault result → IsLeftOf (F.files files.old) name.now 134217729 (F.left files.new) }
    ensures ok { IfOk result (λ v. Told (F.files files.old) name.now (λ text. v.items ≡ text)) }
    ensures short { IfOk result (λ v. length v.items ≤ 134217728) }
    ensures err { IfErr result (IsFileRefused (F.files files.old) name.now (F.faults files.old) (F.faults files.new) 2) }
{
    match certificate_text_of(alloc, files, name) {
        Ok(text) => Ok(text),
        Err(refusal) => Err(Unjudged::File { place: 2, refusal }),
    }
}

/// The judgement of a certificate for two automata, each in a file.
pub fn judgement_of<F: Files>(
    alloc: Global,
    files: &mut F,
    first: &str,
    second: &str,
    certificate: &str,
) -> Result<Judgement, Unjudged>
    ensures same { F.files files.new ≡ F.files files.old }
    ensures later { F.faults files.old ≤ F.faults files.new }
    ensures left { IsNoReadFault result → IsLeftOfOne (F.files files.old) (first.now ∷ second.now ∷ certificate.now ∷ []) (F.left files.new) }
    ensures ok { IfOk result (HasJudgement (F.files files.old) (record { first = first.now; second = second.now; certificate = certificate.now })) }
    ensures err { IfErr result (IsUnjudged (F.files files.old) (record { first = first.now; second = second.now; certificate = certificate.now })
        (F.faults files.old) (F.faults files.new)) }
{
    let a = match automaton_at(alloc, files, first, 0) {
        Ok(a) => a,
        Err(reason) => return Err(reason),
    };
    let b = match automaton_at(alloc, files, second, 1) {
        Ok(b) => b,
        Err(reason) => return Err(reason),
    };
    let text = match certificate_at(alloc, files, certificate) {
        Ok(text) => text,
        Err(reason) => return Err(reason),
    };
    judge(alloc, &a, &b, &text)
}
