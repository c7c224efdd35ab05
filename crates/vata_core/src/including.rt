//! Whether one automaton is included in another.

ghost use Rattle.std.specs.Prelude.{◌≡◌, ◌≤◌, IfOk, IfErr};
ghost use Rattle.timbuk_definitions.specs.Place.{IsSmall};
ghost use Rattle.certificate_kinds.specs.declared.certificate.Certificate.{Certificate};
ghost use Rattle.incl_certificate.specs.Text.{certificate_text};
ghost use Rattle.upward_inclusion.specs.Inclusion.{IsInclusionAnswer as IsUpwardAnswer};
ghost use Rattle.vata_core.specs.Answer.{IsBinaryRight, certificate_status};
ghost use Rattle.vata_core.specs.Inclusion.{IsInclusionAnswer};
ghost use Rattle.vata_core.specs.Limits.{ExceedsBinary, ExceedsInclusion};
ghost use Rattle.vata_core.specs.Refusals.{IsBuilt, IsOperationHalt, IsReplyOf};

use crate::halting::{Halt, Reply};
use crate::measure::Measure;
use crate::status::Status;
use crate::words::BinaryCommand;
use incl_certificate::{Certificate, print};
use std::alloc::Global;
use ta_model::Listed;
use upward_inclusion::{InclusionError, includes_upward};
use vata_words::Dir;

/// The status of a run that wrote the certificate.
fn status_of(certificate: &Certificate) -> Status
    ensures { result ≡ certificate_status certificate.now }
{
    match certificate {
        Certificate::Up { .. } => Status::Done,
        Certificate::Down { .. } => Status::Done,
        Certificate::Tree { .. } => Status::No,
        Certificate::UpTrail { .. } => Status::Undecided,
        Certificate::DownTrail { .. } => Status::Undecided,
    }
}

/// What shows whether the first automaton is included in the second, by an upward search.
fn upward_certificate(
    alloc: Global,
    a: &Listed,
    b: &Listed,
    sim: bool,
    budget: u64,
) -> Result<Certificate, Halt>
    requires left { IsSmall a.now }
    requires right { IsSmall b.now }
    requires some { 1 ≤ budget }
    requires few { budget ≤ 1000000 }
    ensures ok { IfOk result (IsUpwardAnswer sim budget a.now b.now) }
    ensures within { IfOk result (λ _. (what : Measure) → ExceedsInclusion Dir.Up what a.now b.now → ⊥) }
    ensures err { IfErr result (IsOperationHalt (λ what. ExceedsInclusion Dir.Up what a.now b.now)) }
{
    match includes_upward(alloc, a, b, sim, budget) {
        Ok(certificate) => Ok(certificate),
        Err(InclusionError::Symbols) => Err(Halt::Past {
            what: Measure::Symbols,
        }),
        Err(InclusionError::Relation) => Err(Halt::Past {
            what: Measure::Relation,
        }),
        Err(InclusionError::Memory) => Err(Halt::Memory),
    }
}

/// What shows whether the first automaton is included in the second. Searches upward alone are built.
fn certificate_of(
    alloc: Global,
    dir: Dir,
    sim: bool,
    budget: u64,
    a: &Listed,
    b: &Listed,
) -> Result<Certificate, Halt>
    requires left { IsSmall a.now }
    requires right { IsSmall b.now }
    requires built { IsBuilt (BinaryCommand.Incl dir sim budget) }
    ensures ok { IfOk result (IsInclusionAnswer dir sim budget a.now b.now) }
    ensures within { IfOk result (λ _. (what : Measure) → ExceedsInclusion dir what a.now b.now → ⊥) }
    ensures err { IfErr result (IsOperationHalt (λ what. ExceedsInclusion dir what a.now b.now)) }
{
    match dir {
        Dir::Up => upward_certificate(alloc, a, b, sim, budget),
        Dir::Down => unreachable!(),
    }
}

/// The text of what shows whether the first automaton is included in the second.
pub fn included(
    alloc: Global,
    dir: Dir,
    sim: bool,
    budget: u64,
    a: &Listed,
    b: &Listed,
) -> Result<Reply, Halt>
    requires left { IsSmall a.now }
    requires right { IsSmall b.now }
    requires built { IsBuilt (BinaryCommand.Incl dir sim budget) }
    ensures ok { IfOk result (IsReplyOf (IsBinaryRight (BinaryCommand.Incl dir sim budget) a.now b.now) (ExceedsBinary (BinaryCommand.Incl dir sim budget) a.now b.now)) }
    ensures err { IfErr result (IsOperationHalt (ExceedsBinary (BinaryCommand.Incl dir sim budget) a.now b.now)) }
{
    let certificate = certificate_of(alloc, dir, sim, budget, a, b)?;
    let status = status_of(&certificate);
    let text = print(alloc, a, b, &certificate)?;
    Ok(Reply { text, status })
}
