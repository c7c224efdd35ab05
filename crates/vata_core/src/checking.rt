//! The top call of `vata_check`.

ghost use Rattle.std.specs.Prelude.{◌≡◌, ◌≢◌, ◌≤◌, ◌⊎◌, ◌↔◌, List, ℕ, None, Some, [], ◌∷◌, map, IfOk, IfSome, string_bytes};
ghost use Rattle.std.specs.Io.KnownBytes.{Appends};
ghost use Rattle.vata_outside.specs.Outside.{File, Rose};
ghost use Rattle.tree_definitions.specs.Automaton.{Automaton};
ghost use Rattle.certificate_kinds.specs.declared.certificate.Certificate.{Certificate};
ghost use Rattle.incl_certificate.specs.Checked.{FailsAt, Holds};
ghost use Rattle.vata_core.specs.CheckRequest.{CheckRequest, all_of, automata_of, check_request_of, check_usage_line};
ghost use Rattle.vata_core.specs.Files.{AreSpelled, IsLeftOfOne, Told};
ghost use Rattle.vata_core.specs.Judgement.{IsCertificateOf, Judges, JudgesInPart, accepted_line, judgement_line, judgement_status, refused_line};
ghost use Rattle.vata_core.specs.Lines.{Tells, memory_line, read_line, write_line};
ghost use Rattle.vata_core.specs.NoCertificate.{IsBeyond, IsFaulty};
ghost use Rattle.vata_core.specs.Outcome.{FailsToRead, IsAnswered, IsSilent};
ghost use Rattle.vata_core.specs.Refusals.{reason_status};

use crate::judging::{Judgement, Unjudged, judgement_of};
use crate::running::status_of;
use crate::status::Status;
use crate::telling::{tell_fault, tell_memory, tell_reason, tell_write_fault};
use crate::words::files_to_check;
use incl_certificate::Verdict;
use std::alloc::{AllocError, Global};
use vata_outside::{Files, Sink, write_all_of};

#[tactic(auto, unfolding(crate::specs::Judgement::accepted_line))]
fn accepted(verdict: Verdict) -> &'static [u8]
    ensures { result.now ≡ accepted_line verdict }
{
    match verdict {
        Verdict::Included => b"accepted: included\n".as_slice(),
        Verdict::NotIncluded => b"accepted: not included\n".as_slice(),
        Verdict::Undecided => b"accepted: undecided\n".as_slice(),
    }
}

#[tactic(auto, unfolding(crate::specs::Judgement::refused_line))]
fn refused(alloc: Global, condition: u8, place: u32) -> Result<Vec<u8>, AllocError>
    ensures { IfOk result (λ line. line.items ≡ refused_line condition place) }
{
    let mut line = Vec::from_slice(alloc, b"refused: condition ")?;
    line.extend_from_slice(condition.to_string(alloc)?.as_bytes())?;
    line.extend_from_slice(b" place ")?;
    line.extend_from_slice(place.to_string(alloc)?.as_bytes())?;
    line.extend_from_slice(b"\n")?;
    Ok(line)
}

/// The line of a judgement.
fn line_of(alloc: Global, judgement: Judgement) -> Result<Vec<u8>, AllocError>
    ensures { IfOk result (λ line. line.items ≡ judgement_line judgement) }
{
    match judgement {
        Judgement::Accepted { verdict } => Vec::from_slice(alloc, accepted(verdict)),
        Judgement::Refused { condition, place } => refused(alloc, condition, place),
    }
}

fn judged(judgement: Judgement) -> Status
    ensures { result ≡ judgement_status judgement }
{
    match judgement {
        Judgement::Accepted { .. } => Status::Done,
        Judgement::Refused { .. } => Status::No,
    }
}

fn unjudged(reason: Unjudged) -> Status
    ensures { result ≡ reason_status reason }
{
    match reason {
        Unjudged::File { refusal, .. } => status_of(refusal),
        Unjudged::BadText { .. } => Status::Syntax,
        Unjudged::UnknownName { .. } => Status::Syntax,
        Unjudged::Memory => Status::Memory,
    }
}

/// Judges a certificate against two automata: reads the three files that the words name, writes to
/// `out` the line of the judgement, and where there is none a line to `diag`. The line is made before the
/// first byte is written.
pub fn check_run<F: Files, K: Sink, E: Sink>(
    alloc: Global,
    words: &[String],
    files: &mut F,
    out: &mut K,
    diag: &mut E,
) -> Status
    // What is written is the line of the judgement: `accepted` with status 0, `refused` with status 1,
    ensures answered { IsAnswered result → IfSome (check_request_of (map string_bytes words.now))
        (Judges (F.files files.old) (K.written out.old) (K.written out.new) result) }

    // or after a fault of writing a prefix of it, and with every other status nothing.
    ensures cut { result ≡ Status.WriteFault → IfSome (check_request_of (map string_bytes words.now))
        (JudgesInPart (F.files files.old) (K.written out.old) (K.written out.new)) }
    ensures silent { IsSilent result → Appends (K.written out.old) (K.written out.new) [] }
    ensures decided { result ≢ Status.Undecided }

    // The files stay as they were, and their faults are counted on; of a file at most a byte more than its limit is
    // read, and none where the words ask for nothing.
    ensures same { F.files files.new ≡ F.files files.old }
    ensures later { F.faults files.old ≤ F.faults files.new }
    ensures left { result ≢ Status.ReadFault → IfSome (check_request_of (map string_bytes words.now)) (λ request.
        IsLeftOfOne (F.files files.old) (all_of request) (F.left files.new)) }
    ensures unread { result ≡ Status.Usage → files.new ≡ files.old }

    // Each other status has its cause, which is told.
    ensures usage { (result ≡ Status.Usage) ↔ (check_request_of (map string_bytes words.now) ≡ None) }
    ensures syntax { result ≡ Status.Syntax → IfSome (check_request_of (map string_bytes words.now)) (λ request.
        (line : List ℕ) × IsFaulty (F.files files.old) request line
        × Tells (E.written diag.old) (E.written diag.new) (E.faults diag.old) (E.faults diag.new) line) }
    ensures limit { result ≡ Status.Limit → IfSome (check_request_of (map string_bytes words.now)) (λ request.
        (line : List ℕ) × IsBeyond (F.files files.old) request line
        × Tells (E.written diag.old) (E.written diag.new) (E.faults diag.old) (E.faults diag.new) line) }
    ensures read { result ≡ Status.ReadFault → IfSome (check_request_of (map string_bytes words.now)) (λ request.
        (place : ℕ) × FailsToRead (F.files files.old) (all_of request) (F.faults files.old) (F.faults files.new) place
        × Tells (E.written diag.old) (E.written diag.new) (E.faults diag.old) (E.faults diag.new) (read_line place)) }
    ensures write { result ≡ Status.WriteFault → Rose (K.faults out.old) (K.faults out.new) }

    ensures usage_told { result ≡ Status.Usage →
        Tells (E.written diag.old) (E.written diag.new) (E.faults diag.old) (E.faults diag.new) (check_usage_line (map string_bytes words.now)) }
    ensures write_told { result ≡ Status.WriteFault →
        Tells (E.written diag.old) (E.written diag.new) (E.faults diag.old) (E.faults diag.new) write_line }
    ensures memory_told { result ≡ Status.Memory →
        Tells (E.written diag.old) (E.written diag.new) (E.faults diag.old) (E.faults diag.new) memory_line }
    ensures answer_told { IsAnswered result → Appends (E.written diag.old) (E.written diag.new) [] }

    // A file that gives no automaton or no certificate, is too long or passes a limit is refused as such,
    // unless reading fails or memory runs out.
    ensures syntax_due { (request : CheckRequest) (fs : List File) (line : List ℕ) → check_request_of (map string_bytes words.now) ≡ Some request
        → F.files files.old ≡ Some fs → IsFaulty (Some fs) request line
        → ¬ Rose (F.faults files.old) (F.faults files.new) → (result ≡ Status.Syntax) ⊎ (result ≡ Status.Memory) }
    ensures limit_due { (request : CheckRequest) (fs : List File) (line : List ℕ) → check_request_of (map string_bytes words.now) ≡ Some request
        → F.files files.old ≡ Some fs → IsBeyond (Some fs) request line
        → ¬ Rose (F.faults files.old) (F.faults files.new) → (result ≡ Status.Limit) ⊎ (result ≡ Status.Memory) }

    // Where the files are two automata and a certificate for them, and nothing fails, the judgement is
    // written, unless memory runs out.
    ensures complete { (request : CheckRequest) (fs : List File) (A B : Automaton) (c : Certificate)
        → check_request_of (map string_bytes words.now) ≡ Some request → F.files files.old ≡ Some fs
        → AreSpelled (Some fs) (automata_of request) (A ∷ B ∷ []) → Told (Some fs) request.certificate (IsCertificateOf A B c)
        → ¬ Rose (F.faults files.old) (F.faults files.new) → ¬ Rose (K.faults out.old) (K.faults out.new)
        → IsAnswered result ⊎ (result ≡ Status.Memory) }

    // Then what meets all its conditions is accepted, and what fails one is refused. It never does both.
    ensures accepts { (request : CheckRequest) (fs : List File) (A B : Automaton) (c : Certificate) (verdict : Verdict)
        → check_request_of (map string_bytes words.now) ≡ Some request → F.files files.old ≡ Some fs
        → AreSpelled (Some fs) (automata_of request) (A ∷ B ∷ []) → Told (Some fs) request.certificate (IsCertificateOf A B c)
        → ¬ Rose (F.faults files.old) (F.faults files.new) → ¬ Rose (K.faults out.old) (K.faults out.new)
        → Holds A B c verdict
        → ((result ≡ Status.Done) × Appends (K.written out.old) (K.written out.new) (accepted_line verdict)) ⊎ (result ≡ Status.Memory) }
    ensures refuses { (request : CheckRequest) (fs : List File) (A B : Automaton) (c : Certificate) (condition place : ℕ)
        → check_request_of (map string_bytes words.now) ≡ Some request → F.files files.old ≡ Some fs
        → AreSpelled (Some fs) (automata_of request) (A ∷ B ∷ []) → Told (Some fs) request.certificate (IsCertificateOf A B c)
        → ¬ Rose (F.faults files.old) (F.faults files.new) → ¬ Rose (K.faults out.old) (K.faults out.new)
        → FailsAt A B c condition place
        → (result ≡ Status.No) ⊎ (result ≡ Status.Memory) }
{
    let (first, second, certificate) = match files_to_check(words) {
        Ok(names) => names,
        Err(fault) => {
            tell_fault(diag, fault);
            return Status::Usage;
        }
    };
    let judgement = match judgement_of(alloc, files, first, second, certificate) {
        Ok(judgement) => judgement,
        Err(reason) => {
            tell_reason(diag, reason);
            return unjudged(reason);
        }
    };
    let Ok(line) = line_of(alloc, judgement) else {
        tell_memory(diag);
        return Status::Memory;
    };
    match write_all_of(out, &line) {
        Ok(()) => judged(judgement),
        Err(_) => {
            tell_write_fault(diag);
            Status::WriteFault
        }
    }
}
