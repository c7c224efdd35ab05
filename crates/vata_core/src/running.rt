//! The top call of `vata`.

ghost use Rattle.std.specs.Prelude.{◌≡◌, ◌≢◌, ◌≤◌, ◌⊎◌, ◌↔◌, Bool, List, ℕ, None, Some, map, IfOk, IfErr, IfSome, IsErrOf, string_bytes, [], ◌∷◌};
ghost use Rattle.std.specs.Io.KnownBytes.{Appends};
ghost use Rattle.vata_outside.specs.Outside.{File, IsMissing, Rose};
ghost use Rattle.tree_definitions.specs.Automaton.{Automaton};
ghost use Rattle.tree_definitions.specs.Canonical.{canon};
ghost use Rattle.timbuk_definitions.specs.Printed.{plain_text};
ghost use Rattle.timbuk_text.specs.Taking.{limit_of};
ghost use Rattle.vata_words.specs.declared.request.Dir.{Dir};
ghost use Rattle.vata_core.specs.declared.words.BinaryCommand.{BinaryCommand};
ghost use Rattle.vata_core.specs.Request.{Request, Binary, files_of, request_of, usage_line};
ghost use Rattle.vata_core.specs.Files.{AreSpelled, IsBadAt, IsLeftOfOne, IsRefused};
ghost use Rattle.vata_core.specs.Lines.{Tells, memory_line, read_line, syntax_line, write_line};
ghost use Rattle.vata_core.specs.Limits.{IsWithin};
ghost use Rattle.vata_core.specs.Outcome.{Answers, AnswersInPart, AsksForAutomaton, FailsToRead, IsAnswered, IsLimited, IsSilent, MeansOfInclusion, SpeaksTrees};
ghost use Rattle.vata_core.specs.Refusals.{halt_status, refusal_status};

use crate::asking::answer_to;
use crate::halting::Halt;
use crate::loading::Refusal;
use crate::status::Status;
use crate::telling::{tell_halt, tell_untaken, tell_write_fault};
use crate::words::task_of;
use std::alloc::Global;
use timbuk_text::Counted;
use vata_outside::{Files, Sink, write_all_of};

pub fn status_of(refusal: Refusal) -> Status
    ensures { result ≡ refusal_status refusal }
{
    match refusal {
        Refusal::ReadFault => Status::ReadFault,
        Refusal::TooLong => Status::Limit,
        Refusal::Syntax { .. } => Status::Syntax,
        Refusal::Limit { .. } => Status::Limit,
        Refusal::Memory => Status::Memory,
    }
}

fn halted(halt: Halt) -> Status
    ensures { result ≡ halt_status halt }
{
    match halt {
        Halt::File { refusal, .. } => status_of(refusal),
        Halt::Past { .. } => Status::Limit,
        Halt::Memory => Status::Memory,
    }
}

/// Does what the words ask for: reads the files that they name, writes the answer to `out`, and
/// where there is none a line to `diag`. The answer is made before the first byte is written.
pub fn run<F: Files, K: Sink, E: Sink>(
    alloc: Global,
    words: &[String],
    files: &mut F,
    out: &mut K,
    diag: &mut E,
) -> Status
    // What is written is the whole of a right answer's text,
    ensures answered { IsAnswered result → IfSome (request_of (map string_bytes words.now))
        (Answers (F.files files.old) (K.written out.old) (K.written out.new) result) }

    // or after a fault of writing a prefix of it, and with every other status nothing.
    ensures cut { result ≡ Status.WriteFault → IfSome (request_of (map string_bytes words.now))
        (AnswersInPart (F.files files.old) (K.written out.old) (K.written out.new)) }
    ensures silent { IsSilent result → Appends (K.written out.old) (K.written out.new) [] }

    // The written text of an automaton spells one that accepts the trees that are asked for.
    ensures language { (request : Request) (fs : List File) (As : List Automaton) (old new : List ℕ) → IsAnswered result
        → request_of (map string_bytes words.now) ≡ Some request → AsksForAutomaton request
        → F.files files.old ≡ Some fs → AreSpelled (Some fs) (files_of request) As
        → K.written out.old ≡ Some old → K.written out.new ≡ Some new → SpeaksTrees request As old new }

    // The files stay as they were, and their faults are counted on; of a file at most a byte more than its limit is
    // read, and none where the words ask for nothing.
    ensures same { F.files files.new ≡ F.files files.old }
    ensures later { F.faults files.old ≤ F.faults files.new }
    ensures left { result ≢ Status.ReadFault → IfSome (request_of (map string_bytes words.now)) (λ request.
        IsLeftOfOne (F.files files.old) (files_of request) (F.left files.new)) }
    ensures unread { result ≡ Status.Usage → files.new ≡ files.old }

    // Each other status has its cause, which is told.
    ensures usage { (result ≡ Status.Usage) ↔ (request_of (map string_bytes words.now) ≡ None) }
    ensures syntax { result ≡ Status.Syntax → IfSome (request_of (map string_bytes words.now)) (λ request.
        (place : ℕ) × (at : ℕ) × IsRefused (F.files files.old) (files_of request) (IsBadAt at) place
        × Tells (E.written diag.old) (E.written diag.new) (E.faults diag.old) (E.faults diag.new) (syntax_line place at)) }
    ensures limit { result ≡ Status.Limit → IfSome (request_of (map string_bytes words.now)) (λ request.
        (line : List ℕ) × IsLimited (F.files files.old) request line
        × Tells (E.written diag.old) (E.written diag.new) (E.faults diag.old) (E.faults diag.new) line) }
    ensures read { result ≡ Status.ReadFault → IfSome (request_of (map string_bytes words.now)) (λ request.
        (place : ℕ) × FailsToRead (F.files files.old) (files_of request) (F.faults files.old) (F.faults files.new) place
        × Tells (E.written diag.old) (E.written diag.new) (E.faults diag.old) (E.faults diag.new) (read_line place)) }
    ensures write { result ≡ Status.WriteFault → Rose (K.faults out.old) (K.faults out.new) }

    ensures usage_told { result ≡ Status.Usage →
        Tells (E.written diag.old) (E.written diag.new) (E.faults diag.old) (E.faults diag.new) (usage_line (map string_bytes words.now)) }
    ensures write_told { result ≡ Status.WriteFault →
        Tells (E.written diag.old) (E.written diag.new) (E.faults diag.old) (E.faults diag.new) write_line }
    ensures memory_told { result ≡ Status.Memory →
        Tells (E.written diag.old) (E.written diag.new) (E.faults diag.old) (E.faults diag.new) memory_line }
    ensures answer_told { IsAnswered result → Appends (E.written diag.old) (E.written diag.new) [] }

    // A file that spells no automaton, is too long or passes a limit is refused as such, unless reading fails
    // or memory runs out.
    ensures syntax_due { (request : Request) (fs : List File) (place at : ℕ) → request_of (map string_bytes words.now) ≡ Some request
        → F.files files.old ≡ Some fs → IsRefused (Some fs) (files_of request) (IsBadAt at) place
        → ¬ Rose (F.faults files.old) (F.faults files.new) → (result ≡ Status.Syntax) ⊎ (result ≡ Status.Memory) }
    ensures limit_due { (request : Request) (fs : List File) (line : List ℕ) → request_of (map string_bytes words.now) ≡ Some request
        → F.files files.old ≡ Some fs → IsLimited (Some fs) request line
        → ¬ Rose (F.faults files.old) (F.faults files.new) → (result ≡ Status.Limit) ⊎ (result ≡ Status.Memory) }

    // Where each file spells an automaton, no limit is passed and nothing fails, the answer is written,
    // unless memory runs out.
    ensures complete { (request : Request) (fs : List File) (As : List Automaton) → request_of (map string_bytes words.now) ≡ Some request
        → F.files files.old ≡ Some fs → AreSpelled (Some fs) (files_of request) As → IsWithin request As
        → ¬ Rose (F.faults files.old) (F.faults files.new) → ¬ Rose (K.faults out.old) (K.faults out.new)
        → IsAnswered result ⊎ (result ≡ Status.Memory) }

    // Where the words ask whether A is included in B, a yes and a no are true, and nothing is decided only with a
    // small budget.
    ensures inclusion { (dir : Dir) (sim : Bool) (budget : ℕ) (first second : List ℕ) (fs : List File) (A B : Automaton)
        → request_of (map string_bytes words.now) ≡ Some (Binary (BinaryCommand.Incl dir sim budget) first second)
        → F.files files.old ≡ Some fs → AreSpelled (Some fs) (first ∷ second ∷ []) (A ∷ B ∷ [])
        → MeansOfInclusion dir A B budget result }
{
    let task = match task_of(words) {
        Ok(task) => task,
        Err(untaken) => {
            tell_untaken(diag, untaken);
            return Status::Usage;
        }
    };
    let reply = match answer_to(alloc, files, task) {
        Ok(reply) => reply,
        Err(halt) => {
            tell_halt(diag, halt);
            return halted(halt);
        }
    };
    match write_all_of(out, &reply.text) {
        Ok(()) => reply.status,
        Err(_) => {
            tell_write_fault(diag);
            Status::WriteFault
        }
    }
}
