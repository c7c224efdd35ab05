//! The automata of the files that a request names, and the answer to it.

ghost use Rattle.std.specs.Prelude.{◌≡◌, ◌≤◌, [], ◌∷◌, IfOk, IfErr};
ghost use Rattle.timbuk_definitions.specs.Place.{IsSmall};
ghost use Rattle.vata_core.specs.Files.{IsLeftOf, IsLeftOfOne, IsSpelled};
ghost use Rattle.vata_core.specs.Refusals.{AreUnread, HasReply, IsBuilt, IsFileHalt, IsHalted, IsNoFault, IsTaken, request_for};
ghost use Rattle.vata_core.specs.Request.{Binary, Unary, files_of};

use crate::answering::{binary_answer, unary_answer};
use crate::halting::{Halt, Reply};
use crate::loading::automaton_of;
use crate::words::{BinaryCommand, Task, UnaryCommand};
use std::alloc::Global;
use ta_model::Listed;
use vata_outside::Files;

/// The automaton of the file at a place.
fn automaton_at<F: Files>(
    alloc: Global,
    files: &mut F,
    name: &str,
    place: u8,
) -> Result<Listed, Halt>
    ensures same { F.files files.new ≡ F.files files.old }
    ensures later { F.faults files.old ≤ F.faults files.new }
    ensures left { IsNoFault result → IsLeftOf (F.files files.old) name.now 33554433 (F.left files.new) }
    ensures ok { IfOk result (λ a. IsSpelled (F.files files.old) name.now a) }
    ensures small { IfOk result IsSmall }
    ensures err { IfErr result (IsFileHalt (F.files files.old) name.now (F.faults files.old) (F.faults files.new) place) }
{
    match automaton_of(alloc, files, name) {
        Ok(a) => Ok(a),
        Err(refusal) => Err(Halt::File { place, refusal }),
    }
}

/// The automata of two files.
fn two_automata<F: Files>(
    alloc: Global,
    files: &mut F,
    first: &str,
    second: &str,
) -> Result<(Listed, Listed), Halt>
    ensures same { F.files files.new ≡ F.files files.old }
    ensures later { F.faults files.old ≤ F.faults files.new }
    ensures left { IsNoFault result → IsLeftOfOne (F.files files.old) (first.now ∷ second.now ∷ []) (F.left files.new) }
    ensures ok_left { IfOk result (λ p. IsSpelled (F.files files.old) first.now p.0) }
    ensures ok_right { IfOk result (λ p. IsSpelled (F.files files.old) second.now p.1) }
    ensures small_left { IfOk result (λ p. IsSmall p.0) }
    ensures small_right { IfOk result (λ p. IsSmall p.1) }
    ensures err { IfErr result (AreUnread (F.files files.old) (first.now ∷ second.now ∷ []) (F.faults files.old) (F.faults files.new)) }
{
    let a = match automaton_at(alloc, files, first, 0) {
        Ok(a) => a,
        Err(halt) => return Err(halt),
    };
    let b = match automaton_at(alloc, files, second, 1) {
        Ok(b) => b,
        Err(halt) => return Err(halt),
    };
    Ok((a, b))
}

/// The answer to a command on the automaton of a file.
fn unary_reply<F: Files>(
    alloc: Global,
    files: &mut F,
    command: UnaryCommand,
    file: &str,
) -> Result<Reply, Halt>
    ensures same { F.files files.new ≡ F.files files.old }
    ensures later { F.faults files.old ≤ F.faults files.new }
    ensures left { IsNoFault result → IsLeftOfOne (F.files files.old) (file.now ∷ []) (F.left files.new) }
    ensures ok { IfOk result (HasReply (F.files files.old) (Unary command file.now)) }
    ensures err { IfErr result (IsHalted (F.files files.old) (Unary command file.now) (F.faults files.old) (F.faults files.new)) }
{
    let a = match automaton_at(alloc, files, file, 0) {
        Ok(a) => a,
        Err(halt) => return Err(halt),
    };
    unary_answer(alloc, command, a)
}

/// The answer to a command on the automata of two files.
fn binary_reply<F: Files>(
    alloc: Global,
    files: &mut F,
    command: BinaryCommand,
    first: &str,
    second: &str,
) -> Result<Reply, Halt>
    requires { IsBuilt command }
    ensures same { F.files files.new ≡ F.files files.old }
    ensures later { F.faults files.old ≤ F.faults files.new }
    ensures left { IsNoFault result → IsLeftOfOne (F.files files.old) (first.now ∷ second.now ∷ []) (F.left files.new) }
    ensures ok { IfOk result (HasReply (F.files files.old) (Binary command first.now second.now)) }
    ensures err { IfErr result (IsHalted (F.files files.old) (Binary command first.now second.now) (F.faults files.old) (F.faults files.new)) }
{
    let (a, b) = match two_automata(alloc, files, first, second) {
        Ok(both) => both,
        Err(halt) => return Err(halt),
    };
    binary_answer(alloc, command, &a, &b)
}

/// The answer to a task.
pub fn answer_to<F: Files>(alloc: Global, files: &mut F, task: Task) -> Result<Reply, Halt>
    requires { IsTaken task }
    ensures same { F.files files.new ≡ F.files files.old }
    ensures later { F.faults files.old ≤ F.faults files.new }
    ensures left { IsNoFault result → IsLeftOfOne (F.files files.old) (files_of (request_for task.entry)) (F.left files.new) }
    ensures ok { IfOk result (HasReply (F.files files.old) (request_for task.entry)) }
    ensures err { IfErr result (IsHalted (F.files files.old) (request_for task.entry) (F.faults files.old) (F.faults files.new)) }
{
    match task {
        Task::Unary { command, file } => unary_reply(alloc, files, command, file),
        Task::Binary {
            command,
            first,
            second,
        } => binary_reply(alloc, files, command, first, second),
    }
}
