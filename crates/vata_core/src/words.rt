//! The words of a command line.

ghost use Rattle.std.specs.Prelude.{◌≡◌, map, string_bytes, Some, None, IfOk, IfErr};
ghost use Rattle.vata_core.specs.CheckRequest.{check_request_of, check_usage_line};
ghost use Rattle.vata_core.specs.Request.{request_of, usage_line};
ghost use Rattle.vata_core.specs.Refusals.{IsTaken, request_for, untaken_line};
ghost use Rattle.vata_core.specs.Usage.{fault_line};

use vata_words::{Dir, Encoding, Request, WordFault};

/// Why words are not taken.
#[derive(Clone, Copy, Debug, PartialEq, Eq)]
pub enum Untaken {
    /// They ask for what isn't built.
    NotBuilt,
    Fault(WordFault),
}

/// A command on one automaton.
#[derive(Clone, Copy, Debug)]
pub enum UnaryCommand {
    /// The canonical form, with a trim that of the automaton without its useless states.
    Load { trim: bool },
    /// The greatest simulation of this direction.
    Sim { dir: Dir },
    /// The quotient.
    Red,
}

/// A command on two automata.
#[derive(Clone, Copy, Debug)]
pub enum BinaryCommand {
    Union { trim: bool },
    Isect { trim: bool },
    /// Whether the first is included in the second, by a search of this direction, with or without
    /// simulations. `budget` is from 1 to 1,000,000.
    Incl { dir: Dir, sim: bool, budget: u64 },
}

/// What a run has to do, with the names of its files.
#[derive(Clone, Copy, Debug)]
pub enum Task<'a> {
    Unary {
        command: UnaryCommand,
        file: &'a str,
    },
    Binary {
        command: BinaryCommand,
        first: &'a str,
        second: &'a str,
    },
}

/// What the words ask for. Takes no memory.
#[tactic(auto, unfolding(crate::specs::Request::request_of, crate::specs::Request::usage_line))]
pub fn task_of(words: &[String]) -> Result<Task<'_>, Untaken>
    ensures ok { IfOk result (λ task. request_of (map string_bytes words.now) ≡ Some (request_for task)) }
    ensures taken { IfOk result IsTaken }
    ensures err { IfErr result (λ untaken. (request_of (map string_bytes words.now) ≡ None)
        × (usage_line (map string_bytes words.now) ≡ untaken_line untaken)) }
{
    match vata_words::request_of(words) {
        Ok(
            Request::Load {
                encoding: Encoding::Expl,
                trim,
                file,
            },
        ) => Ok(Task::Unary {
            command: UnaryCommand::Load { trim },
            file: words[file].as_str(),
        }),
        Ok(
            Request::Union {
                encoding: Encoding::Expl,
                trim,
                first,
                second,
            },
        ) => Ok(Task::Binary {
            command: BinaryCommand::Union { trim },
            first: words[first].as_str(),
            second: words[second].as_str(),
        }),
        Ok(
            Request::Isect {
                encoding: Encoding::Expl,
                trim,
                first,
                second,
            },
        ) => Ok(Task::Binary {
            command: BinaryCommand::Isect { trim },
            first: words[first].as_str(),
            second: words[second].as_str(),
        }),
        Ok(
            Request::Sim {
                encoding: Encoding::Expl,
                dir,
                file,
            },
        ) => Ok(Task::Unary {
            command: UnaryCommand::Sim { dir },
            file: words[file].as_str(),
        }),
        Ok(
            Request::Red {
                encoding: Encoding::Expl,
                file,
            },
        ) => Ok(Task::Unary {
            command: UnaryCommand::Red,
            file: words[file].as_str(),
        }),
        Ok(
            Request::Incl {
                encoding: Encoding::Expl,
                dir: Dir::Up,
                sim,
                budget,
                first,
                second,
            },
        ) => Ok(Task::Binary {
            command: BinaryCommand::Incl {
                dir: Dir::Up,
                sim,
                budget,
            },
            first: words[first].as_str(),
            second: words[second].as_str(),
        }),
        Ok(_) => Err(Untaken::NotBuilt),
        Err(fault) => Err(Untaken::Fault(fault)),
    }
}

/// The files of a check. Takes no memory.
#[tactic(auto, unfolding(crate::specs::CheckRequest::check_request_of, crate::specs::CheckRequest::check_usage_line))]
pub fn files_to_check(words: &[String]) -> Result<(&str, &str, &str), WordFault>
    ensures ok { IfOk result (λ n. check_request_of (map string_bytes words.now)
        ≡ Some (record { first = n.0.now; second = n.1.now; certificate = n.2.now })) }
    ensures err { IfErr result (λ fault. (check_request_of (map string_bytes words.now) ≡ None)
        × (check_usage_line (map string_bytes words.now) ≡ fault_line fault)) }
{
    match vata_words::check_request_of(words) {
        Ok(asked) => Ok((
            words[asked.first].as_str(),
            words[asked.second].as_str(),
            words[asked.certificate].as_str(),
        )),
        Err(fault) => Err(fault),
    }
}
