//! The line of an entry as written.

ghost use Rattle.std.specs.Prelude.{◌≡◌, ◌+◌, ◌≤◌, IfOk, length, option_map};
ghost use Rattle.witness_trees.specs.Answers.{Spells};
ghost use Rattle.certificate_lines.specs.Telling.{span};
ghost use Rattle.entry_lines.specs.Entries.{entry_written};
ghost use Rattle.entry_lines.specs.Views.{capped_entry, line_view};

use certificate_lines::pairs::spelled_of;
use std::alloc::Global;
use ta_model::Name;
use witness_trees::NodesTextError;
use witness_trees::reader::{call_of, pieces};

/// A line as written: the names of its state and of the members, where its symbol's name stands and
/// which it is, and the numbers of its children. A number over 2^32 is held as 2^32.
#[derive(Debug, Drop)]
pub(crate) struct Line {
    pub(crate) state: Name,
    pub(crate) members: Vec<Name>,
    pub(crate) place: usize,
    pub(crate) name: Name,
    pub(crate) kids: Vec<u64>,
}

/// The line as written, where its spelling is that of an entry.
#[tactic(auto, unfolding(crate::specs::Entries::entry_written))]
pub(crate) fn written_of(alloc: Global, at: u64, line: &[u8]) -> Result<Line, NodesTextError>
    ensures spelled { Spells at line_view result (option_map capped_entry (entry_written line.now)) }
    ensures place { IfOk result (λ found. found.place ≤ length line.now) }
    ensures names { IfOk result (λ found. length found.state + 3 + span found.members.items ≤ length line.now + 1) }
{
    let Ok(words) = pieces(alloc, line, b' ') else {
        return Err(NodesTextError::Memory);
    };
    let count = words.len();
    if count < 2 {
        return Err(NodesTextError::BadText { at });
    }
    if words[count - 2] != b":".as_slice() {
        return Err(NodesTextError::BadText { at });
    }
    let call = words[count - 1];
    let (state, members) = match spelled_of(alloc, at, &words[..count - 2]) {
        Ok(pair) => pair,
        Err(error) => return Err(error),
    };
    match call_of(alloc, at, call) {
        Ok((name, kids)) => Ok(Line {
            state,
            members,
            place: line.len().saturating_sub(call.len()),
            name,
            kids,
        }),
        Err(error) => Err(error),
    }
}
