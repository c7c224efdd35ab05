//! How the answer to a request comes out.

use crate::loading::Refusal;
use crate::measure::Measure;
use crate::status::Status;
use std::alloc::AllocError;

/// The text that is to be written, and the status of a run that wrote it.
#[derive(Debug, Drop)]
pub struct Reply {
    pub text: Vec<u8>,
    pub status: Status,
}

/// Why a run has no answer.
#[derive(Clone, Copy, Debug, PartialEq, Eq)]
pub enum Halt {
    /// The file at this place, which counts from 0, gives no automaton, or can't be read.
    File { place: u8, refusal: Refusal },
    /// A count of the command is over its number.
    Past { what: Measure },
    Memory,
}

impl From<AllocError> for Halt {
    ghost use Rattle.std.specs.Prelude.{◌≡◌};
    ghost use Rattle.vata_core.specs.declared.halting.Halt.TheVariants.{Memory};

    ghost from_gives = { λ _ e. e ≡ Memory };

    fn from(_error: AllocError) -> Halt {
        Halt::Memory
    }
}
