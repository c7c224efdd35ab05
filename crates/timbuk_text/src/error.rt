//! Why a text gives no automaton.

ghost use Rattle.timbuk_text.specs.declared.error.TextError.TheVariants.{Memory};
ghost use Rattle.std.specs.Prelude.{◌≡◌};

use std::alloc::AllocError;
use thiserror::Error;

/// What a file may not have too much of.
#[derive(Clone, Copy, Debug, PartialEq, Eq)]
pub enum Counted {
    /// Bytes of a name: at most 1,000.
    Names,
    /// Children of a symbol: at most 32.
    Rank,
    /// At most 65,535.
    Symbols,
    /// At most 1,000,000.
    States,
    /// At most 2,000,000.
    Rules,
}

/// Why a text gives no automaton. `at` is the offset of a token's first byte.
#[derive(Clone, Copy, Debug, PartialEq, Eq, Error)]
pub enum TextError {
    /// No file begins with the tokens up to this one. At the text's length: no file ends here.
    #[error("syntax at byte {at}")]
    Syntax { at: u64 },
    /// This token takes a count past its limit.
    #[error("too many {what:?} at byte {at}")]
    Limit { what: Counted, at: u64 },
    #[error("out of memory")]
    Memory,
}

impl From<AllocError> for TextError {
    ghost from_gives = { λ _ e. e ≡ Memory };

    fn from(_error: AllocError) -> TextError {
        TextError::Memory
    }
}
