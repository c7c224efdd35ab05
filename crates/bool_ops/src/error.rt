//! Why a product isn't made.

use std::alloc::AllocError;

/// Why a product isn't made.
#[derive(Clone, Copy, Debug, PartialEq, Eq)]
pub enum OpError {
    /// More than 1,000,000 pairs of states are reached by one tree.
    TooManyStates,
    /// It has more than 2,000,000 rules.
    TooManyRules,
    Memory,
}

impl From<AllocError> for OpError {
    ghost use Rattle.std.specs.Prelude.{◌≡◌};
    ghost use Rattle.bool_ops.specs.declared.error.OpError.TheVariants.{Memory};

    ghost from_gives = { λ _ e. e ≡ Memory };

    fn from(_error: AllocError) -> OpError {
        OpError::Memory
    }
}
