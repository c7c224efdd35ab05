//! The reader of files.

ghost use Rattle.std.specs.Prelude.{◌≡◌, ◌⊎◌, ℕ, ◌<◌, ◌+◌, ◌++◌, [], false, true, length, IfOk, OnOk, OnErr, IsErr, IsErrOf, MatchResult};
ghost use Rattle.tree_definitions.specs.Automaton.{Automaton};
ghost use Rattle.timbuk_definitions.specs.Place.{IsBadPlace, PassesLimit, PassesNoLimit};
ghost use Rattle.timbuk_definitions.specs.Reading.{Spells};
ghost use Rattle.timbuk_text.specs.Taking.{limit_of};

use crate::error::{Counted, TextError};
use crate::reading::listed_of;
use std::alloc::{AllocError, Global};
use std::marker::Model;
use ta_model::Listed;

/// A text that comes in pieces.
#[derive(Drop)]
pub struct Reader {
    text: Vec<u8>,
    failed: bool,
}

impl Model for Reader {
    ghost use Rattle.timbuk_text.specs.Fed.{Fed};

    ghost Value = { Fed };

    ghost view = { λ r. record { text = r.text.items; failed = r.failed } };
}

impl Reader {
    pub fn new(alloc: Global) -> Reader
        ensures { result ≡ record { text = []; failed = false } }
    {
        Reader {
            text: Vec::new(alloc),
            failed: false,
        }
    }

    /// Takes the next piece. After an `Err` each later call answers that memory ran out.
    pub fn feed(&mut self, piece: &[u8]) -> Result<(), AllocError>
        requires { length self.old.text + length piece.now < 4294967295 }
        ensures ok { OnOk result (self.new ≡ record { text = self.old.text ++ piece.now; failed = false }) }
        ensures err { OnErr result (self.new ≡ record { text = self.old.text; failed = true }) }
        ensures failed { self.old.failed ≡ true → IsErr result }
    {
        if self.failed {
            return Err(AllocError);
        }
        match self.text.extend_from_slice(piece) {
            Ok(()) => Ok(()),
            Err(error) => {
                self.failed = true;
                Err(error)
            }
        }
    }

    /// The automaton that the text spells, in the order of the text.
    pub fn finish(self) -> Result<Listed, TextError>
        // Each answer says what the text is,
        ensures ok { IfOk result (λ a. Spells self.text a × PassesNoLimit self.text) }
        ensures syntax { (at : ℕ) → IsErrOf result (TextError.Syntax at) → IsBadPlace self.text at × PassesNoLimit self.text }
        ensures limit { (what : Counted) (at : ℕ) → IsErrOf result (TextError.Limit what at) → PassesLimit self.text (limit_of what) at }

        // and each text has its answer, unless memory runs out.
        ensures spelled { (a : Automaton) → Spells self.text a → PassesNoLimit self.text →
            MatchResult result (λ found. found ≡ a) (λ error. error ≡ TextError.Memory) }
        ensures bad { (at : ℕ) → IsBadPlace self.text at → PassesNoLimit self.text →
            IsErrOf result (TextError.Syntax at) ⊎ IsErrOf result TextError.Memory }
        ensures over { (what : Counted) (at : ℕ) → PassesLimit self.text (limit_of what) at →
            IsErrOf result (TextError.Limit what at) ⊎ IsErrOf result TextError.Memory }
        ensures failed { self.failed ≡ true → IsErrOf result TextError.Memory }
    {
        if self.failed {
            return Err(TextError::Memory);
        }
        listed_of(self.text)
    }
}
