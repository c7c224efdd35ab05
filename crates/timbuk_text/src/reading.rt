//! Reading a whole text, token by token.

ghost use Rattle.std.specs.Prelude.{◌≡◌, ℕ, ◌<◌, ◌≤◌, length, IfOk, OnOk, IsErrOf};
ghost use Rattle.ta_model.specs.Listing.{IsListed};
ghost use Rattle.timbuk_definitions.specs.Place.{IsBadPlace, PassesLimit, PassesNoLimit};
ghost use Rattle.timbuk_definitions.specs.Reading.{Spells};
ghost use Rattle.timbuk_text.specs.Store.{store_of, empty};
ghost use Rattle.timbuk_text.specs.Reading.{IsReading, automaton_of};
ghost use Rattle.timbuk_text.specs.Taking.{limit_of};

use crate::error::{Counted, TextError};
use crate::scan::{gap_end, token_at};
use crate::table::{Stand, may_end, next};
use crate::tables::{Stop, Tables};
use ta_model::Listed;

/// Takes the token that begins at `at`, and gives the place of the next one and the stand there.
fn turn(
    text: &[u8],
    at: usize,
    stand: Stand,
    tables: &mut Tables,
) -> Result<(usize, Stand), TextError>
    requires inside { at < length text.now }
    requires reading { IsReading text.now at stand (store_of tables.old) }
    ensures ok { IfOk result (λ r. IsReading text.now r.0 r.1 (store_of tables.new)) }
    ensures on { IfOk result (λ r. (at < r.0) × (r.0 ≤ length text.now)) }
    ensures syntax { (p : ℕ) → IsErrOf result (TextError.Syntax p) → IsBadPlace text.now p × PassesNoLimit text.now }
    ensures limit { (what : Counted) (p : ℕ) → IsErrOf result (TextError.Limit what p) → PassesLimit text.now (limit_of what) p }
{
    let (sight, end) = token_at(text, at);
    let Some(step) = next(stand, sight) else {
        return Err(TextError::Syntax { at: at as u64 });
    };
    match tables.take(step.action, &text[at..end]) {
        Ok(()) => Ok((gap_end(text, end), step.stand)),
        Err(Stop::Limit(what)) => Err(TextError::Limit {
            what,
            at: at as u64,
        }),
        Err(Stop::Memory) => Err(TextError::Memory),
    }
}

/// Reads the text into empty tables.
fn read_into(text: &[u8], tables: &mut Tables) -> Result<(), TextError>
    requires { store_of tables.old ≡ empty }
    ensures listed { OnOk result (IsListed (automaton_of (store_of tables.new))) }
    ensures ok { OnOk result (Spells text.now (automaton_of (store_of tables.new)) × PassesNoLimit text.now) }
    ensures syntax { (p : ℕ) → IsErrOf result (TextError.Syntax p) → IsBadPlace text.now p × PassesNoLimit text.now }
    ensures limit { (what : Counted) (p : ℕ) → IsErrOf result (TextError.Limit what p) → PassesLimit text.now (limit_of what) p }
{
    let mut stand = Stand::Start;
    let mut at = gap_end(text, 0);
    while at < text.len() {
        (at, stand) = turn(text, at, stand, tables)?;
    }
    if !may_end(stand) {
        return Err(TextError::Syntax {
            at: text.len() as u64,
        });
    }
    Ok(())
}

/// The automaton that the text spells.
pub fn listed_of(text: Vec<u8>) -> Result<Listed, TextError>
    ensures ok { IfOk result (λ a. Spells text.items a × PassesNoLimit text.items) }
    ensures syntax { (p : ℕ) → IsErrOf result (TextError.Syntax p) → IsBadPlace text.items p × PassesNoLimit text.items }
    ensures limit { (what : Counted) (p : ℕ) → IsErrOf result (TextError.Limit what p) → PassesLimit text.items (limit_of what) p }
{
    let mut tables = Tables::new(*text.allocator());
    match read_into(&text, &mut tables) {
        Ok(()) => {
            // The text and the lists need not be held at once.
            drop(text);
            Ok(tables.into_listed()?)
        }
        Err(error) => Err(error),
    }
}
