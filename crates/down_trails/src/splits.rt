//! The tuples that a split divides.

ghost use Rattle.std.specs.Prelude.{◌≡◌, ◌<◌, ◌↔◌, ℕ, IfOk, length};
ghost use Rattle.ta_model.specs.Tuples.{kids_of};
ghost use Rattle.listed_pairs.specs.DownEntries.{FitDownEntries, entries_of};
ghost use Rattle.down_conditions.specs.Filing.{AreBySymbol};
ghost use Rattle.down_trails.specs.Entries.{AreOfStates, IsDivided, SplitsInto};

use crate::entry::pair_of;
use crate::tuples::tuples_to;
use listed_pairs::DownEntry;
use ranked_alphabet::Alphabet;
use std::alloc::{AllocError, Global};
use ta_model::{Kids, Listed};
use trim_ops::RuleIndex;

/// The tuples that a split of this entry's pair by the rule at place r divides, in rising order.
pub(crate) fn tuples_of(
    alloc: Global,
    a: &Listed,
    b: &Listed,
    alphabet: &Alphabet,
    by_symbol: &RuleIndex,
    entries: &[DownEntry],
    e: u32,
    r: u32,
) -> Result<Vec<Kids>, AllocError>
    requires alphabet { alphabet.now ≡ b.now.symbols }
    requires by_symbol { AreBySymbol b.now.rules by_symbol.now }
    requires size { length by_symbol.now ≡ length b.now.symbols }
    requires fits { FitDownEntries a.now b.now (entries_of entries.now) }
    requires divided { IsDivided a.now (entries_of entries.now) e r }
    ensures split { IfOk result (λ v. SplitsInto a.now b.now (entries_of entries.now) e r (kids_of v.items)) }
    ensures states { IfOk result (λ v. AreOfStates b.now (kids_of v.items)) }
{
    // The calls tell the proof that the rules of both automata fit.
    let _rules = b.rules();
    let rule = &a.rules()[r as usize];
    let symbol = &a.symbols()[rule.symbol as usize];
    let Some(pair) = pair_of(&entries[e as usize]) else {
        return Ok(Vec::new(alloc));
    };
    tuples_to(alloc, b, alphabet, by_symbol, symbol, &pair.set)
}
