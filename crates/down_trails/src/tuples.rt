//! The child tuples of B's rules under a symbol to a set, in rising order.

ghost use Rattle.std.specs.Prelude.{◌≡◌, ◌<◌, ◌↔◌, ℕ, List, All, AllPairs, Contains, IfOk, length};
ghost use Rattle.tree_definitions.specs.Automaton.{Rule as RuleSpec};
ghost use Rattle.tree_definitions.specs.DownTrail.{ListsDowns, Precedes};
ghost use Rattle.tree_definitions.specs.Relation.{IsAt};
ghost use Rattle.ta_model.specs.Tuples.{kids_of};
ghost use Rattle.down_conditions.specs.Filing.{AreBySymbol};

use bit_rows::Row;
use down_conditions::downs::downs;
use ranked_alphabet::Alphabet;
use smallvec::SmallVec;
use std::alloc::{AllocError, Global};
use ta_model::{Kids, Listed, Rule, Symbol};
use trim_ops::RuleIndex;

/// The children of these rules.
fn kids_at(alloc: Global, rules: &[Rule], list: &[u32]) -> Result<Vec<Kids>, AllocError>
    requires { All (λ r. r < length rules.now) list.now }
    ensures { IfOk result (λ v. (tuple : List ℕ) → Contains (kids_of v.items) tuple
        ↔ ((r : ℕ) × (rule : RuleSpec) × Contains list.now r × IsAt rules.now r rule × (rule.kids ≡ tuple))) }
{
    let mut tuples = Vec::with_capacity(alloc, list.len())?;
    for r in list {
        let rule = &rules[*r as usize];
        let kids = SmallVec::from_slice(alloc, rule.kids.as_slice())?;
        tuples.push(kids)?;
    }
    Ok(tuples)
}

/// Each tuple of the list, once, in rising order.
fn rising(tuples: Vec<Kids>) -> Result<Vec<Kids>, AllocError>
    ensures rising { IfOk result (λ v. AllPairs Precedes (kids_of v.items)) }
    ensures members { IfOk result (λ v. (tuple : List ℕ) → Contains (kids_of v.items) tuple ↔ Contains (kids_of tuples.items) tuple) }
{
    let mut sorted = tuples;
    sorted.sort()?;
    sorted.dedup();
    Ok(sorted)
}

/// The distinct child tuples of B's rules under the symbol to the set, in rising order.
pub(crate) fn tuples_to(
    alloc: Global,
    b: &Listed,
    alphabet: &Alphabet,
    by_symbol: &RuleIndex,
    symbol: &Symbol,
    set: &Row,
) -> Result<Vec<Kids>, AllocError>
    requires alphabet { alphabet.now ≡ b.now.symbols }
    requires by_symbol { AreBySymbol b.now.rules by_symbol.now }
    requires size { length by_symbol.now ≡ length b.now.symbols }
    requires set { length set.now ≡ length b.now.states }
    ensures { IfOk result (λ v. ListsDowns b.now symbol.now set.now (kids_of v.items)) }
{
    let list = downs(alloc, b, alphabet, by_symbol, symbol, set)?;
    let all = kids_at(alloc, b.rules(), &list)?;
    rising(all)
}
