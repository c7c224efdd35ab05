//! Which certificates can be written for two automata.

ghost use Rattle.std.specs.Prelude.{◌≡◌, ◌<◌, ◌≤◌, ◌+◌, ◌↔◌, ℕ, All, IsTrue, length};
ghost use Rattle.tree_definitions.specs.Cover.{FitsPair};
ghost use Rattle.tree_definitions.specs.Relation.{IsAt};
ghost use Rattle.tree_definitions.specs.UpTrail.{UpEntry as Entry};
ghost use Rattle.certificate_kinds.specs.Fitting.{AreUpEntries, FitsUpEntry};
ghost use Rattle.certificate_kinds.specs.Certificates.{FitPairs, Fits, FitsRelation};

use crate::down_fitting::down_entries_fit;
use crate::joint::are_joint;
use bit_matrix::Matrix;
use certificate_kinds::Certificate;
use listed_pairs::{Pair, UpEntry, are_rising};
use ta_model::Listed;

/// Whether the relation is one between so many states.
fn relation_fits(relation: &Matrix, states: usize) -> bool
    ensures { IsTrue result ↔ FitsRelation states relation.now }
{
    relation.size() == states
}

/// Whether the pair has a state of A and a set of states of B.
pub(crate) fn pair_fits(a: &Listed, b: &Listed, pair: &Pair) -> bool
    ensures { IsTrue result ↔ FitsPair a.now b.now pair.now }
{
    (pair.state as usize) < a.states().len() && pair.set.len() == b.states().len()
}

/// Whether it is so for each of them.
fn each_fits(a: &Listed, b: &Listed, pairs: &[Pair]) -> bool
    ensures { IsTrue result ↔ All (FitsPair a.now b.now) pairs.now }
{
    for pair in pairs {
        if !pair_fits(a, b, pair) {
            return false;
        }
    }
    true
}

/// Whether they are pairs of both that rise.
fn pairs_fit(a: &Listed, b: &Listed, pairs: &[Pair]) -> bool
    ensures { IsTrue result ↔ FitPairs a.now b.now pairs.now }
{
    pairs.len() < 4_294_967_295 && each_fits(a, b, pairs) && are_rising(pairs)
}

/// Whether these are places of entries before this one.
fn are_earlier(kids: &[u32], place: usize) -> bool
    ensures { IsTrue result ↔ All (λ k. k < place) kids.now }
{
    for kid in kids {
        if *kid as usize >= place {
            return false;
        }
    }
    true
}

/// Whether the entry at this place has a pair that fits, and a symbol of A over as many earlier
/// entries as its rank.
fn entry_fits(a: &Listed, b: &Listed, place: usize, entry: &UpEntry) -> bool
    ensures { IsTrue result ↔ FitsUpEntry a.now b.now place entry.now }
{
    let symbols = a.symbols();
    if entry.symbol as usize >= symbols.len() {
        return false;
    }
    let symbol = &symbols[entry.symbol as usize];
    pair_fits(a, b, &entry.pair)
        && entry.kids.len() == symbol.rank as usize
        && are_earlier(&entry.kids, place)
}

/// Whether it is so for each of them.
fn each_entry_fits(a: &Listed, b: &Listed, entries: &[UpEntry]) -> bool
    ensures { IsTrue result ↔ ((k : ℕ) (entry : Entry) → IsAt entries.now k entry → FitsUpEntry a.now b.now k entry) }
{
    for place in 0..entries.len() {
        if !entry_fits(a, b, place, &entries[place]) {
            return false;
        }
    }
    true
}

/// Whether they are one more than the budget, which is one, and fit.
fn entries_fit(a: &Listed, b: &Listed, budget: u64, entries: &[UpEntry]) -> bool
    ensures { IsTrue result ↔ AreUpEntries a.now b.now budget entries.now }
{
    if budget < 1 || budget > 1_000_000 {
        return false;
    }
    entries.len() as u64 == budget + 1 && each_entry_fits(a, b, entries)
}

/// Whether the certificate can be written for these automata. Takes no memory.
pub fn fits(a: &Listed, b: &Listed, c: &Certificate) -> bool
    ensures { IsTrue result ↔ Fits a.now b.now c.now }
{
    match c {
        Certificate::Up { left, right, pairs } => {
            relation_fits(left, a.states().len())
                && relation_fits(right, b.states().len())
                && pairs_fit(a, b, pairs)
        }
        Certificate::Down { both, pairs } => {
            relation_fits(both, a.states().len() + b.states().len()) && pairs_fit(a, b, pairs)
        }
        Certificate::Tree { nodes } => {
            if nodes.len() == 0 {
                return false;
            }
            are_joint(a.symbols(), b.symbols(), nodes)
        }
        Certificate::UpTrail {
            left,
            right,
            budget,
            entries,
        } => {
            relation_fits(left, a.states().len())
                && relation_fits(right, b.states().len())
                && entries_fit(a, b, *budget, entries)
        }
        Certificate::DownTrail {
            both,
            budget,
            entries,
        } => {
            relation_fits(both, a.states().len() + b.states().len())
                && down_entries_fit(a, b, *budget, entries)
        }
    }
}
