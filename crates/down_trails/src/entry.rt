//! The pair of an entry.

ghost use Rattle.std.specs.Prelude.{IfNone, IfSome};
ghost use Rattle.tree_definitions.specs.Cover.{Pair as PairSpec};
ghost use Rattle.tree_definitions.specs.DownTrail.{IsPairOf};
ghost use Rattle.listed_pairs.specs.DownEntries.{entry_of};

use listed_pairs::{DownEntry, Pair};

/// The entry's pair, if it has one.
pub(crate) fn pair_of(entry: &DownEntry) -> Option<&Pair>
    ensures none { IfNone result ((pair : PairSpec) → IsPairOf (entry_of entry.now) pair → ⊥) }
    ensures some { IfSome result (λ pair. IsPairOf (entry_of entry.now) pair.now) }
{
    match entry {
        DownEntry::Root { pair } => Some(pair),
        DownEntry::Child {
            pair,
            split: _,
            place: _,
        } => Some(pair),
        DownEntry::Split {
            pair: _,
            rule: _,
            choice: _,
        } => None,
    }
}
