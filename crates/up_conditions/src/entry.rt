//! An entry of an upward trail.

ghost use Rattle.std.specs.Prelude.{◌≡◌};

use listed_pairs::{Pair, UpEntry};

/// The entry's pair.
pub(crate) fn pair_of(entry: &UpEntry) -> &Pair
    ensures { result.now ≡ entry.now.pair }
{
    &entry.pair
}
