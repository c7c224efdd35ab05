//! Printed pairs are read back, and nothing else is read as pairs.

ghost use Rattle.std.specs.Prelude.{◌≡◌, ℕ, ◌<◌, ◌≤◌, ◌++◌, List, All, length, drop};
ghost use Rattle.tree_definitions.specs.Automaton.{Automaton};
ghost use Rattle.tree_definitions.specs.Cover.{Pair, FitsPair};
ghost use Rattle.ta_model.specs.Listing.{IsListed};
ghost use Rattle.listed_pairs.specs.Order.{AreRising};
ghost use Rattle.witness_trees.specs.Judged.{Is};
ghost use Rattle.certificate_lines.specs.Pairs.{pairs_text, pairs_in};
ghost use Rattle.certificate_lines.specs.PairsRead.{ArePairsOf};

/// The text of pairs in rising order, behind any bytes, is read as these pairs.
pub fn printed_pairs_are_read_back()
    ensures { (A B : Automaton) (front : List ℕ) (pairs : List Pair) → IsListed A → IsListed B
        → All (FitsPair A B) pairs → AreRising pairs → length pairs < 4294967295
        → pairs_in A B (front ++ pairs_text A B pairs) (length front) ≡ Is pairs }
{}

/// What stands from a byte to the end of a text is read as pairs only where it is the text of these
/// pairs, which fit A and B and rise.
pub fn only_printed_pairs_are_read()
    ensures { (A B : Automaton) (text : List ℕ) (at : ℕ) (pairs : List Pair) → at ≤ length text
        → pairs_in A B text at ≡ Is pairs → ArePairsOf A B (drop at text) pairs }
{}
