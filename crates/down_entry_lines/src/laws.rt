//! A budget and entries that are printed are read back, and nothing else is read.

ghost use Rattle.std.specs.Prelude.{◌≡◌, ℕ, ◌≤◌, ◌++◌, List, drop, length};
ghost use Rattle.tree_definitions.specs.Automaton.{Automaton};
ghost use Rattle.tree_definitions.specs.DownTrail.{DownEntry};
ghost use Rattle.ta_model.specs.Listing.{IsListed};
ghost use Rattle.listed_pairs.specs.DownEntries.{AreDownEntries};
ghost use Rattle.witness_trees.specs.Judged.{Is};
ghost use Rattle.certificate_lines.specs.Budgets.{Budgeted};
ghost use Rattle.down_entry_lines.specs.Entries.{down_entries_in, down_entries_text};
ghost use Rattle.down_entry_lines.specs.Fitting.{AreRanksNumbers};

/// The text of a budget and entries that fit, behind any bytes, is read as these, where the ranks of
/// A's symbols are numbers of 64 bits, as they are in memory.
pub fn printed_down_entries_are_read_back()
    ensures { (A B : Automaton) (front : List ℕ) (budget : ℕ) (entries : List DownEntry) → IsListed A → IsListed B
        → AreRanksNumbers A → AreDownEntries A B budget entries
        → down_entries_in A B (front ++ down_entries_text A B budget entries) (length front)
        ≡ Is (record { budget = budget; entries = entries }) }
{}

/// What stands from a byte to the end of a text is read as a budget and entries only where these fit
/// and it is their text.
pub fn only_printed_down_entries_are_read()
    ensures { (A B : Automaton) (text : List ℕ) (at : ℕ) (found : Budgeted DownEntry) → at ≤ length text
        → down_entries_in A B text at ≡ Is found
        → AreDownEntries A B found.budget found.entries × (drop at text ≡ down_entries_text A B found.budget found.entries) }
{}
