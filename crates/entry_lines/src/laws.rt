//! A budget and entries that are printed are read back, and nothing else is read.

ghost use Rattle.std.specs.Prelude.{◌≡◌, ℕ, ◌≤◌, ◌++◌, List, drop, length};
ghost use Rattle.tree_definitions.specs.Automaton.{Automaton, IsNarrow};
ghost use Rattle.tree_definitions.specs.UpTrail.{UpEntry};
ghost use Rattle.ta_model.specs.Listing.{IsListed};
ghost use Rattle.witness_trees.specs.Judged.{Is};
ghost use Rattle.entry_lines.specs.Entries.{BudgetedEntries, up_entries_in, up_entries_text};
ghost use Rattle.certificate_kinds.specs.Fitting.{AreUpEntries};

/// The text of a budget and entries that fit, behind any bytes, is read as these.
pub fn printed_up_entries_are_read_back()
    ensures { (A B : Automaton) (front : List ℕ) (budget : ℕ) (entries : List UpEntry) → IsListed A → IsListed B
        → AreUpEntries A B budget entries
        → up_entries_in A B (front ++ up_entries_text A B budget entries) (length front)
        ≡ Is (record { budget = budget; entries = entries }) }
{}

/// What stands from a byte to the end of a text is read as a budget and entries only where these fit
/// and it is their text, where A is narrow.
pub fn only_printed_up_entries_are_read()
    ensures { (A B : Automaton) (text : List ℕ) (at : ℕ) (found : BudgetedEntries) → IsNarrow A → at ≤ length text
        → up_entries_in A B text at ≡ Is found
        → AreUpEntries A B found.budget found.entries × (drop at text ≡ up_entries_text A B found.budget found.entries) }
{}
