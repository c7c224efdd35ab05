//! What a search keeps true, and what its ends mean.

ghost use Rattle.std.specs.Prelude.{◌≡◌, ◌≢◌, AllPairs, ℕ, ◌+◌, ◌*◌, ◌^◌, ◌≤◌, List, length};
ghost use Rattle.tree_definitions.specs.Tree.{Symbol};
ghost use Rattle.tree_definitions.specs.Automaton.{Automaton, IsNumber};
ghost use Rattle.tree_definitions.specs.Relation.{Matrix, Holds, Row, Has, IsAt};
ghost use Rattle.tree_definitions.specs.Simulation.{IsUp};
ghost use Rattle.tree_definitions.specs.Cover.{Pair, FitsPair, Rejects};
ghost use Rattle.tree_definitions.specs.UpCert.{UpCert};
ghost use Rattle.tree_definitions.specs.UpTrail.{UpEntry, UpTrail, IsUpStep};
ghost use Rattle.tree_definitions.specs.Witness.{NodeRow, NoCert};
ghost use Rattle.upward_search.specs.Search.{IsOrder, IsKeptOver, IsSearch, AllAccept, IsClosed, Adds, ListsKept};

/// One more step that no kept entry covers keeps all that a search keeps true.
pub fn search_keeps_up()
    ensures { (A B : Automaton) (left right : Matrix) (entries entries' : List UpEntry) (flags flags' : Row) (entry : UpEntry)
        → IsOrder (length A.states) (Holds left) → IsOrder (length B.states) (Holds right)
        → IsSearch A B (Holds left) (Holds right) entries (Has flags) → Adds (Holds left) (Holds right) entries (Has flags) entry entries' (Has flags')
        → IsUpStep A B entries (length entries) entry → FitsPair A B entry.pair
        → (IsKeptOver (Holds left) (Holds right) entries (Has flags) entry.pair.state (Has entry.pair.set) → ⊥)
        → IsSearch A B (Holds left) (Holds right) entries' (Has flags') }
{}

/// Where no entry rejects, and each step from kept entries is covered by a kept one, the pairs of
/// the kept entries are a certificate.
pub fn closed_search_is_certificate()
    ensures { (A B : Automaton) (left right : Matrix) (entries : List UpEntry) (flags : Row) (pairs : List Pair)
        → IsUp A (Holds left) → IsUp B (Holds right) → IsSearch A B (Holds left) (Holds right) entries (Has flags) → AllAccept A B entries
        → IsClosed A B (Holds left) (Holds right) entries (Has flags) (Has flags) → ListsKept entries (Has flags) pairs
        → AllPairs ◌≢◌ pairs → UpCert A B (Holds left) (Holds right) pairs }
{}

/// Where the last entry rejects, the entries are the nodes of a tree that the left automaton
/// accepts and the right one doesn't.
pub fn rejecting_entry_refutes()
    ensures { (A B : Automaton) (left right : Matrix) (entries : List UpEntry) (flags : Row) (last : ℕ) (entry : UpEntry)
        (symbols : List Symbol) (nodes : List NodeRow)
        → IsSearch A B (Holds left) (Holds right) entries (Has flags) → IsAt entries last entry → Rejects A B entry.pair
        → length nodes ≡ last + 1
        → ((k : ℕ) (a : Symbol) → IsNumber A.bits A.symbols k a → IsAt symbols k a)
        → ((i : ℕ) (x : UpEntry) → IsAt entries i x → IsAt nodes i (record { symbol = x.symbol; kids = x.kids }))
        → NoCert A B symbols nodes }
{}

/// Where no entry rejects, a search with one entry more than its budget is a trail.
pub fn full_search_is_trail()
    ensures { (A B : Automaton) (left right : Matrix) (entries : List UpEntry) (flags : Row) (budget : ℕ)
        → IsUp A (Holds left) → IsUp B (Holds right) → IsSearch A B (Holds left) (Holds right) entries (Has flags) → AllAccept A B entries
        → length entries ≡ budget + 1 → UpTrail A B (Holds left) (Holds right) budget entries }
{}

/// A budget of all pairs is never passed.
pub fn trails_are_bounded()
    ensures { (A B : Automaton) (left right : Matrix) (entries : List UpEntry) (flags : Row) (budget : ℕ)
        → IsUp A (Holds left) → IsUp B (Holds right) → IsOrder (length A.states) (Holds left) → IsOrder (length B.states) (Holds right)
        → IsSearch A B (Holds left) (Holds right) entries (Has flags) → AllAccept A B entries
        → length A.states * 2 ^ length B.states ≤ budget → length entries ≡ budget + 1 → ⊥ }
{}
