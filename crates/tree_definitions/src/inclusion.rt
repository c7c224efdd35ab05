//! What shows that one automaton accepts no more than another, and how long a search for it can be.

ghost use Rattle.std.specs.Prelude.{List, All, ℕ, ◌+◌, ◌*◌, ◌^◌, ◌<◌, ◌≤◌, length};
ghost use Rattle.tree_definitions.specs.Tree.{Tree};
ghost use Rattle.tree_definitions.specs.Automaton.{Automaton, IsAutomaton, IsState};
ghost use Rattle.tree_definitions.specs.Language.{Accepts, Included};
ghost use Rattle.tree_definitions.specs.Relation.{Matrix, Holds, IsAt};
ghost use Rattle.tree_definitions.specs.Cover.{Pair, FitsPair};
ghost use Rattle.tree_definitions.specs.UpCert.{UpCert};
ghost use Rattle.tree_definitions.specs.DownCert.{DownCert};
ghost use Rattle.tree_definitions.specs.UpTrail.{UpEntry, UpTrail};
ghost use Rattle.tree_definitions.specs.DownTrail.{DownEntry, DownTrail, IsPairOf};

/// Where pairs of a state of A and a set of states of B meet the upward certificate, each tree that
/// A accepts is accepted by B. The relations need be neither reflexive nor transitive.
pub fn up_certificate_means_inclusion()
    ensures { (A B : Automaton) (left right : Matrix) (X : List Pair)
        → UpCert A B (Holds left) (Holds right) X → Included A B }
{}

/// Where pairs of a state of A and a set of states of B meet the downward certificate, each tree
/// that A accepts is accepted by B.
pub fn down_certificate_means_inclusion()
    ensures { (A B : Automaton) (both : Matrix) (X : List Pair)
        → IsAutomaton A → IsAutomaton B → All (λ pair. IsState A pair.state) X
        → DownCert A B (Holds both) X → Included A B }
{}

/// A trail by reflexive upward simulations has a budget below the number of pairs of a state of A
/// and a set of states of B.
pub fn upward_trails_are_bounded()
    ensures { (A B : Automaton) (left right : Matrix) (budget : ℕ) (entries : List UpEntry)
        → ((q : ℕ) → IsState A q → Holds left q q)
        → ((s : ℕ) → IsState B s → Holds right s s)
        → ((i : ℕ) (entry : UpEntry) → IsAt entries i entry → FitsPair A B entry.pair)
        → UpTrail A B (Holds left) (Holds right) budget entries
        → budget < length A.states * 2 ^ length B.states }
{}

/// A downward trail has a budget below the number of pairs and of splits: a pair is a state of A
/// and a set of states of B, and a split is a pair, a rule of A and a set for each of at most m
/// children.
pub fn downward_trails_are_bounded()
    ensures { (A B : Automaton) (both : Matrix) (budget m : ℕ) (entries : List DownEntry)
        → IsAutomaton B
        → All (λ rule. length rule.kids ≤ m) A.rules
        → ((i : ℕ) (entry : DownEntry) (pair : Pair) → IsAt entries i entry → IsPairOf entry pair
        → FitsPair A B pair)
        → DownTrail A B (Holds both) budget entries
        → budget < (length A.states * 2 ^ length B.states) * (1 + length A.rules * 2 ^ (m * length B.states)) }
{}

/// The conditions of the upward certificate can be met, by automata that accept something.
pub fn an_upward_certificate_exists()
    ensures { (A : Automaton) × (B : Automaton) × (left : Matrix) × (right : Matrix) × (X : List Pair)
        × IsAutomaton A × IsAutomaton B
        × UpCert A B (Holds left) (Holds right) X × ((t : Tree) × Accepts A t) }
{}

/// The conditions of the downward certificate can be met, by automata that accept something.
pub fn a_downward_certificate_exists()
    ensures { (A : Automaton) × (B : Automaton) × (both : Matrix) × (X : List Pair)
        × IsAutomaton A × IsAutomaton B × All (λ pair. IsState A pair.state) X
        × DownCert A B (Holds both) X × ((t : Tree) × Accepts A t) }
{}
