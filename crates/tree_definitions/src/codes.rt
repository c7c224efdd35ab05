//! Codes and patterns: the patterns of a set of codes, and the lines of a wide automaton.

ghost use Rattle.std.specs.Prelude.{List, ℕ, ◌≡◌, ◌≢◌, ◌↔◌, AllPairs, Contains};
ghost use Rattle.tree_definitions.specs.Tree.{Symbol, Tree};
ghost use Rattle.tree_definitions.specs.Code.{IsCode, LetsThrough, cubes};
ghost use Rattle.tree_definitions.specs.Automaton.{Automaton, Rule, HasRule, IsAutomaton, IsNarrow, IsWide};
ghost use Rattle.tree_definitions.specs.Language.{Accepts};

/// The patterns of a set of codes let each code of the set through exactly once, and no other. They
/// depend on the set alone.
pub fn patterns_let_each_code_through_once()
    ensures once { (w : ℕ) (codes : List (List ℕ)) (code : List ℕ) → IsCode w code → Contains codes code
        → (p : List ℕ) × Contains (cubes w codes) p × LetsThrough p code
        × ((q : List ℕ) → Contains (cubes w codes) q → LetsThrough q code → q ≡ p) }
    ensures no_other { (w : ℕ) (codes : List (List ℕ)) (p code : List ℕ)
        → Contains (cubes w codes) p → LetsThrough p code → IsCode w code × Contains codes code }
    ensures distinct { (w : ℕ) (codes : List (List ℕ)) → AllPairs ◌≢◌ (cubes w codes) }
    ensures set { (w : ℕ) (xs ys : List (List ℕ)) → ((code : List ℕ) → Contains xs code ↔ Contains ys code)
        → cubes w xs ≡ cubes w ys }
{}

/// Wide automata of one width with the same rules have the same labels and the same lines.
pub fn wide_lines_are_determined()
    ensures { (A B : Automaton) → IsAutomaton A → IsAutomaton B → IsWide A → IsWide B → A.bits ≡ B.bits
        → ((a : Symbol) (kids : List ℕ) (p : ℕ) → HasRule A a kids p ↔ HasRule B a kids p)
        → (A.symbols ≡ B.symbols) × ((line : Rule) → Contains A.rules line ↔ Contains B.rules line) }
{}

/// Some wide automaton accepts a tree.
pub fn a_wide_automaton_exists()
    ensures { (A : Automaton) × IsAutomaton A × IsWide A × ¬ IsNarrow A × ((t : Tree) × Accepts A t) }
{}
