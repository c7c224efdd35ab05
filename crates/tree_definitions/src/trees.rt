//! Trees: their ranks, and the trees of numbered nodes.

ghost use Rattle.std.specs.Prelude.{List, ℕ, ◌≡◌, ◌<◌, length};
ghost use Rattle.tree_definitions.specs.Tree.{Tree, Symbol, IsRanked};
ghost use Rattle.tree_definitions.specs.Automaton.{Automaton, IsAutomaton};
ghost use Rattle.tree_definitions.specs.Language.{Reaches};
ghost use Rattle.tree_definitions.specs.Witness.{NodeRow, AreNodes, IsTreeOf};

/// A tree that reaches a state has, at each of its symbols, as many subtrees as the rank says. So
/// it loses nothing to speak of all trees, ranked or not.
pub fn only_ranked_trees_are_reached()
    ensures { (A : Automaton) → IsAutomaton A
        → (t : Tree) (q : ℕ) → Reaches A t q → IsRanked t }
{}

/// In a list of nodes whose children are earlier nodes, each number has exactly one tree.
pub fn each_node_has_one_tree()
    ensures some { (symbols : List Symbol) (nodes : List NodeRow) → AreNodes symbols nodes
        → (k : ℕ) → k < length nodes → (t : Tree) × IsTreeOf symbols nodes k t }
    ensures one { (symbols : List Symbol) (nodes : List NodeRow) (k : ℕ) (t u : Tree)
        → IsTreeOf symbols nodes k t → IsTreeOf symbols nodes k u → t ≡ u }
{}
