//! What is printed is read back, and nothing else is read.

ghost use Rattle.std.specs.Prelude.{◌≡◌, ℕ, ◌^◌, ◌<◌, List, length, All};
ghost use Rattle.tree_definitions.specs.Name.{IsName};
ghost use Rattle.tree_definitions.specs.Tree.{Symbol};
ghost use Rattle.tree_definitions.specs.Witness.{NodeRow, AreNodes};
ghost use Rattle.witness_trees.specs.Nodes.{NodeList, IsNodeList};
ghost use Rattle.witness_trees.specs.NodesText.{nodes_text};
ghost use Rattle.witness_trees.specs.Judged.{Is, judged};

/// The text of at least one node, over symbols with names, is judged as those nodes.
pub fn printed_nodes_are_read_back()
    ensures { (list : NodeList) → IsNodeList list → All (λ a. IsName a.name) list.symbols
        → 0 < length list.rows → judged list.symbols (nodes_text list) ≡ Is list.rows }
{}

/// A text that is judged to be nodes is the text of these nodes, of which there is at least one, and
/// each fits at its number.
pub fn only_printed_nodes_are_read()
    ensures { (symbols : List Symbol) (text : List ℕ) (rows : List NodeRow) → length text < 2 ^ 62
        → judged symbols text ≡ Is rows
        → AreNodes symbols rows × (0 < length rows)
        × (text ≡ nodes_text (record { symbols = symbols; rows = rows })) }
{}
