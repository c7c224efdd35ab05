//! A relation that is printed is read back, and nothing else is read as one.

ghost use Rattle.std.specs.Prelude.{◌≡◌, ℕ, ◌+◌, ◌≤◌, ◌++◌, List, length};
ghost use Rattle.tree_definitions.specs.Relation.{Matrix, IsSquare};
ghost use Rattle.witness_trees.specs.Judged.{Is};
ghost use Rattle.certificate_lines.specs.Lines.{Piece};
ghost use Rattle.certificate_lines.specs.Relations.{relation_in, relation_text, IsRelationAt};

/// The lines of a relation between at most 20,000 places are read as that relation, up to the byte
/// behind them, whatever stands before them and behind them.
pub fn printed_relations_are_read_back()
    ensures { (word front rest : List ℕ) (m : Matrix) → IsSquare (length m) m → length m ≤ 20000
        → relation_in word (length m) (front ++ relation_text word m ++ rest) (length front)
        ≡ Is (record { value = m; after = length front + length (relation_text word m) }) }
{}

/// What is read as a relation is one of as many places, of which there are at most 20,000, and what
/// stands there is its lines.
pub fn only_printed_relations_are_read()
    ensures { (word : List ℕ) (n : ℕ) (text : List ℕ) (at : ℕ) (piece : Piece Matrix) → at ≤ length text
        → relation_in word n text at ≡ Is piece → IsRelationAt word n text at piece }
{}
