//! What a command counts.

/// What has a limit for a command. The variants stand in the order in which they are looked at.
#[derive(Clone, Copy, Debug, PartialEq, Eq)]
pub enum Measure {
    /// The symbols of two automata together.
    Symbols,
    /// The pairs of states that one tree reaches.
    Pairs,
    /// The rules of a product.
    Rules,
    /// The states between which a relation holds.
    Relation,
}
