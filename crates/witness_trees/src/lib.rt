//! Trees as numbered nodes: a symbol and the numbers of earlier nodes, so that equal subtrees are
//! held once.
//!
//! - `Nodes`: a list of symbols, and nodes over them.
//! - `reach`: for each node, the states of an automaton that its tree reaches.
//! - `print`, `read`: the text of nodes. `laws` says that each is the other's inverse. `reader` has
//!   the calls on marks, numbers and symbols over children that other lines share.
#![tactic(auto)]

mod laws;
mod nodes;
mod printer;
pub mod reader;
mod states;
mod symbol_places;

pub use laws::{only_printed_nodes_are_read, printed_nodes_are_read_back};
pub use nodes::{NodeError, Nodes};
pub use printer::{print, put_kids, put_number};
pub use reader::{NodesTextError, read};
pub use states::reach;
pub use symbol_places::SymbolPlaces;
