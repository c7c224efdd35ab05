//! Tree automata as lists: names, ranked symbols, rules, and the automaton that they make. `Table`
//! and `Joint` are one automaton and two in an encoding.
#![tactic(auto)]

mod joint;
mod laws;
mod listed;
mod macrostates;
mod name;
mod rule;
mod symbol;
mod table;
mod tuples;

pub use joint::{DownGroup, Joint, PairError, UpGroup};
pub use laws::restrictions_have_one_canonical_form;
pub use listed::Listed;
pub use macrostates::MacroStore;
pub use name::{Name, NameError};
pub use rule::{Kids, Rule};
pub use symbol::Symbol;
pub use table::{Class, Table, UpClass};
pub use tuples::Tuples;
