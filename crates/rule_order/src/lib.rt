//! The rules of a list, parent by parent and each parent's in rising order, and a quick test that no
//! rule stands in a list twice.
#![tactic(auto)]

mod by_parent;
mod fingerprints;

pub use by_parent::{ByParent, Keyed};
pub use fingerprints::may_repeat;
