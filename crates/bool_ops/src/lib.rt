//! The union of two automata and their product.
#![tactic(auto)]

mod by_kids;
mod by_place;
mod close;
mod error;
mod intersect;
mod pairs;
mod partners;
mod product;
mod reached;
mod renumber;
mod unite;

pub use error::OpError;
pub use intersect::isect;
pub use unite::union;
