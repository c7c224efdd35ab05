//! Rules by parent, then by symbol, in clusters that tables share.
#![tactic(auto)]

mod cluster;
mod clusters;
mod group;

pub use clusters::Clusters;
pub use group::copied;
