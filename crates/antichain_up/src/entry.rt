//! An entry of a search.

use std::marker::Model;
use ta_model::Kids;

/// A left state, the number of a set, and the step to them.
#[derive(Drop)]
pub(crate) struct Entry {
    pub(crate) state: u32,
    pub(crate) set: usize,
    pub(crate) symbol: u32,
    pub(crate) kids: Kids,
}

impl Model for Entry {
    ghost use Rattle.antichain_up.specs.Entries.{EntryRow};

    ghost Value = { EntryRow };

    ghost view = { λ e. record { state = e.state; set = e.set; symbol = e.symbol; kids = e.kids.items } };
}
