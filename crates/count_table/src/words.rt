//! The table, and its words once threads no longer share it.
ghost use Rattle.std.specs.Prelude.{◌≡◌, ◌+◌};
ghost use Rattle.std.specs.Slots.{slots_len, IsFull};

use crate::rule::{AllCounted, SeatView, TableShape};
use atomic_table::{Closed, Table};
use std::alloc::Global;

/// A table of counts that threads update without a lock.
#[derive(Drop)]
pub struct Tally {
    pub(crate) table: Table<(), SeatView, TableShape, AllCounted, Global>,
    ghost wide: { table.shared.table_id.words ≡ 1 + (table.shared.key.counts + table.shared.key.leasts) },
    ghost bare: { table.shared.table_id.slots ≡ 0 },
}

/// The final words of a table.
pub struct Summed {
    pub(crate) closed: Closed<(), Global>,
    ghost full: { IsFull closed.words },
    ghost bare: { slots_len closed.slots ≡ 0 },
}

impl Drop for Summed {
    fn drop(self) {
        let Summed { closed } = self;
        closed.free();
    }
}
