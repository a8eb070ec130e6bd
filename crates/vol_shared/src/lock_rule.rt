//! The knowledge of a seat at the lock's table, the table's invariant, and the effect of each step.
ghost use Rattle.vol_shared.specs.Plays.{Event, Tries, Gives, first_knowledge, kept_part, given_part, as_one, nobody};
ghost use Rattle.vol_shared.specs.Rule.{Locked};

use crate::lock_contents::Stock;
use crate::snapshot::LockedVolume;
use atomic_table::{Join, Play, Seat, Shared, Split, TableRule};
use std::collections::LinkedList;
use std::marker::{Brand, PhantomData};
use vol_receipts::Receipt;
use vol_volume::Record;

/// The knowledge of a seat. No value of it is made.
pub struct Knowledge {
    /// The number of sessions that the seat represents.
    pub parts: u64,
    /// True while the seat holds the volume.
    pub holds: bool,
    /// The volume that was opened.
    pub opened: LockedVolume,
    /// The volume that the seat last took or gave back.
    pub found: LockedVolume,
    /// All records of that volume since it was opened, including records that were cut.
    pub history: LinkedList<Record>,
    /// The numbers of the records that the seat's calls made, in order.
    pub places: LinkedList<u64>,
    /// The numbers that the seat's cuts returned, in order.
    pub cuts: LinkedList<u64>,
    /// The seat's receipts, in order.
    pub receipts: LinkedList<Receipt>,
}

/// The start of a table: the volume that is opened, and the number of sessions.
#[derive(Drop)]
pub struct TableStart {
    pub stock: LockedVolume,
    pub sessions: u64,
}

/// The rule of the table: at most one seat holds the volume.
pub struct OneHolder;

impl TableRule<Option<Stock>, Knowledge, TableStart> for OneHolder {
    ghost holds = { Locked };

    ghost first = { first_knowledge };
}

/// The table as threads see it. Its one word is 1 while a seat holds the volume; otherwise the volume is in
/// its one slot.
pub(crate) type Lock = Shared<Option<Stock>, Knowledge, TableStart, OneHolder>;

/// A session's seat at the table.
pub(crate) type SessionSeat = Seat<Option<Stock>, Knowledge>;

/// An attempt to take the volume.
pub(crate) struct Try;

impl Play<Option<Stock>, Knowledge> for Try {
    ghost then = { Tries };
}

/// The result of the work on a volume that is given back.
pub(crate) trait Telling {
    ghost event: { Event };
}

impl Telling for Brand {
    ghost event = { Event.nothing };
}

/// Gives the volume back, with the result of the work on it.
pub(crate) struct Give<J> {
    marker: PhantomData<J>,
}

impl<J: Telling> Play<Option<Stock>, Knowledge> for Give<J> {
    ghost then = { Gives J.event };
}

/// Splits one session off a seat that has done nothing yet.
pub(crate) struct Deal;

impl Split<Knowledge> for Deal {
    ghost left = { kept_part };

    ghost right = { given_part };
}

/// Joins two seats.
pub(crate) struct Gather;

impl Join<Knowledge> for Gather {
    ghost both = { as_one };

    ghost spent = { nobody };
}
