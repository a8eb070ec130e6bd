//! The record of the steps of a seat, the invariant of the table, and the effect of each step.
ghost use Rattle.count_table.specs.Views.{Drew, Marked, MarkedTimes, MarkedAgain, kept_half, given_half, joined, blank, first_view};
ghost use Rattle.count_table.specs.Rule.{Kept};

use atomic_table::{Join, Play, Seat, Split, TableRule};
use std::collections::LinkedList;

/// The amount that a step added to a count, or the value that it offered to a minimum.
#[derive(Clone, Copy)]
pub struct Mark {
    pub word: u64,
    pub amount: u64,
}

/// The record of the steps of a seat. Only proofs use it.
pub struct SeatView {
    /// The number of parts of the table's work that the seat holds.
    pub parts: u64,
    /// The numbers of the pieces that the seat drew, in order.
    pub draws: LinkedList<u64>,
    /// The marks that the seat made, in order.
    pub marks: LinkedList<Mark>,
    /// The number of marks of 1 made by the last step, if it was a `count_times`; else 1.
    pub times: u64,
}

/// The shape of a table: the number of pieces of work, of counts, of minimums and of seats.
#[derive(Clone, Copy)]
pub struct TableShape {
    pub pieces: u64,
    pub counts: u64,
    pub leasts: u64,
    pub seats: u64,
}

/// The seat of a thread at a table.
pub type TallySeat = Seat<(), SeatView>;

/// The invariant of the table.
pub struct AllCounted;

impl TableRule<(), SeatView, TableShape> for AllCounted {
    ghost holds = { Kept };

    ghost first = { first_view };
}

/// A step that draws a piece of work.
pub(crate) struct Claim;

impl Play<(), SeatView> for Claim {
    ghost then = { Drew };
}

/// A step that makes one mark.
pub(crate) struct MarkMade;

impl Play<(), SeatView> for MarkMade {
    ghost then = { Marked };
}

/// A step that makes several marks of amount 1.
pub(crate) struct MarksMade;

impl Play<(), SeatView> for MarksMade {
    ghost then = { MarkedTimes };
}

/// A step that makes the same mark as often as the previous step made a mark of 1.
pub(crate) struct MarksRepeated;

impl Play<(), SeatView> for MarksRepeated {
    ghost then = { MarkedAgain };
}

/// Splitting one part off a seat that has not made a step yet.
pub(crate) struct Give;

impl Split<SeatView> for Give {
    ghost left = { kept_half };

    ghost right = { given_half };
}

/// Joining two seats.
pub(crate) struct Gather;

impl Join<SeatView> for Gather {
    ghost both = { joined };

    ghost spent = { blank };
}
