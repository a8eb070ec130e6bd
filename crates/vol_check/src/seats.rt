//! The part of a sweep that one thread holds.
use count_table::TallySeat;
use vol_reports::{EnteredName, FreeFault};

/// A thread's seat in a sweep.
#[derive(Drop)]
pub struct CheckSeat {
    pub(crate) seat: TallySeat,
    /// The fault that ended the walk over the free list, if this seat made that walk.
    pub(crate) fault: Option<(FreeFault, u32)>,
    /// The entries that the seat found in a sweep for names.
    pub(crate) entries: Vec<EnteredName>,
    /// True if the seat drew a number past the pieces.
    pub(crate) ended: bool,
    /// True if the seat ran out of memory.
    pub(crate) spoiled: bool,
}

/// A piece of work, done by the seat that drew its number.
#[derive(Clone, Copy)]
pub struct Piece {
    pub number: u64,
}
