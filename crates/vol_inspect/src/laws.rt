//! Laws about the reports on an i-node and on a block, and about pictures. Each function does nothing; its proved contract is the law.
ghost use Rattle.vol_inspect.specs.Laws.{HidesNoFault, HidesNoGap, MarksAreRight, NoUseHasMore, ShowsLost, ShowsPlaces};

/// The extents of an i-node are the blocks in its block map, in its order, each with the number of levels of blocks below it and the first logical
/// block at or below its position.
pub fn extents_are_what_places_name()
    ensures { ShowsPlaces }
{}

/// A data block is shown without an owner, as lost, if and only if the block report has it as lost.
pub fn lost_blocks_have_no_owners()
    ensures { ShowsLost }
{}

/// A cell that shows a use has no more blocks of any other use.
pub fn cells_show_the_most_common_use()
    ensures { NoUseHasMore }
{}

/// A cell that shows a use hides no block that is lost or named twice.
pub fn cells_hide_no_fault()
    ensures { HidesNoFault }
{}

/// A cell that shows a use hides no block that is unreadable or of unknown use, and a cell that shows such a gap hides no fault.
pub fn cells_hide_no_gap()
    ensures { HidesNoGap }
{}

/// A cell that is marked as faulty has a block that is lost or named twice, one that is marked as unsure has a block that is unreadable or of unknown use, and
/// a blank one has no block that is shown.
pub fn marks_are_right()
    ensures { MarksAreRight }
{}
