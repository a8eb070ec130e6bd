//! Laws about maps and lists. The functions do nothing; their proved contracts are the laws.
ghost use Rattle.bad_maps.specs.Laws.{ListsNameLostBlocks, OneRangeHasAll};

/// A block was read whole if and only if each of its bytes was: ranges that touch are one.
pub fn one_range_has_all()
    ensures { OneRangeHasAll }
{}

/// A block was read whole if and only if the list of lost blocks doesn't name it.
pub fn lists_name_lost_blocks()
    ensures { ListsNameLostBlocks }
{}
