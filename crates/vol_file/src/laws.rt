//! Laws about the lists of positions in a block map, and about the number of blocks that a write needs. These functions do nothing: their purpose is
//! the contract, which is proved.
ghost use Rattle.vol_file.specs.Laws.{
  ListsPlaces,
  ListsPlacesOnce,
  CountsBlockByBlock,
  NeedsNothingForNothing,
  MissesWhatIsUnnamed,
  TakesWhatIsNeeded,
  TouchesWhereBytesLie,
};

/// The list of positions in a block map contains each position once, and nothing else.
pub fn places_are_listed_once()
    ensures all { ListsPlaces }
    ensures once { ListsPlacesOnce }
{}

/// The number of blocks that a write needs is the same counted over all positions in the block map and counted logical block by logical block, where
/// a position shared with an earlier block is counted once. A write of no bytes needs no block.
pub fn need_is_counted_by_blocks()
    ensures count { CountsBlockByBlock }
    ensures nothing { NeedsNothingForNothing }
{}

/// A write allocates a block for each position in the block map on the paths of the touched logical blocks that points to no block, and for no other
/// position. The number of these blocks is the number that the write needs, even if a small file becomes large.
pub fn blocks_are_taken_for_what_is_missing()
    ensures missing { MissesWhatIsUnnamed }
    ensures needed { TakesWhatIsNeeded }
{}

/// A logical block is touched by a range of bytes if and only if it contains one of them.
pub fn blocks_are_touched_where_bytes_lie()
    ensures { TouchesWhereBytesLie }
{}
