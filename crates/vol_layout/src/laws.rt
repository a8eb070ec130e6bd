//! Laws about the definitions of positions in a block map, of the blocks they point to, and of file bodies. These functions do nothing: their purpose
//! is the contract, which is proved.
ghost use Rattle.vol_layout.specs.Laws.{
  HoldsWhatIsNamed,
  HasWaysBelowLimit,
  EndsWaysAtPlaces,
  EndsWaysApart,
  OrdersWays,
  PlacesInodes,
  PlacesInodesApart,
  ReadsBodyByBlocks,
  LeavesOtherBodies,
};

/// A position in the block map points to block `k` by the rules of the manual, applied step by step, if and only if the function that computes block
/// numbers returns `k`, and `k` isn't 0.
pub fn names_follow_the_rules()
    ensures { HoldsWhatIsNamed }
{}

/// A logical block has a path if and only if it is below the block map's limit. The path ends at a position that points to a data block; the
/// positions for different logical blocks are different, and are in the same order as the blocks.
pub fn ways_end_at_places()
    ensures limit { HasWaysBelowLimit }
    ensures places { EndsWaysAtPlaces }
    ensures apart { EndsWaysApart }
    ensures order { OrdersWays }
{}

/// Each i-node is in the block and at the byte given by the manual's formula, after the super-block and before the data zone. No two i-nodes overlap.
pub fn inodes_stand_apart()
    ensures formula { PlacesInodes }
    ensures apart { PlacesInodesApart }
{}

/// The body of a file consists of the bytes of its data blocks, with zeros for holes.
pub fn bodies_are_blocks()
    ensures { ReadsBodyByBlocks }
{}

/// A write to a data block to which a file doesn't point leaves the file's i-node and body unchanged.
pub fn writes_leave_other_bodies()
    ensures { LeavesOtherBodies }
{}
