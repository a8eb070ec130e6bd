//! Violations of the rules.
use vol_free::FreeFault;

/// The first violation of a rule of soundness. An entry is identified by its directory and its slot.
#[derive(Clone, Copy)]
pub enum Finding {
    /// Rule 1: the image is too short for a super-block, or shorter than its super-block says.
    TooShort,
    /// Rule 2: the sizes in the super-block are out of range.
    BadSizes,
    /// Rule 3: the mode of this i-node isn't valid in the edition.
    OddMode(u16),
    /// Rule 3: the root isn't a directory.
    RootKind,
    /// Rule 3: i-number 1 of the seventh edition is neither free nor a regular file.
    BadBlocksKind,
    /// Rule 4: this file is larger than its block map allows.
    TooLarge(u16),
    /// Rule 4: the link count of this i-node is above the limit.
    TooManyLinks(u16),
    /// Rule 5: this i-node has this address in its block map, which is not the number of a data block.
    OutOfZone(u16, u32),
    /// Rule 6: walking the free list ends with this fault, caused by this count or block number.
    FreeList(FreeFault, u32),
    /// Rule 7: the block map of this i-node has this block, which an earlier address already points to.
    Twice(u16, u32),
    /// Rule 7: this block is used by a file and is also in the free list.
    UsedAndFree(u32),
    /// Rule 8: this data block is neither free nor used by a file.
    Lost(u32),
    /// Rule 9: the size of this directory is not a whole number of slots.
    PartSlot(u16),
    /// Rule 9: the entry in this slot of this directory has an empty name.
    NoName(u16, u32),
    /// Rule 9: the name of the entry in this slot of this directory has a slash.
    Slash(u16, u32),
    /// Rule 9: the i-number in this slot of this directory is not in the range from the root's to the last.
    BadNumber(u16, u32),
    /// Rule 9: the entry in this slot of this directory is for a free i-node.
    FreeInode(u16, u32),
    /// Rule 9: the entry in this slot of this directory has the same name as an earlier one.
    SameName(u16, u32),
    /// Rule 10: this directory has no entry `.` for itself.
    NoDot(u16),
    /// Rule 10: this directory has no entry `..` for its parent.
    NoDotDot(u16),
    /// Rule 11: the entry in this slot of this directory is for the root.
    RootEntered(u16, u32),
    /// Rule 11: the entry in this slot of this directory is the second entry for a directory.
    EnteredTwice(u16, u32),
    /// Rule 11: this directory isn't reached from the root.
    Unreached(u16),
    /// Rule 12: there are this many entries for this i-node, and this is its link count. They differ, or both are 0 and the i-node needs an entry.
    BadLinks(u16, u64, u16),
}
