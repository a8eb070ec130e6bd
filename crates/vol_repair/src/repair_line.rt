//! The lines that tell what a repair changed.
use vol_layout::Slot;

/// What differs between an image and its repaired copy, in one place.
#[derive(Clone, Copy)]
pub enum RepairLine {
    /// The i-node was allocated, and is free now.
    Cleared(u16),
    /// The i-node was free or of another kind, and is a new one now.
    Made(u16),
    /// The size of the file in bytes, before and now.
    Size {
        inode: u16,
        old: u32,
        new: u32,
    },
    /// The blocks, the bytes or other fields of the i-node aren't the same.
    Changed(u16),
    /// The link count of the i-node, before and now.
    Links {
        inode: u16,
        old: u16,
        new: u16,
    },
    /// The content of a slot of a directory, before and now. A slot with i-number 0 is empty.
    Entry {
        directory: u16,
        slot: u32,
        old: Slot,
        new: Slot,
    },
    /// The free list was rebuilt: the super-block or a block of the list isn't the same.
    FreeList,
}
