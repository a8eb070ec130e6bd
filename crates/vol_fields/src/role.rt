//! The roles of blocks.

/// The role of a block. Of a block that an i-node uses it has the i-number, and the first logical block at or below the block.
#[derive(Clone, Copy)]
pub enum Role {
    /// A block before the data zone.
    System,
    /// The slots of a directory of this size.
    Slots { ino: u16, logical: u32, size: u32 },
    /// Bytes of a file of this size.
    Bytes { ino: u16, logical: u32, size: u32 },
    /// An indirect block, with `level` levels of blocks below it.
    Entries { ino: u16, level: u8, logical: u32 },
    /// A chain block of the free list.
    Chain,
    /// Another block of the free list.
    Free,
    /// A block that nothing uses and that isn't in the free list.
    Lost,
    /// A block that is used twice.
    Twice,
    /// A block past the last.
    Outside,
}
