//! The lines of a report.
use pdp_words::Bytes;
use vol_free::FreeFault;

/// The kind of one of the totals at the end of a block report.
#[derive(Clone, Copy)]
pub enum Total {
    /// Regular files.
    Files,
    /// Directories.
    Directories,
    /// Special files.
    Special,
    /// I-nodes whose mode isn't one of the edition's.
    Odd,
    /// Data blocks that a block-map position points to.
    Used,
    /// Data blocks that the walk over the free list passed.
    Free,
    /// Data blocks that are neither used nor free.
    Missing,
}

/// A line of a report.
#[derive(Drop)]
pub enum Line {
    /// The image breaks this rule, 1 or 2, and so has no geometry.
    Rule(u8),
    /// `count` block-map positions of an i-node have numbers outside the data blocks, the least of which is `least`.
    Bad {
        inode: u16,
        count: u64,
        least: u64,
    },
    /// `places` block-map positions point to a block, which may also be in the free list: more than one use in all.
    Dup {
        block: u32,
        places: u64,
        free: bool,
    },
    /// No block-map position points to the block, and it isn't in the free list.
    Lost(u32),
    /// The walk over the free list ended with this fault, at this count or number.
    FreeList(FreeFault, u32),
    /// One of the totals of a block report.
    Total(Total, u64),
    /// An i-number, its number of entries, and its link count.
    Links {
        inode: u16,
        entries: u64,
        links: u16,
    },
    /// An i-number, and a path to it.
    Name {
        inode: u16,
        path: Bytes,
    },
}
