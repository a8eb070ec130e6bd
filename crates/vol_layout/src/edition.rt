//! The two editions, and the constants that differ between them.
ghost use Rattle.std.specs.Prelude.{◌≡◌};

/// An edition of Unix. Each edition has its own volume layout.
#[derive(Clone, Copy, PartialEq, Eq)]
pub enum Edition {
    /// The Sixth Edition, of 1975.
    V6,
    /// The Seventh Edition, of 1979.
    V7,
}

/// The constants of an edition.
#[derive(Clone, Copy)]
pub struct Constants {
    /// The root's i-number.
    pub root: u16,
    /// The size of an i-node in bytes.
    pub inode_bytes: usize,
    /// The number of i-nodes in a block of the i-list.
    pub inodes_per_block: u16,
    /// The number of block numbers in the array of the free list, in the super-block and in a chain block.
    pub free_slots: u16,
    /// The size in bytes of a block number in the free list and in indirect blocks.
    pub number_bytes: usize,
    /// The number of block numbers in an indirect block.
    pub pointers: u32,
    /// The greatest size of a file in bytes.
    pub greatest: u32,
    /// The exclusive upper limit of block numbers.
    pub number_limit: u32,
    /// The highest link count.
    pub link_limit: u16,
    /// The highest user and group number.
    pub id_limit: u16,
    /// The greatest number of blocks of an i-list: an i-number is a word, and each i-node has an i-number.
    pub list_block_limit: u16,
    /// The greatest number of blocks of a volume: the sixth edition counts blocks in a word, and a block number of the seventh has 24 bits.
    pub block_limit: u32,
}

impl Edition {
    ghost use Rattle.vol_layout.specs.Edition.{constants};

    /// Returns the constants of this edition.
    pub fn constants(self) -> Constants
        ensures { result ≡ constants self }
    {
        match self {
            Edition::V6 => Constants {
                root: 1,
                inode_bytes: 32,
                inodes_per_block: 16,
                free_slots: 100,
                number_bytes: 2,
                pointers: 256,
                greatest: 16_777_215,
                number_limit: 0x1_0000,
                link_limit: 127,
                id_limit: 255,
                list_block_limit: 4095,
                block_limit: 0xffff,
            },
            Edition::V7 => Constants {
                root: 2,
                inode_bytes: 64,
                inodes_per_block: 8,
                free_slots: 50,
                number_bytes: 4,
                pointers: 128,
                greatest: 1_082_201_088,
                number_limit: 0x100_0000,
                link_limit: 32_767,
                id_limit: 32_767,
                list_block_limit: 8191,
                block_limit: 0x100_0000,
            },
        }
    }
}
