//! The block maps of both editions, and the block path to each logical block of a file.
ghost use Rattle.std.specs.Prelude.{◌≡◌, ◌≤◌, IfSome};
ghost use Rattle.std.specs.Option.{option_map};

use crate::edition::Edition;
use crate::mode::{Kind, Mode};

/// A block map: how the addresses of an i-node point to the blocks of a file.
#[derive(Clone, Copy)]
pub enum BlockMap {
    /// Sixth edition, large flag clear: eight addresses of data blocks.
    Small,
    /// Sixth edition, large flag set: seven addresses of indirect blocks, and an eighth of a doubly indirect block.
    Large,
    /// Seventh edition: ten addresses of data blocks, and one address each of an indirect, a doubly indirect and a triply indirect block.
    Deep,
    /// An i-node without blocks: its kind is free, special or odd.
    Bare,
}

/// The path from an i-node down to a logical block: the index of an address, and the index of an entry in each indirect block.
#[derive(Clone, Copy)]
pub struct BlockPath {
    /// The index of the i-node's address, from 0.
    pub address: usize,
    /// The index of the entry in each indirect block, from 0. Entries at index `depth` and later are unused.
    pub entries: [u32; 3],
    /// The number of indirect blocks on the path.
    pub depth: usize,
}

impl BlockMap {
    ghost use Rattle.vol_layout.specs.BlockMaps.{form_of, block_limit, first_count, levels, last_place, end_of};

    /// Returns the block map of an i-node with this mode.
    pub fn of(edition: Edition, mode: Mode) -> BlockMap
        ensures { result ≡ form_of edition mode.bits }
    {
        match mode.kind(edition) {
            Kind::Regular | Kind::Directory => match edition {
                Edition::V6 if mode.is_large(edition) => BlockMap::Large,
                Edition::V6 => BlockMap::Small,
                Edition::V7 => BlockMap::Deep,
            },
            Kind::Free | Kind::Special | Kind::Odd => BlockMap::Bare,
        }
    }

    /// Returns the number of logical blocks that a file with this block map can have.
    pub fn block_limit(self) -> u32
        ensures { result ≡ block_limit self }
    {
        match self {
            BlockMap::Small => 8,
            BlockMap::Large => 32_768,
            BlockMap::Deep => 2_113_674,
            BlockMap::Bare => 0,
        }
    }

    /// Returns the number of addresses that an i-node with this block map uses.
    pub fn address_count(self) -> usize
        ensures { result ≡ first_count self }
    {
        match self {
            BlockMap::Small | BlockMap::Large => 8,
            BlockMap::Deep => 13,
            BlockMap::Bare => 0,
        }
    }

    /// Returns the number of levels of indirect blocks between address `k` and the data. An i-node has at most 13
    /// addresses, counted from 0.
    pub fn levels(self, k: usize) -> u8
        requires { k ≤ 12 }
        ensures { result ≡ levels self k }
    {
        match self {
            BlockMap::Large if k == 7 => 2,
            BlockMap::Large => 1,
            BlockMap::Deep if k > 9 => k as u8 - 9,
            _ => 0,
        }
    }

    /// Returns the path to a logical block, or `None` if a file with this block map can't have that block.
    #[tactic(auto, unfolding(crate::specs::BlockMaps::last_place))]
    pub fn way(self, block: u32) -> Option<BlockPath>
        ensures end { option_map end_of result ≡ last_place self block }
        ensures depth { IfSome result (λ way. way.depth ≤ 3) }
    {
        match self {
            BlockMap::Small if block < 8 => Some(BlockPath::new(block, [0; 3], 0)),
            BlockMap::Large if block < 1792 => Some(BlockPath::new(
                block / 256,
                [block % 256, 0, 0],
                1,
            )),
            BlockMap::Large if block < 32_768 => {
                Some(BlockPath::new(7, [block / 256 - 7, block % 256, 0], 2))
            }
            BlockMap::Deep if block < 10 => Some(BlockPath::new(block, [0; 3], 0)),
            BlockMap::Deep if block < 138 => Some(BlockPath::new(10, [block - 10, 0, 0], 1)),
            BlockMap::Deep if block < 16_522 => {
                let c = block - 138;
                Some(BlockPath::new(11, [c / 128, c % 128, 0], 2))
            }
            BlockMap::Deep if block < 2_113_674 => {
                let c = block - 16_522;
                Some(BlockPath::new(12, [c / 16_384, c / 128 % 128, c % 128], 3))
            }
            _ => None,
        }
    }
}

impl BlockPath {
    /// Returns the block path through address `address` and the first `depth` of `entries`.
    fn new(address: u32, entries: [u32; 3], depth: usize) -> BlockPath
        ensures address { result.address ≡ address }
        ensures entries { result.entries ≡ entries }
        ensures depth { result.depth ≡ depth }
    {
        BlockPath {
            address: address as usize,
            entries,
            depth,
        }
    }
}
