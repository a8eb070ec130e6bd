//! Ranges of blocks that belong to an i-node.
ghost use Rattle.std.specs.Prelude.{◌≡◌, ◌+◌, ◌-◌, ◌<◌, ◌^◌, true};
ghost use Rattle.vol_inspect.specs.Extents.{single, joins, extended};

use vol_layout::Geometry;

/// Consecutive blocks of an i-node that hold consecutive logical blocks; or one indirect block.
#[derive(Clone, Copy)]
pub struct Extent {
    /// The number of levels of blocks below each block: 0 for data, and 1 to 3 for an indirect block.
    pub level: u8,
    /// The logical block that the first block holds, or the first logical block below an indirect block.
    pub logical: u32,
    /// The first block.
    pub block: u32,
    /// The number of blocks: 1 for an indirect block.
    pub count: u32,
    /// True if they are data blocks. A number outside the data blocks reads as a hole, and isn't followed.
    pub inside: bool,
}

impl Extent {
    /// Returns an extent of one block, with `level` levels below it.
    pub(crate) fn single(geometry: &Geometry, level: u8, logical: u32, block: u32) -> Extent
        ensures { result ≡ single geometry.now level logical block }
    {
        Extent {
            level,
            logical,
            block,
            count: 1,
            inside: geometry.in_zone(block),
        }
    }

    /// True if a single data block continues this extent.
    pub(crate) fn joins(&self, next: &Extent) -> bool
        ensures { result ≡ joins self.now next.now }
    {
        self.level == 0
            && next.level == 0
            && self.inside == next.inside
            && u64::from(self.logical) + u64::from(self.count) == u64::from(next.logical)
            && u64::from(self.block) + u64::from(self.count) == u64::from(next.block)
    }

    /// Returns this extent with one more block.
    pub(crate) fn extended(self) -> Extent
        requires { self.count < 2 ^ 32 - 1 }
        ensures { result ≡ extended self }
    {
        Extent {
            count: self.count + 1,
            ..self
        }
    }
}
