//! The division of a volume into blocks.
ghost use Rattle.std.specs.Prelude.{◌≡◌, ◌+◌, IfOk, ◌&&◌, nat_le, nat_lt};
ghost use Rattle.vol_layout.specs.Edition.{constants};

use crate::edition::Edition;
use crate::super_block::Super;
use pdp_words::{BLOCK, Image};
use thiserror::Error;

/// The sizes of a volume.
#[derive(Clone, Copy)]
pub struct Geometry {
    /// The volume's edition.
    pub edition: Edition,
    /// The first block of the data zone: the first after the i-list.
    pub zone_start: u32,
    /// The first block after the data zone, which is also the volume's number of blocks.
    pub zone_end: u32,
    /// The last i-number.
    pub last_inode: u16,
}

/// The reason why an image has no geometry.
#[derive(Clone, Copy, Debug, Error)]
pub enum GeometryFault {
    /// The image has fewer than 1024 bytes, or fewer blocks than its super-block states (rule 1).
    #[error("rule 1")]
    Short,
    /// The sizes in the super-block are out of range (rule 2).
    #[error("rule 2")]
    Bounds,
}

impl Geometry {
    ghost use Rattle.vol_layout.specs.Geometry.{geometry_read, Fits, in_zone};

    /// Reads the geometry from the super-block of an image, which may be any bytes.
    #[tactic(auto, unfolding(crate::specs::Geometry::geometry_read))]
    pub fn read(edition: Edition, image: &Image) -> Result<Geometry, GeometryFault>
        ensures exact { result ≡ geometry_read edition image.now }
        ensures fits { IfOk result (λ geometry. Fits geometry image.now) }
    {
        if image.len() < 1024 {
            return Err(GeometryFault::Short);
        }
        let super_block = Super { edition };
        let list_size = u32::from(super_block.list_size(image));
        let zone_end = super_block.block_count(image);
        let zone_start = match edition {
            Edition::V6 => list_size + 2,
            Edition::V7 => list_size,
        };
        if image.len() < BLOCK * zone_end as usize {
            return Err(GeometryFault::Short);
        }
        if !is_bounded(edition, zone_start, zone_end) {
            return Err(GeometryFault::Bounds);
        }
        let inodes = edition.constants().inodes_per_block;
        Ok(Geometry {
            edition,
            zone_start,
            zone_end,
            last_inode: inodes * (zone_start - 2) as u16,
        })
    }

    /// True if `k` is the number of a data block.
    pub fn in_zone(&self, k: u32) -> bool
        ensures { result ≡ in_zone self.now k }
    {
        self.zone_start <= k && k < self.zone_end
    }
}

/// True if `zone_start` and `zone_end` are valid: the i-list, which begins at block 2, and the data zone have at least one block each, and the sizes
/// are within the edition's limits.
fn is_bounded(edition: Edition, zone_start: u32, zone_end: u32) -> bool
    ensures { result ≡ (nat_le 3 zone_start && (nat_le zone_start ((constants edition).list_block_limit + 2)
        && (nat_lt zone_start zone_end && nat_le zone_end (constants edition).block_limit))) }
{
    let limits = edition.constants();
    3 <= zone_start
        && zone_start <= u32::from(limits.list_block_limit) + 2
        && zone_start < zone_end
        && zone_end <= limits.block_limit
}
