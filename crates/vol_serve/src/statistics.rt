//! The sizes of a volume, in the form that the kernel needs.
ghost use Rattle.std.specs.Prelude.{◌≡◌, IfOk};
ghost use Rattle.vol_layout.specs.Geometry.{Fits};
ghost use Rattle.vol_serve.specs.Statistics.{statistics_of};

use fuse_words::Statistics;
use pdp_words::Image;
use std::alloc::{AllocError, Global};
use vol_inspect::super_report::super_report;
use vol_layout::Geometry;
use vol_layout::slot::NAME;

/// Counts the free blocks and i-nodes of a volume. Takes memory for the walk over the free list, and frees it.
#[tactic(auto, unfolding(crate::specs::Statistics::statistics_of))]
pub fn statistics(
    alloc: Global,
    image: &Image,
    geometry: &Geometry,
) -> Result<Statistics, AllocError>
    requires { Fits geometry.now image.now }
    ensures { IfOk result (λ sizes. sizes ≡ statistics_of geometry.now image.now) }
{
    let report = super_report(alloc, image, geometry)?;
    Ok(Statistics {
        blocks: u64::from(geometry.zone_end - geometry.zone_start),
        free_blocks: report.free_blocks as u64,
        available_blocks: report.free_blocks as u64,
        inodes: u64::from(geometry.last_inode),
        free_inodes: u64::from(report.free_inodes),
        block_size: 512,
        name_length: NAME as u32,
        fragment_size: 512,
    })
}
