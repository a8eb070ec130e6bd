//! The ranges of a file's logical blocks that can't be trusted.
ghost use Rattle.std.specs.Prelude.{◌≡◌, ℕ, ◌+◌, ◌<◌, ◌≤◌, IfOk};
ghost use Rattle.vol_layout.specs.Geometry.{Fits};
ghost use Rattle.vol_losses.specs.Losses.{is_unsure};
ghost use Rattle.vol_losses.specs.Ranges.{is_in, AreApart};

use crate::sure_blocks::next_block;
use pdp_words::Image;
use std::alloc::{AllocError, Global};
use vol_layout::Geometry;

/// Some logical blocks of a file, one after the other.
#[derive(Clone, Copy)]
pub struct LostRange {
    /// The first.
    pub first: u32,
    /// The one after the last.
    pub end: u32,
}

/// Returns the ranges of the logical blocks below `end` of i-node `i`, an i-number of the volume, that can't be trusted. If the block of the
/// i-node is lost, they say nothing.
///
/// Costs what [`next_block`] costs from the first to the last. An error: memory ran out.
pub fn losses(
    alloc: Global,
    image: &Image,
    geometry: &Geometry,
    lost: &[bool],
    i: u16,
    end: u32,
) -> Result<Vec<LostRange>, AllocError>
    requires fits { Fits geometry.now image.now }
    requires first { 1 ≤ i }
    requires last { i ≤ geometry.now.last_inode }
    ensures exact { IfOk result (λ ranges. (b : ℕ) → b < end → is_in ranges.items b ≡ is_unsure geometry.now image.now lost.now i b) }
    ensures apart { IfOk result (λ ranges. AreApart 0 ranges.items (end + 1)) }
{
    let mut ranges = Vec::new(alloc);
    let mut first = next_block(image, geometry, lost, i, true, 0, end);
    while first < end {
        let stop = next_block(image, geometry, lost, i, false, first, end);
        ranges.push(LostRange { first, end: stop })?;
        first = next_block(image, geometry, lost, i, true, stop, end);
    }
    Ok(ranges)
}
