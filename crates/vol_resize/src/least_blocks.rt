//! The fewest blocks that a volume can have.
ghost use Rattle.std.specs.Prelude.{◌≡◌, ◌<◌, length};
ghost use Rattle.vol_resize.specs.Resized.{IsLeastFor};

use vol_layout::Geometry;

/// Returns the fewest blocks that a volume can have in which the blocks with a mark stay: a data zone has at least one block.
pub(crate) fn least_blocks(geometry: &Geometry, used: &[bool]) -> u32
    requires start { geometry.now.zone_start < geometry.now.zone_end }
    requires len { length used.now ≡ geometry.now.zone_end }
    ensures { IsLeastFor geometry.now used.now result }
{
    let mut least = geometry.zone_start + 1;
    for b in geometry.zone_start..geometry.zone_end {
        if used[b as usize] {
            least = b + 1;
        }
    }
    least
}
