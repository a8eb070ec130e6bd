//! Shortening a file.
ghost use Rattle.std.specs.Prelude.{◌≡◌, ℕ, ◌≤◌, ◌++◌};
ghost use Rattle.vol_layout.specs.declared.mode.Kind.TheVariants as kinds;
ghost use Rattle.vol_file.specs.Rules.{kind_at, size_of};
ghost use Rattle.vol_dir.specs.Tree.{shapes, state};
ghost use Rattle.vol_file.specs.Changes.{blocks_past};
ghost use Rattle.vol_change.specs.Changed.{FreeBecomes, KeepsFilesBut, KeepsStored};
ghost use Rattle.vol_change.specs.Edits.{at_time, after_truncate};
ghost use Rattle.vol_change.specs.Shapes.{cut_count};
ghost use Rattle.vol_change.specs.Unused.{KeepsAllUnused};
ghost use Rattle.vol_change.specs.Ready.{Rules1To12, Becomes};

use crate::times::{put_time, touch};
use pdp_words::Image;
use vol_layout::Geometry;

/// Cuts the regular file `i` to its first `size` bytes. Keeps the blocks that these bytes need, frees the others and returns their number. The time
/// of the call is `moment`, in seconds.
///
/// Costs as much as [`vol_file::truncate`].
pub fn truncate(image: &mut Image, geometry: &Geometry, i: u16, size: u32, moment: u32) -> u32
    requires ready { Rules1To12 geometry.now image.old }
    requires first { 1 ≤ i }
    requires last { i ≤ geometry.now.last_inode }
    requires regular { kind_at geometry.now image.old i ≡ kinds.Regular }
    requires size { size ≤ size_of geometry.now image.old i }
    ensures changes { Becomes geometry.now image.old image.new
        (at_time moment (after_truncate (state geometry.now image.old) moment size i)) }
    ensures list { FreeBecomes geometry.now image.old image.new (λ blocks. blocks_past geometry.now image.old i size ++ blocks) }
    ensures count { result ≡ cut_count geometry.now.edition (shapes geometry.now image.old i) size }
    ensures files { KeepsFilesBut geometry.now image.old image.new i i }
    ensures unused { KeepsAllUnused geometry.now image.old image.new }
    ensures stored { KeepsStored geometry.now image.old image.new i size }
{
    let given = vol_file::truncate(image, geometry, i, size);
    touch(image, geometry, i, moment);
    put_time(image, geometry, moment);
    given
}
