//! Changing a node's times.
ghost use Rattle.vol_dir.specs.Entries.{IsInUse};
ghost use Rattle.vol_dir.specs.Tree.{state};
ghost use Rattle.vol_change.specs.Alone.{ChangesInode};
ghost use Rattle.vol_change.specs.Changed.{FreeBecomes, KeepsFiles, as_before};
ghost use Rattle.vol_change.specs.Edits.{at_time};
ghost use Rattle.vol_change.specs.Effects.{after_utime};
ghost use Rattle.vol_change.specs.Unused.{KeepsAllUnused};
ghost use Rattle.vol_change.specs.Ready.{Rules1To12, Becomes};

use crate::times::{put_time, put_times};
use pdp_words::Image;
use vol_layout::Geometry;

/// Sets the times of node `i`, of any kind, in seconds: `accessed` for its last access, `modified` for its last modification,
/// and `moment` for its i-node's change.
pub fn utime(
    image: &mut Image,
    geometry: &Geometry,
    i: u16,
    accessed: u32,
    modified: u32,
    moment: u32,
)
    requires ready { Rules1To12 geometry.now image.old }
    requires used { IsInUse geometry.now image.old i }
    ensures changes { Becomes geometry.now image.old image.new
        (at_time moment (after_utime (state geometry.now image.old) moment accessed modified i)) }
    ensures list { FreeBecomes geometry.now image.old image.new as_before }
    ensures files { KeepsFiles geometry.now image.old image.new }
    ensures unused { KeepsAllUnused geometry.now image.old image.new }
    ensures inode { ChangesInode geometry.now image.old image.new i }
{
    put_times(image, geometry, i, accessed, modified, moment);
    put_time(image, geometry, moment);
}
