//! Changing the owner.
ghost use Rattle.std.specs.Prelude.{◌≤◌};
ghost use Rattle.vol_layout.specs.Edition.{constants};
ghost use Rattle.vol_dir.specs.Entries.{IsInUse};
ghost use Rattle.vol_dir.specs.Tree.{state};
ghost use Rattle.vol_change.specs.Alone.{ChangesInode};
ghost use Rattle.vol_change.specs.Changed.{FreeBecomes, KeepsFiles, as_before};
ghost use Rattle.vol_change.specs.Edits.{at_time};
ghost use Rattle.vol_change.specs.Effects.{after_chown};
ghost use Rattle.vol_change.specs.Unused.{KeepsAllUnused};
ghost use Rattle.vol_change.specs.Ready.{Rules1To12, Becomes};

use crate::ownership::put_owner;
use crate::times::put_time;
use pdp_words::Image;
use vol_layout::Geometry;

/// Changes the owner of node `i`, of any kind, to user `uid` and group `gid`. The time of the call is `moment`, in seconds. The permission bits don't
/// change.
pub fn chown(image: &mut Image, geometry: &Geometry, i: u16, uid: u16, gid: u16, moment: u32)
    requires ready { Rules1To12 geometry.now image.old }
    requires used { IsInUse geometry.now image.old i }
    requires user { uid ≤ (constants geometry.now.edition).id_limit }
    requires group { gid ≤ (constants geometry.now.edition).id_limit }
    ensures changes { Becomes geometry.now image.old image.new
        (at_time moment (after_chown (state geometry.now image.old) moment uid gid i)) }
    ensures list { FreeBecomes geometry.now image.old image.new as_before }
    ensures files { KeepsFiles geometry.now image.old image.new }
    ensures unused { KeepsAllUnused geometry.now image.old image.new }
    ensures inode { ChangesInode geometry.now image.old image.new i }
{
    put_owner(image, geometry, i, uid, gid, moment);
    put_time(image, geometry, moment);
}
