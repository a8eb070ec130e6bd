//! Changing permission bits.
ghost use Rattle.std.specs.Prelude.{◌≡◌};
ghost use Rattle.vol_layout.specs.Body.{body};
ghost use Rattle.vol_layout.specs.BlockPointers.{IsFile};
ghost use Rattle.vol_dir.specs.Entries.{IsInUse};
ghost use Rattle.vol_dir.specs.Tree.{state};
ghost use Rattle.vol_change.specs.Alone.{ChangesInode};
ghost use Rattle.vol_change.specs.Changed.{FreeBecomes, KeepsFilesBut, as_before};
ghost use Rattle.vol_change.specs.Edits.{at_time};
ghost use Rattle.vol_change.specs.Effects.{after_chmod};
ghost use Rattle.vol_change.specs.Unused.{KeepsAllUnused};
ghost use Rattle.vol_change.specs.Ready.{Rules1To12, Becomes};

use crate::ownership::put_permissions;
use crate::times::put_time;
use pdp_words::Image;
use vol_layout::Geometry;

/// Sets the permission bits of node `i`, of any kind, to those bits of `permissions` that are in octal 7777. The time of the call is `moment`, in
/// seconds.
pub fn chmod(image: &mut Image, geometry: &Geometry, i: u16, permissions: u16, moment: u32)
    requires ready { Rules1To12 geometry.now image.old }
    requires used { IsInUse geometry.now image.old i }
    ensures changes { Becomes geometry.now image.old image.new
        (at_time moment (after_chmod (state geometry.now image.old) moment permissions i)) }
    ensures list { FreeBecomes geometry.now image.old image.new as_before }
    ensures bytes { IsFile geometry.now image.old i → body geometry.now image.new i ≡ body geometry.now image.old i }
    ensures files { KeepsFilesBut geometry.now image.old image.new i i }
    ensures unused { KeepsAllUnused geometry.now image.old image.new }
    ensures inode { ChangesInode geometry.now image.old image.new i }
{
    put_permissions(image, geometry, i, permissions, moment);
    put_time(image, geometry, moment);
}
