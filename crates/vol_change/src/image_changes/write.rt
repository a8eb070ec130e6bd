//! Writing to a file.
ghost use Rattle.std.specs.Prelude.{◌≡◌, ℕ, ◌+◌, ◌≤◌, length, drop};
ghost use Rattle.vol_layout.specs.Edition.{constants};
ghost use Rattle.vol_layout.specs.declared.mode.Kind.TheVariants as kinds;
ghost use Rattle.vol_file.specs.Rules.{kind_at};
ghost use Rattle.vol_file.specs.Shape.{touched};
ghost use Rattle.vol_dir.specs.Tree.{state};
ghost use Rattle.vol_change.specs.Changed.{FreeBecomes, KeepsFilesBut};
ghost use Rattle.vol_change.specs.Edits.{at_time, after_write};
ghost use Rattle.vol_change.specs.Shapes.{need_in};
ghost use Rattle.vol_change.specs.Unused.{KeepsAllUnused};
ghost use Rattle.vol_change.specs.Ready.{Rules1To12, Becomes, free_in};

use crate::times::{put_time, touch};
use pdp_words::Image;
use vol_layout::Geometry;

/// Writes `bytes` to the regular file `i`, starting at byte `offset`. A write of no bytes sets only the volume's time. The time of the call is
/// `moment`, in seconds.
///
/// Costs as much as [`vol_file::write`].
pub fn write(image: &mut Image, geometry: &Geometry, i: u16, offset: u32, bytes: &[u8], moment: u32)
    requires ready { Rules1To12 geometry.now image.old }
    requires first { 1 ≤ i }
    requires last { i ≤ geometry.now.last_inode }
    requires regular { kind_at geometry.now image.old i ≡ kinds.Regular }
    requires greatest { offset + length bytes.now ≤ (constants geometry.now.edition).greatest }
    requires room { need_in geometry.now.edition ((state geometry.now image.old).shapes i) (touched offset (length bytes.now))
        ≤ free_in (state geometry.now image.old) }
    ensures changes { Becomes geometry.now image.old image.new
        (at_time moment (after_write (state geometry.now image.old) moment offset bytes.now i)) }
    ensures list { FreeBecomes geometry.now image.old image.new
        (drop (need_in geometry.now.edition ((state geometry.now image.old).shapes i) (touched offset (length bytes.now)))) }
    ensures files { KeepsFilesBut geometry.now image.old image.new i i }
    ensures unused { KeepsAllUnused geometry.now image.old image.new }
{
    if !bytes.is_empty() {
        vol_file::write(image, geometry, i, offset, bytes);
        touch(image, geometry, i, moment);
    }
    put_time(image, geometry, moment);
}
