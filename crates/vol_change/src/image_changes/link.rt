//! Adding a name to a node.
ghost use Rattle.std.specs.Prelude.{◌≡◌, ◌≢◌, ℕ, ◌<◌, ◌≤◌, false, drop, ◌*◌};
ghost use Rattle.vol_layout.specs.Edition.{constants};
ghost use Rattle.vol_layout.specs.declared.mode.Kind.TheVariants as kinds;
ghost use Rattle.vol_file.specs.Rules.{kind_at};
ghost use Rattle.vol_dir.specs.Entries.{IsDirectory, IsInUse};
ghost use Rattle.vol_dir.specs.Search.{new_slot};
ghost use Rattle.vol_dir.specs.Tree.{state};
ghost use Rattle.vol_dir.specs.Walk.{IsComponent, has_zero};
ghost use Rattle.vol_dir.specs.EntryEdits.{slot_bytes};
ghost use Rattle.vol_change.specs.Changed.{FreeBecomes, KeepsFilesBut, PutsInBody};
ghost use Rattle.vol_change.specs.Edits.{at_time};
ghost use Rattle.vol_change.specs.Nodes.{node_at};
ghost use Rattle.vol_change.specs.Unused.{KeepsAllUnused};
ghost use Rattle.vol_change.specs.Effects.{after_link};
ghost use Rattle.vol_change.specs.Ready.{Rules1To12, TakesName, Becomes, entry_need, free_in};

use crate::entries::enter;
use crate::links::add_link;
use crate::times::put_time;
use pdp_words::Image;
use vol_layout::Geometry;

/// Adds another name to node `i`, which is not a directory: `name` in directory `dir`, in the slot for a new entry. The time of the call is `moment`,
/// in seconds.
///
/// Costs writing the entry.
pub fn link(
    image: &mut Image,
    geometry: &Geometry,
    i: u16,
    dir: u16,
    slot: u32,
    name: &[u8],
    moment: u32,
)
    requires ready { Rules1To12 geometry.now image.old }
    requires used { IsInUse geometry.now image.old i }
    requires other { kind_at geometry.now image.old i ≢ kinds.Directory }
    requires directory { IsDirectory geometry.now image.old dir }
    requires slot { slot ≡ new_slot ((state geometry.now image.old).shapes dir).slots }
    requires takes { TakesName (state geometry.now image.old) dir name.now }
    requires component { IsComponent name.now }
    requires text { has_zero name.now ≡ false }
    requires links { (node_at (state geometry.now image.old).tree i).links < (constants geometry.now.edition).link_limit }
    requires room { entry_need (state geometry.now image.old) dir ≤ free_in (state geometry.now image.old) }
    ensures changes { Becomes geometry.now image.old image.new
        (at_time moment (after_link (state geometry.now image.old) moment i dir name.now)) }
    ensures list { FreeBecomes geometry.now image.old image.new (drop (entry_need (state geometry.now image.old) dir)) }
    ensures bytes { PutsInBody geometry.now image.old image.new dir (16 * slot) (slot_bytes name.now i) }
    ensures files { KeepsFilesBut geometry.now image.old image.new dir dir }
    ensures unused { KeepsAllUnused geometry.now image.old image.new }
{
    add_link(image, geometry, i, moment);
    enter(image, geometry, dir, slot, name, i, moment);
    put_time(image, geometry, moment);
}
