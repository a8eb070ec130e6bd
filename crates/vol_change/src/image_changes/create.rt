//! Creating a file.
ghost use Rattle.std.specs.Prelude.{◌≡◌, ◌≢◌, ℕ, ◌+◌, ◌≤◌, false, IfSome, slice_index, drop, ◌*◌};
ghost use Rattle.vol_layout.specs.Edition.{constants};
ghost use Rattle.vol_layout.specs.Inode.{inode_place};
ghost use Rattle.vol_layout.specs.declared.edition.Edition.TheVariants as editions;
ghost use Rattle.vol_dir.specs.Entries.{IsDirectory};
ghost use Rattle.vol_dir.specs.Search.{new_slot};
ghost use Rattle.vol_dir.specs.Tree.{state};
ghost use Rattle.vol_dir.specs.Walk.{IsComponent, has_zero};
ghost use Rattle.vol_free.specs.Numbers.{IsFreeNumber};
ghost use Rattle.vol_dir.specs.EntryEdits.{slot_bytes};
ghost use Rattle.vol_change.specs.Changed.{FreeBecomes, KeepsFilesBut, PutsInBody};
ghost use Rattle.vol_change.specs.Edits.{at_time};
ghost use Rattle.vol_change.specs.Unused.{KeepsUnusedBut};
ghost use Rattle.vol_change.specs.Effects.{after_create};
ghost use Rattle.vol_change.specs.Ready.{Rules1To12, TakesName, Becomes, entry_need, free_in};

use crate::entries::enter;
use crate::new_nodes::{NewFile, NewNode, make_file, pick_number};
use crate::times::put_time;
use pdp_words::Image;
use vol_layout::Geometry;

/// Creates a regular or special file with `name` in directory `dir`, in the slot for a new entry. Returns its i-number: the recorded one if given, else a
/// free one.
///
/// Costs writing the entry. The i-list is searched only if no cached i-number is free.
pub fn create(
    image: &mut Image,
    geometry: &Geometry,
    file: NewFile,
    node: NewNode,
    dir: u16,
    slot: u32,
    name: &[u8],
    recorded: Option<u16>,
) -> u16
    requires ready { Rules1To12 geometry.now image.old }
    requires user { node.owner.uid ≤ (constants geometry.now.edition).id_limit }
    requires group { node.owner.gid ≤ (constants geometry.now.edition).id_limit }
    requires directory { IsDirectory geometry.now image.old dir }
    requires slot { slot ≡ new_slot ((state geometry.now image.old).shapes dir).slots }
    requires takes { TakesName (state geometry.now image.old) dir name.now }
    requires component { IsComponent name.now }
    requires text { has_zero name.now ≡ false }
    requires room { entry_need (state geometry.now image.old) dir ≤ free_in (state geometry.now image.old) }
    requires some { ((i : ℕ) → IsFreeNumber geometry.now image.old i → ⊥) → ⊥ }
    requires recorded { IfSome recorded (λ i. IsFreeNumber geometry.now image.old i) }
    ensures free { IsFreeNumber geometry.now image.old result }
    ensures recorded { IfSome recorded (λ i. result ≡ i) }
    ensures changes { Becomes geometry.now image.old image.new
        (at_time node.moment (after_create (state geometry.now image.old) node.owner node.moment node.permissions file result dir name.now)) }
    ensures list { FreeBecomes geometry.now image.old image.new (drop (entry_need (state geometry.now image.old) dir)) }
    ensures bytes { PutsInBody geometry.now image.old image.new dir (16 * slot) (slot_bytes name.now result) }
    ensures files { KeepsFilesBut geometry.now image.old image.new dir result }
    ensures unused { geometry.now.edition ≡ editions.V7 → slice_index image.new (inode_place editions.V7 result + 51) ≡ 0 }
    ensures others { KeepsUnusedBut geometry.now image.old image.new result }
{
    let made = pick_number(image, geometry, recorded);
    make_file(image, geometry, made, file, node);
    enter(image, geometry, dir, slot, name, made, node.moment);
    put_time(image, geometry, node.moment);
    made
}
