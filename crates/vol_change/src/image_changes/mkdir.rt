//! Creating a directory.
ghost use Rattle.std.specs.Prelude.{List, ◌∷◌, ◌≡◌, ◌≢◌, ℕ, ◌+◌, ◌<◌, ◌≤◌, false, [], IfSome, slice_index, drop, ◌*◌};
ghost use Rattle.vol_layout.specs.Edition.{constants};
ghost use Rattle.vol_layout.specs.Inode.{inode_place};
ghost use Rattle.vol_layout.specs.BlockPointers.{named};
ghost use Rattle.vol_layout.specs.declared.edition.Edition.TheVariants as editions;
ghost use Rattle.vol_dir.specs.Entries.{IsDirectory};
ghost use Rattle.vol_dir.specs.Names.{dot, dot_dot};
ghost use Rattle.vol_dir.specs.Search.{new_slot};
ghost use Rattle.vol_dir.specs.Tree.{no_shape, state};
ghost use Rattle.vol_dir.specs.Walk.{IsComponent, has_zero};
ghost use Rattle.vol_free.specs.Stack.{IsFree};
ghost use Rattle.vol_free.specs.Numbers.{IsFreeNumber};
ghost use Rattle.vol_judge.specs.Graph.{graph_of};
ghost use Rattle.vol_dir.specs.EntryEdits.{slot_bytes};
ghost use Rattle.vol_change.specs.Changed.{Changed, IsOther, FreeBecomes, KeepsFilesBut, PutsInBody};
ghost use Rattle.vol_change.specs.Contents.{put_entry};
ghost use Rattle.vol_change.specs.Edits.{at_time};
ghost use Rattle.vol_change.specs.Nodes.{node_at};
ghost use Rattle.vol_change.specs.Whole.{Rules3To8};
ghost use Rattle.vol_change.specs.Dots.{HoldsNames, AddsDots};
ghost use Rattle.vol_change.specs.Unused.{KeepsAllUnused, KeepsUnusedBut};
ghost use Rattle.vol_change.specs.Effects.{after_mkdir};
ghost use Rattle.vol_change.specs.Ready.{Rules1To12, TakesName, Becomes, entry_need, free_in};

use crate::entries::{add_name, enter};
use crate::links::add_link;
use crate::new_nodes::{NewNode, make_directory, pick_number};
use crate::times::put_time;
use pdp_words::Image;
use vol_layout::Geometry;

/// Creates a directory that has only `.` and `..`, with `name` in directory `dir`, in the slot for a new entry. Returns its i-number: the recorded
/// one if given, else a free one. The blocks for the entry in `dir` are allocated first, then the new directory's block.
///
/// Costs writing the entries. The i-list is searched only if no cached i-number is free.
pub fn mkdir(
    image: &mut Image,
    geometry: &Geometry,
    node: NewNode,
    dir: u16,
    slot: u32,
    name: &[u8],
    recorded: Option<u16>,
) -> u16
    requires ready { Rules1To12 geometry.now image.old }
    requires user { node.owner.uid ≤ (constants geometry.now.edition).id_limit }
    requires group { node.owner.gid ≤ (constants geometry.now.edition).id_limit }
    requires directory { IsDirectory geometry.now image.old dir }
    requires slot { slot ≡ new_slot ((state geometry.now image.old).shapes dir).slots }
    requires takes { TakesName (state geometry.now image.old) dir name.now }
    requires component { IsComponent name.now }
    requires text { has_zero name.now ≡ false }
    requires links { (node_at (state geometry.now image.old).tree dir).links < (constants geometry.now.edition).link_limit }
    requires room { entry_need (state geometry.now image.old) dir + 1 ≤ free_in (state geometry.now image.old) }
    requires some { ((i : ℕ) → IsFreeNumber geometry.now image.old i → ⊥) → ⊥ }
    requires recorded { IfSome recorded (λ i. IsFreeNumber geometry.now image.old i) }
    ensures free { IsFreeNumber geometry.now image.old result }
    ensures recorded { IfSome recorded (λ i. result ≡ i) }
    ensures changes { Becomes geometry.now image.old image.new
        (at_time node.moment (after_mkdir (state geometry.now image.old) node.owner node.moment node.permissions result dir name.now)) }
    ensures list { FreeBecomes geometry.now image.old image.new (drop (entry_need (state geometry.now image.old) dir + 1)) }
    ensures own { (blocks : List ℕ) → IsFree geometry.now image.old blocks
        → named geometry.now image.new result (0 ∷ []) ≡ slice_index blocks (entry_need (state geometry.now image.old) dir) }
    ensures bytes { PutsInBody geometry.now image.old image.new dir (16 * slot) (slot_bytes name.now result) }
    ensures files { KeepsFilesBut geometry.now image.old image.new dir result }
    ensures unused { geometry.now.edition ≡ editions.V7 → slice_index image.new (inode_place editions.V7 result + 51) ≡ 0 }
    ensures others { KeepsUnusedBut geometry.now image.old image.new result }
{
    let made = pick_number(image, geometry, recorded);
    make_directory(image, geometry, made, node);
    enter(image, geometry, dir, slot, name, made, node.moment);
    add_dots(image, geometry, made, dir);
    add_link(image, geometry, dir, node.moment);
    put_time(image, geometry, node.moment);
    made
}

/// Adds the entries `.` and `..` to directory `i`, which has no slots; `..` is for directory `dir`. Allocates one block. Times and link counts don't
/// change.
fn add_dots(image: &mut Image, geometry: &Geometry, i: u16, dir: u16)
    requires rules { Rules3To8 geometry.now image.old }
    requires directory { IsDirectory geometry.now image.old i }
    requires empty { HoldsNames (state geometry.now image.old) i [] 0 no_shape }
    requires parent { 1 ≤ dir }
    requires room { 1 ≤ free_in (state geometry.now image.old) }
    ensures changed { Changed geometry.now image.old image.new (IsOther i)
        (put_entry i dot_dot dir (put_entry i dot i (state geometry.now image.old))) (drop 1) }
    ensures own { (blocks : List ℕ) → IsFree geometry.now image.old blocks → named geometry.now image.new i (0 ∷ []) ≡ slice_index blocks 0 }
    ensures graph { AddsDots (graph_of geometry.now image.old) (graph_of geometry.now image.new) i dir }
    ensures unused { KeepsAllUnused geometry.now image.old image.new }
{
    add_name(image, geometry, i, 0, b".", i);
    add_name(image, geometry, i, 1, b"..", dir);
}
