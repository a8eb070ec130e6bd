//! Adds and removes directory entries, with or without setting the directory's times.
ghost use Rattle.std.specs.Prelude.{◌≡◌, ◌≢◌, ℕ, ◌+◌, ◌*◌, ◌%◌, ◌<◌, ◌≤◌, List, None, Some, length, slice_index, IsSome, false, drop, [], ◌∷◌};
ghost use Rattle.std.specs.Option.{option_map};
ghost use Rattle.vol_layout.specs.Edition.{constants};
ghost use Rattle.vol_layout.specs.declared.mode.Kind.TheVariants as kinds;
ghost use Rattle.vol_file.specs.Rules.{kind_at, size_of, Rules3To7With};
ghost use Rattle.vol_file.specs.Need.{need};
ghost use Rattle.vol_dir.specs.EntryEdits.{HasNamesOnce, slot_bytes};
ghost use Rattle.vol_dir.specs.Entries.{slots, IsDirectory};
ghost use Rattle.vol_dir.specs.Names.{get, names_of, names_in};
ghost use Rattle.vol_dir.specs.Search.{new_slot, slot_named};
ghost use Rattle.vol_dir.specs.Tree.{state};
ghost use Rattle.vol_dir.specs.Walk.{IsComponent, has_zero};
ghost use Rattle.vol_judge.specs.Graph.{graph_of};
ghost use Rattle.vol_judge.specs.GraphEdits.{ChangesSlot};
ghost use Rattle.vol_change.specs.Changed.{Changed, IsOther, as_before, PutsInBody};
ghost use Rattle.vol_change.specs.Beside.{StaysBeside};
ghost use Rattle.vol_change.specs.Contents.{put_entry, drop_entry};
ghost use Rattle.vol_change.specs.Unused.{KeepsAllUnused};
ghost use Rattle.vol_change.specs.Whole.{HasDirectory};
ghost use Rattle.vol_change.specs.Edits.{add_entry, remove_entry};
ghost use Rattle.vol_change.specs.Ready.{TakesName, entry_need, free_in};

use crate::times::touch;
use pdp_words::Image;
use vol_dir::{add_at, remove_at};
use vol_layout::Geometry;

/// Adds an entry for i-number `i` to directory `dir`, as [`add_at`] does, in the slot for a new entry. The directory doesn't have `name` yet. Its
/// times and the link count of `i` don't change.
///
/// Costs as much as [`add_at`].
pub fn add_name(image: &mut Image, geometry: &Geometry, dir: u16, slot: u32, name: &[u8], i: u16)
    requires slot { slot ≡ new_slot (names_in (slots geometry.now image.old dir)) }
    requires directory { HasDirectory geometry.now image.old dir }
    requires new { get (names_of (slots geometry.now image.old dir)) name.now ≡ None }
    requires short { length name.now ≤ 14 }
    requires text { (k : ℕ) → k < length name.now → slice_index name.now k ≢ 0 }
    requires inode { 1 ≤ i }
    requires greatest { 16 * new_slot (names_in (slots geometry.now image.old dir)) + 16 ≤ (constants geometry.now.edition).greatest }
    requires room { (blocks : List ℕ) → Rules3To7With geometry.now image.old blocks
        → need geometry.now image.old dir (16 * new_slot (names_in (slots geometry.now image.old dir))) 16 ≤ length blocks }
    ensures changed { Changed geometry.now image.old image.new (IsOther dir)
        (put_entry dir name.now i (state geometry.now image.old)) (drop (entry_need (state geometry.now image.old) dir)) }
    ensures bytes { PutsInBody geometry.now image.old image.new dir (16 * slot) (slot_bytes name.now i) }
    ensures slot { ChangesSlot (graph_of geometry.now image.old) (graph_of geometry.now image.new) dir
        (new_slot (names_in (slots geometry.now image.old dir))) None (Some (name.now, i)) }
    ensures beside { StaysBeside (graph_of geometry.now image.old) (graph_of geometry.now image.new) dir }
    ensures once { HasNamesOnce geometry.now image.new dir }
    ensures unused { KeepsAllUnused geometry.now image.old image.new }
{
    add_at(image, geometry, dir, slot, name, i);
}

/// Removes `name`, which directory `dir` has, from its slot, as [`remove_at`] does. The size and times of the directory and the link count of the
/// named node don't change.
///
/// Costs as much as [`remove_at`].
pub fn remove_name(image: &mut Image, geometry: &Geometry, dir: u16, slot: u32, name: &[u8])
    requires slot { slot ≡ slot_named name.now (slots geometry.now image.old dir) }
    requires directory { HasDirectory geometry.now image.old dir }
    requires there { IsSome (get (names_of (slots geometry.now image.old dir)) name.now) }
    ensures changed { Changed geometry.now image.old image.new (IsOther dir)
        (drop_entry dir name.now (state geometry.now image.old)) as_before }
    ensures bytes { PutsInBody geometry.now image.old image.new dir (16 * slot) (0 ∷ 0 ∷ []) }
    ensures slot { ChangesSlot (graph_of geometry.now image.old) (graph_of geometry.now image.new) dir
        (slot_named name.now (slots geometry.now image.old dir))
        (option_map (λ i. (name.now, i)) (get (names_of (slots geometry.now image.old dir)) name.now)) None }
    ensures beside { StaysBeside (graph_of geometry.now image.old) (graph_of geometry.now image.new) dir }
    ensures once { HasNamesOnce geometry.now image.new dir }
    ensures unused { KeepsAllUnused geometry.now image.old image.new }
{
    remove_at(image, geometry, dir, slot, name);
}

/// Adds an entry for i-number `i` to directory `dir`, in the slot for a new entry, and sets the time of the directory's last change to `moment`, in
/// seconds. The directory doesn't have `name` yet.
pub(crate) fn enter(
    image: &mut Image,
    geometry: &Geometry,
    dir: u16,
    slot: u32,
    name: &[u8],
    i: u16,
    moment: u32,
)
    requires slot { slot ≡ new_slot ((state geometry.now image.old).shapes dir).slots }
    requires directory { HasDirectory geometry.now image.old dir }
    requires takes { TakesName (state geometry.now image.old) dir name.now }
    requires component { IsComponent name.now }
    requires text { has_zero name.now ≡ false }
    requires inode { 1 ≤ i }
    requires room { entry_need (state geometry.now image.old) dir ≤ free_in (state geometry.now image.old) }
    ensures changed { Changed geometry.now image.old image.new (IsOther dir)
        (add_entry moment dir name.now i (state geometry.now image.old)) (drop (entry_need (state geometry.now image.old) dir)) }
    ensures bytes { PutsInBody geometry.now image.old image.new dir (16 * slot) (slot_bytes name.now i) }
    ensures slot { ChangesSlot (graph_of geometry.now image.old) (graph_of geometry.now image.new) dir
        (new_slot (names_in (slots geometry.now image.old dir))) None (Some (name.now, i)) }
    ensures beside { StaysBeside (graph_of geometry.now image.old) (graph_of geometry.now image.new) dir }
    ensures unused { KeepsAllUnused geometry.now image.old image.new }
{
    add_name(image, geometry, dir, slot, name, i);
    touch(image, geometry, dir, moment);
}

/// Removes `name`, which directory `dir` has, from its slot, and sets the time of the directory's last change to `moment`, in seconds.
pub(crate) fn leave(
    image: &mut Image,
    geometry: &Geometry,
    dir: u16,
    slot: u32,
    name: &[u8],
    moment: u32,
)
    requires slot { slot ≡ slot_named name.now (slots geometry.now image.old dir) }
    requires directory { HasDirectory geometry.now image.old dir }
    requires there { IsSome (get (names_of (slots geometry.now image.old dir)) name.now) }
    ensures changed { Changed geometry.now image.old image.new (IsOther dir)
        (remove_entry moment dir name.now (state geometry.now image.old)) as_before }
    ensures bytes { PutsInBody geometry.now image.old image.new dir (16 * slot) (0 ∷ 0 ∷ []) }
    ensures slot { ChangesSlot (graph_of geometry.now image.old) (graph_of geometry.now image.new) dir
        (slot_named name.now (slots geometry.now image.old dir))
        (option_map (λ i. (name.now, i)) (get (names_of (slots geometry.now image.old dir)) name.now)) None }
    ensures beside { StaysBeside (graph_of geometry.now image.old) (graph_of geometry.now image.new) dir }
    ensures unused { KeepsAllUnused geometry.now image.old image.new }
{
    remove_name(image, geometry, dir, slot, name);
    touch(image, geometry, dir, moment);
}
