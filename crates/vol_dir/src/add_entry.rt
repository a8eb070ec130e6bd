//! Adding an entry to a directory.
ghost use Rattle.std.specs.Prelude.{◌≡◌, ◌≢◌, ℕ, ◌+◌, ◌*◌, ◌%◌, ◌<◌, ◌≤◌, List, None, Some, length, slice_index};
ghost use Rattle.vol_layout.specs.Edition.{constants};
ghost use Rattle.vol_layout.specs.Geometry.{Fits};
ghost use Rattle.vol_layout.specs.BlockPointers.{IsFile};
ghost use Rattle.vol_file.specs.Changes.{Writes};
ghost use Rattle.vol_file.specs.Need.{need};
ghost use Rattle.vol_file.specs.Rules.{size_of, Rules3To7With, Rules3To7};
ghost use Rattle.vol_dir.specs.EntryEdits.{slot_bytes, with_item, HasNamesOnce};
ghost use Rattle.vol_dir.specs.Entries.{slots};
ghost use Rattle.vol_dir.specs.Names.{get, insert, names_of, names_in};
ghost use Rattle.vol_dir.specs.Search.{new_slot};

use crate::entries::new_slot;
use pdp_words::Image;
use vol_file::write;
use vol_layout::slot::SLOT;
use vol_layout::{Geometry, Slot};

/// Adds an entry for i-number `i` to directory `dir`, which must not have `name` yet. Uses the first empty slot, or else a new slot at the end.
/// Writes all 16 bytes of the slot as [`write`] does, which allocates blocks if the slot's block, or an indirect block on its path, is missing.
///
/// Costs as much as [`place_for`](crate::place_for), and the write.
pub fn add(image: &mut Image, geometry: &Geometry, dir: u16, name: &[u8], i: u16)
    requires file { IsFile geometry.now image.old dir }
    requires sound { Rules3To7 geometry.now image.old }
    requires whole { size_of geometry.now image.old dir % 16 ≡ 0 }
    requires once { HasNamesOnce geometry.now image.old dir }
    requires new { get (names_of (slots geometry.now image.old dir)) name.now ≡ None }
    requires short { length name.now ≤ 14 }
    requires text { (k : ℕ) → k < length name.now → slice_index name.now k ≢ 0 }
    requires inode { 1 ≤ i }
    requires greatest { 16 * new_slot (names_in (slots geometry.now image.old dir)) + 16 ≤ (constants geometry.now.edition).greatest }
    requires room { (blocks : List ℕ) → Rules3To7With geometry.now image.old blocks
        → need geometry.now image.old dir (16 * new_slot (names_in (slots geometry.now image.old dir))) 16 ≤ length blocks }
    ensures written { (blocks : List ℕ) → Rules3To7With geometry.now image.old blocks
        → Writes geometry.now image.old image.new dir (16 * new_slot (names_in (slots geometry.now image.old dir)))
        (slot_bytes name.now i) blocks }
    ensures names { names_of (slots geometry.now image.new dir) ≡ insert (names_of (slots geometry.now image.old dir)) name.now i }
    ensures slots { names_in (slots geometry.now image.new dir) ≡ with_item (names_in (slots geometry.now image.old dir))
        (new_slot (names_in (slots geometry.now image.old dir))) (Some name.now) }
    ensures others { (d : ℕ) → d ≢ dir → IsFile geometry.now image.old d → slots geometry.now image.new d ≡ slots geometry.now image.old d }
    ensures once { HasNamesOnce geometry.now image.new dir }
    ensures whole { size_of geometry.now image.new dir % 16 ≡ 0 }
    ensures sound { Rules3To7 geometry.now image.new }
    ensures fits { Fits geometry.now image.new }
    ensures file { IsFile geometry.now image.new dir }
{
    let slot = new_slot(image, geometry, dir);
    add_at(image, geometry, dir, slot, name, i);
}

/// Adds an entry for i-number `i` to directory `dir`, as [`add`] does, in the slot that [`lookup`](crate::lookup) of the name returned for a new
/// entry.
///
/// Costs the write of 16 bytes.
pub fn add_at(image: &mut Image, geometry: &Geometry, dir: u16, slot: u32, name: &[u8], i: u16)
    requires slot { slot ≡ new_slot (names_in (slots geometry.now image.old dir)) }
    requires file { IsFile geometry.now image.old dir }
    requires sound { Rules3To7 geometry.now image.old }
    requires whole { size_of geometry.now image.old dir % 16 ≡ 0 }
    requires once { HasNamesOnce geometry.now image.old dir }
    requires new { get (names_of (slots geometry.now image.old dir)) name.now ≡ None }
    requires short { length name.now ≤ 14 }
    requires text { (k : ℕ) → k < length name.now → slice_index name.now k ≢ 0 }
    requires inode { 1 ≤ i }
    requires greatest { 16 * new_slot (names_in (slots geometry.now image.old dir)) + 16 ≤ (constants geometry.now.edition).greatest }
    requires room { (blocks : List ℕ) → Rules3To7With geometry.now image.old blocks
        → need geometry.now image.old dir (16 * new_slot (names_in (slots geometry.now image.old dir))) 16 ≤ length blocks }
    ensures written { (blocks : List ℕ) → Rules3To7With geometry.now image.old blocks
        → Writes geometry.now image.old image.new dir (16 * new_slot (names_in (slots geometry.now image.old dir)))
        (slot_bytes name.now i) blocks }
    ensures names { names_of (slots geometry.now image.new dir) ≡ insert (names_of (slots geometry.now image.old dir)) name.now i }
    ensures slots { names_in (slots geometry.now image.new dir) ≡ with_item (names_in (slots geometry.now image.old dir))
        (new_slot (names_in (slots geometry.now image.old dir))) (Some name.now) }
    ensures others { (d : ℕ) → d ≢ dir → IsFile geometry.now image.old d → slots geometry.now image.new d ≡ slots geometry.now image.old d }
    ensures once { HasNamesOnce geometry.now image.new dir }
    ensures whole { size_of geometry.now image.new dir % 16 ≡ 0 }
    ensures sound { Rules3To7 geometry.now image.new }
    ensures fits { Fits geometry.now image.new }
    ensures file { IsFile geometry.now image.new dir }
{
    let at = SLOT as u32 * slot;
    write(image, geometry, dir, at, &Slot::new(i, name).to_bytes());
}
