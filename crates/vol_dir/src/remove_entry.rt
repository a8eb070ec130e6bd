//! Removing an entry from a directory.
ghost use Rattle.std.specs.Prelude.{◌≡◌, ◌≢◌, ℕ, ◌*◌, ◌%◌, List, [], ◌∷◌, map, IsSome};
ghost use Rattle.vol_layout.specs.Geometry.{Fits};
ghost use Rattle.vol_layout.specs.BlockPointers.{IsFile};
ghost use Rattle.vol_file.specs.Changes.{Writes};
ghost use Rattle.vol_file.specs.Need.{need};
ghost use Rattle.vol_file.specs.Rules.{size_of, Rules3To7With, Rules3To7};
ghost use Rattle.vol_dir.specs.EntryEdits.{HasNamesOnce};
ghost use Rattle.vol_dir.specs.Entries.{slots};
ghost use Rattle.vol_dir.specs.Names.{get, remove, names_of, names_in};
ghost use Rattle.vol_dir.specs.Search.{slot_named, emptied};

use crate::entries::first_entry;
use pdp_words::Image;
use vol_file::write;
use vol_layout::Geometry;
use vol_layout::slot::SLOT;

/// Removes `name`, which directory `dir` must have: the i-number in its slot becomes 0, and the name's bytes stay. The size of the directory stays,
/// and no block is allocated or freed.
///
/// Costs as much as [`find`](crate::find) of the name.
pub fn remove(image: &mut Image, geometry: &Geometry, dir: u16, name: &[u8])
    requires file { IsFile geometry.now image.old dir }
    requires sound { Rules3To7 geometry.now image.old }
    requires whole { size_of geometry.now image.old dir % 16 ≡ 0 }
    requires once { HasNamesOnce geometry.now image.old dir }
    requires there { IsSome (get (names_of (slots geometry.now image.old dir)) name.now) }
    ensures written { (blocks : List ℕ) → Rules3To7With geometry.now image.old blocks
        → Writes geometry.now image.old image.new dir (16 * slot_named name.now (slots geometry.now image.old dir)) (0 ∷ 0 ∷ []) blocks }
    ensures none { need geometry.now image.old dir (16 * slot_named name.now (slots geometry.now image.old dir)) 2 ≡ 0 }
    ensures names { names_of (slots geometry.now image.new dir) ≡ remove (names_of (slots geometry.now image.old dir)) name.now }
    ensures slots { names_in (slots geometry.now image.new dir) ≡ map (emptied name.now) (names_in (slots geometry.now image.old dir)) }
    ensures others { (d : ℕ) → d ≢ dir → IsFile geometry.now image.old d → slots geometry.now image.new d ≡ slots geometry.now image.old d }
    ensures once { HasNamesOnce geometry.now image.new dir }
    ensures size { size_of geometry.now image.new dir ≡ size_of geometry.now image.old dir }
    ensures sound { Rules3To7 geometry.now image.new }
    ensures fits { Fits geometry.now image.new }
    ensures file { IsFile geometry.now image.new dir }
{
    if let Some(entry) = first_entry(image, geometry, dir, 0, name) {
        remove_at(image, geometry, dir, entry.slot, name);
    }
}

/// Removes `name` from directory `dir`, as [`remove`] does, from the slot that [`lookup`](crate::lookup) of the name returned.
///
/// Costs the write of two bytes.
pub fn remove_at(image: &mut Image, geometry: &Geometry, dir: u16, slot: u32, name: &[u8])
    requires slot { slot ≡ slot_named name.now (slots geometry.now image.old dir) }
    requires file { IsFile geometry.now image.old dir }
    requires sound { Rules3To7 geometry.now image.old }
    requires whole { size_of geometry.now image.old dir % 16 ≡ 0 }
    requires once { HasNamesOnce geometry.now image.old dir }
    requires there { IsSome (get (names_of (slots geometry.now image.old dir)) name.now) }
    ensures written { (blocks : List ℕ) → Rules3To7With geometry.now image.old blocks
        → Writes geometry.now image.old image.new dir (16 * slot_named name.now (slots geometry.now image.old dir)) (0 ∷ 0 ∷ []) blocks }
    ensures none { need geometry.now image.old dir (16 * slot_named name.now (slots geometry.now image.old dir)) 2 ≡ 0 }
    ensures names { names_of (slots geometry.now image.new dir) ≡ remove (names_of (slots geometry.now image.old dir)) name.now }
    ensures slots { names_in (slots geometry.now image.new dir) ≡ map (emptied name.now) (names_in (slots geometry.now image.old dir)) }
    ensures others { (d : ℕ) → d ≢ dir → IsFile geometry.now image.old d → slots geometry.now image.new d ≡ slots geometry.now image.old d }
    ensures once { HasNamesOnce geometry.now image.new dir }
    ensures size { size_of geometry.now image.new dir ≡ size_of geometry.now image.old dir }
    ensures sound { Rules3To7 geometry.now image.new }
    ensures fits { Fits geometry.now image.new }
    ensures file { IsFile geometry.now image.new dir }
{
    // Only the contract uses the name.
    let _ = name;
    write(image, geometry, dir, SLOT as u32 * slot, &[0, 0]);
}
