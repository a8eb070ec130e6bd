//! The names of a directory, in ascending order.
ghost use Rattle.std.specs.Prelude.{◌≡◌, ◌<◌, ◌≤◌, ℕ, false, length, slice_index, slice_index_or, IfOk, OnOk};
ghost use Rattle.vol_layout.specs.Geometry.{Fits};
ghost use Rattle.vol_layout.specs.Slot.{name_of};
ghost use Rattle.vol_dir.specs.Entries.{slots, IsDirectory};
ghost use Rattle.vol_dir.specs.NameKeys.{key_of, IsSlotName};
ghost use Rattle.vol_dir.specs.NameList.{IsKeyed, by_bytes, put_first};
ghost use Rattle.vol_dir.specs.Names.{names_of};

use crate::entries::{SLOTS, slot_count};
use crate::repeats::next_unmarked;
use pdp_words::{Bytes, Image};
use std::alloc::{AllocError, Global};
use std::collections::BTreeMap;
use vol_file::no_marks;
use vol_layout::slot::NAME;
use vol_layout::{Geometry, Slot};

/// A name of a directory, and its i-number.
#[derive(Drop)]
pub(crate) struct NameEntry {
    name: Vec<u8>,
    inode: u16,
}

/// Returns the names of directory `dir` with their i-numbers, in ascending order of their bytes. If several entries have
/// the same name, the first counts.
///
/// Costs a pass over the slots, and sorting the names. If the directory has more than 320 slots plus one for every four blocks of the volume, slots
/// below a block to which its block map points again are skipped; this takes three bytes for each block of the volume.
pub fn list_names(
    alloc: Global,
    image: &Image,
    geometry: &Geometry,
    dir: u16,
) -> Result<Vec<(Bytes, u16)>, AllocError>
    requires fits { Fits geometry.now image.now }
    requires directory { IsDirectory geometry.now image.now dir }
    ensures { IfOk result (λ names. names.items ≡ names_of (slots geometry.now image.now dir)) }
{
    let names = collect_names(alloc, image, geometry, dir)?;
    names
        .into_iter()
        .map(|(_, entry)| (Bytes::from_vec(entry.name), entry.inode))
        .collect(alloc)
}

/// Returns the names of directory `dir`, each with the i-number of the first entry that has it.
fn collect_names(
    alloc: Global,
    image: &Image,
    geometry: &Geometry,
    dir: u16,
) -> Result<BTreeMap<u128, NameEntry>, AllocError>
    requires fits { Fits geometry.now image.now }
    requires directory { IsDirectory geometry.now image.now dir }
    ensures { IfOk result (λ names. by_bytes names.entries ≡ names_of (slots geometry.now image.now dir)) }
{
    let mut marks = marks_for(alloc, image, geometry, dir)?;
    collect_unmarked(alloc, image, geometry, dir, &mut marks)
}

/// Like [`collect_names`], with `marks` that are all unset at first.
fn collect_unmarked(
    alloc: Global,
    image: &Image,
    geometry: &Geometry,
    dir: u16,
    marks: &mut [bool],
) -> Result<BTreeMap<u128, NameEntry>, AllocError>
    requires fits { Fits geometry.now image.now }
    requires directory { IsDirectory geometry.now image.now dir }
    requires clear { (k : ℕ) → slice_index_or marks.old k false ≡ false }
    ensures { IfOk result (λ names. by_bytes names.entries ≡ names_of (slots geometry.now image.now dir)) }
{
    let mut names = BTreeMap::new(alloc);
    let mut from = 0;
    while let Some((s, slot)) = next_unmarked(image, geometry, dir, from, 0, marks) {
        put_first(alloc, &mut names, slot)?;
        from = s + 1;
    }
    Ok(names)
}

/// Returns unset marks for a search of directory `dir`, or no marks if allocating them would cost more than a pass over the slots.
fn marks_for(
    alloc: Global,
    image: &Image,
    geometry: &Geometry,
    dir: u16,
) -> Result<Vec<bool>, AllocError>
    requires fits { Fits geometry.now image.now }
    requires directory { IsDirectory geometry.now image.now dir }
    ensures { IfOk result (λ marks. (k : ℕ) → slice_index_or marks.items k false ≡ false) }
{
    if slot_count(image, geometry, dir) > 10 * SLOTS + geometry.zone_end / 4 {
        no_marks(alloc, geometry)
    } else {
        Ok(Vec::new(alloc))
    }
}

/// Adds the name in a slot to the map, unless the map has it already.
fn put_first(
    alloc: Global,
    names: &mut BTreeMap<u128, NameEntry>,
    slot: Slot,
) -> Result<(), AllocError>
    requires { IsKeyed names.old.entries }
    ensures put { OnOk result (by_bytes names.new.entries ≡ put_first (by_bytes names.old.entries) (name_of slot.name) slot.inode) }
    ensures keyed { OnOk result (IsKeyed names.new.entries) }
{
    let key = name_key(slot);
    if !names.contains_key(&key) {
        let name = Vec::from_slice(alloc, slot.name())?;
        let inode = slot.inode;
        names.insert(key, NameEntry { name, inode })?;
    }
    Ok(())
}

/// Returns the number of the name in a slot: its bytes as digits in base 256, and zeros up to 14 digits. Numbers are in the order of their names, and
/// compared at once; only one name has a number.
pub fn name_key(slot: Slot) -> u128
    ensures key { result ≡ key_of (name_of slot.name) }
    ensures stored { IsSlotName (name_of slot.name) }
{
    key_from(slot.name())
}

/// Does the work of [`name_key`].
fn key_from(name: &[u8]) -> u128
    requires { length name.now ≤ 14 }
    ensures key { result ≡ key_of name.now }
    ensures few { length name.now ≤ 14 }
    ensures small { (k : ℕ) → slice_index name.now k < 256 }
{
    let mut key = 0;
    for k in 0..NAME {
        let byte = if k < name.len() { name[k] } else { 0 };
        key = 256 * key + u128::from(byte);
    }
    key
}
