//! Edits of the entries of directories.
ghost use Rattle.std.specs.Prelude.{◌≡◌, ◌+◌, ◌<◌, ◌≤◌, true, IfSome, length};
ghost use Rattle.vol_layout.specs.Geometry.{Fits};

use super::EditFault;
use super::blocks::{put_pointer, read_pointer, take_block};
use crate::claims::Pointer;
use pdp_words::{BLOCK, Image};
use std::alloc::{AllocError, Global};
use std::collections::BTreeSet;
use vol_dir::entries::{SLOTS, slot_count};
use vol_dir::{name_key, next_entry};
use vol_file::block_at;
use vol_judge::entry_walk::is_directory;
use vol_layout::i_list::{kind, mode, size};
use vol_layout::slot::SLOT;
use vol_layout::{BlockMap, Geometry, Kind, Slot, put_size};

/// Returns the first entry of directory `d` at or after slot `from`, with its slot; `None` also if `d` isn't a directory.
pub(super) fn next_slot(
    image: &Image,
    geometry: &Geometry,
    d: u16,
    from: u32,
) -> Option<(u32, Slot)>
    requires fits { Fits geometry.now image.now }
    requires first { 1 ≤ d }
    requires last { d ≤ geometry.now.last_inode }
    ensures reached { IfSome result (λ found. from ≤ found.0) }
    ensures low { IfSome result (λ found. found.0 < 67637568) }
{
    if is_directory(image, geometry, d) {
        next_entry(image, geometry, d, from)
    } else {
        None
    }
}

/// Returns the byte at which slot `s` of directory `d` begins, or `None` if it isn't in a data block.
fn slot_place(image: &Image, geometry: &Geometry, d: u16, s: u32) -> Option<usize>
    requires fits { Fits geometry.now image.now }
    requires first { 1 ≤ d }
    requires last { d ≤ geometry.now.last_inode }
    ensures { IfSome result (λ at. at + 16 ≤ length image.now) }
{
    match block_at(image, geometry, d, s / SLOTS) {
        Some(k) if geometry.in_zone(k) => { Some(BLOCK * k as usize + SLOT * (s % SLOTS) as usize) }
        _ => None,
    }
}

/// Sets the i-number in slot `s` of directory `d`; 0 removes the entry.
pub(super) fn put_number_in(image: &mut Image, geometry: &Geometry, d: u16, s: u32, i: u16)
    requires fits { Fits geometry.now image.old }
    requires first { 1 ≤ d }
    requires last { d ≤ geometry.now.last_inode }
    ensures { Fits geometry.now image.new }
{
    if let Some(at) = slot_place(image, geometry, d, s) {
        image.put_word(at, i);
    }
}

/// Removes the entries that no directory may have, and what isn't a whole slot.
pub(super) fn mend_directories(
    alloc: Global,
    image: &mut Image,
    geometry: &Geometry,
) -> Result<(), AllocError>
    requires { Fits geometry.now image.old }
    ensures { Fits geometry.now image.new }
{
    for before in 0..geometry.last_inode {
        mend_directory(alloc, image, geometry, before + 1)?;
    }
    Ok(())
}

/// Removes the entries that i-node `d` may not have if it is a directory, and what isn't a whole slot.
fn mend_directory(
    alloc: Global,
    image: &mut Image,
    geometry: &Geometry,
    d: u16,
) -> Result<(), AllocError>
    requires fits { Fits geometry.now image.old }
    requires first { 1 ≤ d }
    requires last { d ≤ geometry.now.last_inode }
    ensures { Fits geometry.now image.new }
{
    let bytes = size(image, geometry, d).min(geometry.edition.constants().greatest);
    if is_directory(image, geometry, d) && bytes % SLOT as u32 != 0 {
        put_size(image, geometry, d, bytes - bytes % SLOT as u32);
    }
    let mut names = BTreeSet::new(alloc);
    let mut from = 0;
    while let Some((s, slot)) = next_slot(image, geometry, d, from) {
        if !is_valid(image, geometry, d, &slot) || !names.insert(name_key(slot))? {
            put_number_in(image, geometry, d, s, 0);
        }
        from = s + 1;
    }
    Ok(())
}

/// True if directory `d` may have this entry: its name isn't empty and has no slash, its i-node is allocated, and `.` is `d` itself.
fn is_valid(image: &Image, geometry: &Geometry, d: u16, slot: &Slot) -> bool
    requires { Fits geometry.now image.now }
{
    let name = slot.name();
    let i = slot.inode;
    if name.is_empty() || name.contains(&b'/') || name == b".".as_slice() && i != d {
        return false;
    }
    geometry.edition.constants().root <= i
        && i <= geometry.last_inode
        && kind(image, geometry, i) != Kind::Free
}

/// Adds an entry to directory `d`, in its first empty slot from `from` on, and returns that slot. Takes unused blocks for it; `used` has a mark for each
/// block.
pub(super) fn add_entry(
    image: &mut Image,
    geometry: &Geometry,
    d: u16,
    from: u32,
    slot: &Slot,
    used: &mut [bool],
) -> Result<u32, EditFault>
    requires fits { Fits geometry.now image.old }
    requires first { 1 ≤ d }
    requires last { d ≤ geometry.now.last_inode }
    requires len { length used.old ≡ geometry.now.zone_end }
    ensures { Fits geometry.now image.new }
{
    let s = empty_slot(image, geometry, d, from);
    let end = SLOT as u32 * (s + 1);
    if end > geometry.edition.constants().greatest {
        return Err(EditFault::NoSpace);
    }
    fill_path(image, geometry, d, s / SLOTS, used)?;
    let Some(at) = slot_place(image, geometry, d, s) else {
        return Err(EditFault::NoSpace);
    };
    image.put_bytes(at, &slot.to_bytes());
    if size(image, geometry, d) < end {
        put_size(image, geometry, d, end);
    }
    Ok(s)
}

/// Returns the first empty slot of directory `d` from `from` on, or the one after its last.
fn empty_slot(image: &Image, geometry: &Geometry, d: u16, from: u32) -> u32
    requires fits { Fits geometry.now image.now }
    requires first { 1 ≤ d }
    requires last { d ≤ geometry.now.last_inode }
    ensures { result ≤ 67637568 }
{
    let count = slot_count(image, geometry, d);
    for s in from..count {
        match slot_place(image, geometry, d, s) {
            Some(at) if image.word(at) != 0 => {}
            _ => return s,
        }
    }
    count
}

/// Takes unused blocks for what the path to logical block `b` of i-node `d` lacks, and clears them.
fn fill_path(
    image: &mut Image,
    geometry: &Geometry,
    d: u16,
    b: u32,
    used: &mut [bool],
) -> Result<(), EditFault>
    requires fits { Fits geometry.now image.old }
    requires first { 1 ≤ d }
    requires last { d ≤ geometry.now.last_inode }
    requires len { length used.old ≡ geometry.now.zone_end }
    ensures { Fits geometry.now image.new }
{
    let form = BlockMap::of(geometry.edition, mode(image, geometry, d));
    let Some(way) = form.way(b) else {
        return Err(EditFault::NoSpace);
    };
    let mut at = Pointer::Address {
        inode: d,
        index: way.address,
    };
    for level in 0..=way.depth {
        let block = fill_pointer(image, geometry, at, used)?;
        if level < way.depth {
            at = Pointer::Entry {
                block,
                index: way.entries[level],
            };
        }
    }
    Ok(())
}

/// Returns the block number in a place. If it is 0, takes an unused block and clears it first.
fn fill_pointer(
    image: &mut Image,
    geometry: &Geometry,
    at: Pointer,
    used: &mut [bool],
) -> Result<u32, EditFault>
    requires fits { Fits geometry.now image.old }
    requires len { length used.old ≡ geometry.now.zone_end }
    ensures { Fits geometry.now image.new }
{
    let block = read_pointer(image, geometry, at);
    if block != 0 {
        return Ok(block);
    }
    let Some(taken) = take_block(geometry, used, geometry.zone_start) else {
        return Err(EditFault::NoSpace);
    };
    let start = BLOCK * taken as usize;
    image.clear(start, start + BLOCK);
    put_pointer(image, geometry, at, taken);
    Ok(taken)
}
