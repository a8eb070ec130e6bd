//! The entries of a directory: looking up an entry, and choosing the slot for a new one.
ghost use Rattle.std.specs.Prelude.{◌≡◌, ℕ, ◌+◌, ◌-◌, ◌*◌, ◌<◌, ◌≤◌, not, true, false, length, OnErr, IfOk, IfErr, Some, None};
ghost use Rattle.std.specs.List.{list_any};
ghost use Rattle.vol_layout.specs.Geometry.{Fits};
ghost use Rattle.std.specs.Str.{bytes_eq};
ghost use Rattle.vol_layout.specs.Slot.{slot_at, name_of};
ghost use Rattle.vol_dir.specs.Entries.{entry_in, slot_count, entry_at, slots, IsDirectory};
ghost use Rattle.vol_dir.specs.Names.{get, names_of, names_in, is_dots};
ghost use Rattle.vol_dir.specs.Scan.{GoesOn};
ghost use Rattle.vol_dir.specs.Search.{is_sought, Searches, Finds, new_slot, slot_named};

use pdp_words::words::word;
use pdp_words::{BLOCK, Image};
use vol_file::{block_at, next_block};
use vol_layout::i_list::size;
use vol_layout::slot::{NAME, SLOT};
use vol_layout::{Geometry, Slot};

/// The number of slots in a block.
pub const SLOTS: u32 = 32;

/// The target of a search over the slots of a directory.
#[derive(Clone, Copy)]
pub(crate) enum Sought<'a> {
    /// The entry with this name.
    Named(&'a [u8]),
    /// An empty slot.
    Empty,
    /// The entry with this name or an empty slot, whichever comes first.
    NamedOrEmpty(&'a [u8]),
    /// Any entry.
    Any,
    /// An entry other than `.` and `..`.
    Other,
}

/// The slot of an entry in a directory, and its i-number.
#[derive(Clone, Copy)]
pub struct Entry {
    /// The slot, counted from 0.
    pub slot: u32,
    /// The i-number.
    pub inode: u16,
}

/// True if a slot is the target of a search.
fn is_sought(slot: &Slot, sought: Sought<'_>) -> bool
    ensures { result ≡ is_sought sought.entry (entry_in slot.now) }
{
    let is_empty = slot.inode == 0;
    match sought {
        Sought::Named(name) => !is_empty && name == slot.name(),
        Sought::Empty => is_empty,
        Sought::NamedOrEmpty(name) => is_empty || name == slot.name(),
        Sought::Any => !is_empty,
        Sought::Other => !is_empty && !is_dots(slot.name()),
    }
}

/// True if a name is `.` or `..`.
pub fn is_dots(name: &[u8]) -> bool
    ensures { result ≡ is_dots name.now }
{
    name == b".".as_slice() || name == b"..".as_slice()
}

/// Returns the number of slots of directory `dir`.
pub fn slot_count(image: &Image, geometry: &Geometry, dir: u16) -> u32
    requires fits { Fits geometry.now image.now }
    requires first { 1 ≤ dir }
    requires last { dir ≤ geometry.now.last_inode }
    ensures { result ≡ slot_count geometry.now image.now dir }
{
    size(image, geometry, dir).min(geometry.edition.constants().greatest) / SLOT as u32
}

/// True if the slot at byte `at` can be skipped: it is empty and the search is for an entry, or it has another name than the one that is searched for.
/// False if only a comparison of the names tells.
fn is_passed(bytes: &[u8], at: usize, sought: Sought<'_>) -> bool
    requires room { at + 16 ≤ length bytes.now }
    ensures { result ≡ true → is_sought sought.entry (entry_in (slot_at bytes.now at)) ≡ false }
{
    match sought {
        Sought::Empty => false,
        Sought::NamedOrEmpty(name) => word(bytes, at) != 0 && is_other(bytes, at, name),
        Sought::Named(name) => word(bytes, at) == 0 || is_other(bytes, at, name),
        Sought::Any | Sought::Other => word(bytes, at) == 0,
    }
}

/// True if the slot at byte `at` has other bytes where `name` would be. Compares the last byte first, since names in one directory often begin alike.
fn is_other(bytes: &[u8], at: usize, name: &[u8]) -> bool
    requires room { at + 16 ≤ length bytes.now }
    ensures { result ≡ true → bytes_eq name.now (name_of (slot_at bytes.now at).name) ≡ false }
{
    for k in (0..name.len().min(NAME)).rev() {
        if bytes[at + 2 + k] != name[k] {
            return true;
        }
    }
    false
}

/// Returns the first slot at or after slot `start` that is a target of the search. There are `count` slots, which begin at byte `at`.
fn first_from(
    image: &Image,
    at: usize,
    start: u32,
    count: u32,
    sought: Sought<'_>,
) -> Option<(u32, Slot)>
    requires few { count ≤ 32 }
    requires room { at + 16 * count ≤ length image.now }
    ensures { Searches sought.entry (λ t. entry_in (slot_at image.now (at + 16 * t))) start count result }
{
    let bytes = image.as_bytes();
    for s in start..count {
        let place = at + SLOT * s as usize;
        if !is_passed(bytes, place, sought) {
            let slot = Slot::read(bytes, place);
            if is_sought(&slot, sought) {
                return Some((s, slot));
            }
        }
    }
    None
}

/// Returns the first slot at or after slot `start` that is a target of the search, among the `count` empty slots of a hole.
fn first_in_hole(start: u32, count: u32, sought: Sought<'_>) -> Option<(u32, Slot)>
    ensures { Searches sought.entry (λ t. None) start count result }
{
    let empty = Slot {
        inode: 0,
        name: [0; NAME],
    };
    match sought {
        Sought::Empty | Sought::NamedOrEmpty(_) if start < count => Some((start, empty)),
        _ => None,
    }
}

/// Returns the first slot at or after slot `start` that is a target of the search, among the `count` slots in logical block `b` of directory `dir`.
pub(crate) fn first_in_block(
    image: &Image,
    geometry: &Geometry,
    dir: u16,
    b: u32,
    start: u32,
    count: u32,
    sought: Sought<'_>,
) -> Option<(u32, Slot)>
    requires fits { Fits geometry.now image.now }
    requires first { 1 ≤ dir }
    requires last { dir ≤ geometry.now.last_inode }
    requires few { count ≤ 32 }
    requires within { 32 * b + count ≤ slot_count geometry.now image.now dir }
    ensures { Searches sought.entry (λ t. entry_at geometry.now image.now dir (32 * b + t)) start count result }
{
    match block_at(image, geometry, dir, b) {
        Some(k) if geometry.in_zone(k) => {
            first_from(image, BLOCK * k as usize, start, count, sought)
        }
        _ => first_in_hole(start, count, sought),
    }
}

/// Returns the logical block at which a search of directory `dir`, which has `blocks` logical blocks, continues after block `b`: the next block or,
/// if `b` is a hole and the search isn't for empty slots, the next stored block.
pub(crate) fn block_after(
    image: &Image,
    geometry: &Geometry,
    dir: u16,
    b: u32,
    blocks: u32,
    sought: Sought<'_>,
) -> u32
    requires fits { Fits geometry.now image.now }
    requires first { 1 ≤ dir }
    requires last { dir ≤ geometry.now.last_inode }
    requires below { b < blocks }
    ensures onward { b < result }
    ensures within { result ≤ blocks }
    ensures passed { (t : ℕ) → 32 * (b + 1) ≤ t → t < 32 * result → t < slot_count geometry.now image.now dir
        → is_sought sought.entry (entry_at geometry.now image.now dir t) ≡ false }
{
    if block_at(image, geometry, dir, b).is_some() {
        b + 1
    } else {
        after_hole(image, geometry, dir, b, blocks, sought)
    }
}

/// Returns the logical block at which a search of directory `dir`, which has `blocks` logical blocks, continues after the hole `b`: the next stored
/// block or, if the search is for empty slots, the next block.
fn after_hole(
    image: &Image,
    geometry: &Geometry,
    dir: u16,
    b: u32,
    blocks: u32,
    sought: Sought<'_>,
) -> u32
    requires fits { Fits geometry.now image.now }
    requires first { 1 ≤ dir }
    requires last { dir ≤ geometry.now.last_inode }
    requires below { b < blocks }
    ensures onward { b < result }
    ensures within { result ≤ blocks }
    ensures passed { (t : ℕ) → 32 * (b + 1) ≤ t → t < 32 * result → t < slot_count geometry.now image.now dir
        → is_sought sought.entry (entry_at geometry.now image.now dir t) ≡ false }
{
    match sought {
        Sought::Empty | Sought::NamedOrEmpty(_) => b + 1,
        _ => next_block(image, geometry, dir, b + 1, blocks),
    }
}

/// Returns the first slot of directory `dir` at or after slot `from` that is a target of the search, with its content.
///
/// Costs two block-map lookups for each stored logical block that is searched, a read of each of its slots, and a lookup and a [`next_block`] for
/// each run of holes between stored blocks: the time depends on the number of the directory's blocks, indirect blocks included, not on its size.
pub(crate) fn first_slot(
    image: &Image,
    geometry: &Geometry,
    dir: u16,
    from: u32,
    sought: Sought<'_>,
) -> Option<(u32, Slot)>
    requires fits { Fits geometry.now image.now }
    requires first { 1 ≤ dir }
    requires last { dir ≤ geometry.now.last_inode }
    ensures { Searches sought.entry (entry_at geometry.now image.now dir) from (slot_count geometry.now image.now dir) result }
{
    let count = slot_count(image, geometry, dir);
    let blocks = count.div_ceil(SLOTS);
    let mut b = from / SLOTS;
    while b < blocks {
        let start = from.saturating_sub(SLOTS * b);
        let few = (count - SLOTS * b).min(SLOTS);
        if let Some((s, slot)) = first_in_block(image, geometry, dir, b, start, few, sought) {
            return Some((SLOTS * b + s, slot));
        }
        b = block_after(image, geometry, dir, b, blocks, sought);
    }
    None
}

/// Returns the first slot of directory `dir` at or after slot `from` that has an entry, with its i-number and name. The bytes after the name's first
/// zero byte are unspecified.
///
/// Costs two block-map lookups for each stored logical block that is searched, a read of each of its slots, and a step for each zero block number
/// that is skipped, whatever the directory's size.
pub fn next_entry(image: &Image, geometry: &Geometry, dir: u16, from: u32) -> Option<(u32, Slot)>
    requires fits { Fits geometry.now image.now }
    requires directory { IsDirectory geometry.now image.now dir }
    ensures { GoesOn (entry_at geometry.now image.now dir) from (slot_count geometry.now image.now dir) result }
{
    first_slot(image, geometry, dir, from, Sought::Any)
}

/// Looks `name` up in directory `dir`, and returns its entry or, as the error, the slot for a new entry: the first empty slot, or else the one after
/// the last. If several slots have the name, the first counts.
///
/// Reads each slot at most once. Costs as much as [`next_entry`] over the slots before the entry, or over all slots if the directory doesn't have the
/// name.
pub fn lookup(image: &Image, geometry: &Geometry, dir: u16, name: &[u8]) -> Result<Entry, u32>
    requires fits { Fits geometry.now image.now }
    requires first { 1 ≤ dir }
    requires last { dir ≤ geometry.now.last_inode }
    ensures number { IfOk result (λ entry. get (names_of (slots geometry.now image.now dir)) name.now ≡ Some entry.inode) }
    ensures slot { IfOk result (λ entry. entry.slot ≡ slot_named name.now (slots geometry.now image.now dir)) }
    ensures missing { OnErr result (get (names_of (slots geometry.now image.now dir)) name.now ≡ None) }
    ensures new_slot { IfErr result (λ slot. slot ≡ new_slot (names_in (slots geometry.now image.now dir))) }
{
    let Some((slot, found)) = first_slot(image, geometry, dir, 0, Sought::NamedOrEmpty(name)) else {
        return Err(slot_count(image, geometry, dir));
    };
    if found.inode != 0 {
        return Ok(Entry {
            slot,
            inode: found.inode,
        });
    }
    first_entry(image, geometry, dir, slot + 1, name).ok_or(slot)
}

/// Returns the first entry of directory `dir` at or after slot `from` that has `name`.
pub(crate) fn first_entry(
    image: &Image,
    geometry: &Geometry,
    dir: u16,
    from: u32,
    name: &[u8],
) -> Option<Entry>
    requires fits { Fits geometry.now image.now }
    requires first { 1 ≤ dir }
    requires last { dir ≤ geometry.now.last_inode }
    ensures { Finds name.now (entry_at geometry.now image.now dir) from (slot_count geometry.now image.now dir) result }
{
    let (slot, found) = first_slot(image, geometry, dir, from, Sought::Named(name))?;
    Some(Entry {
        slot,
        inode: found.inode,
    })
}

/// Returns the i-number of `name` in directory `dir`, or `None` if it doesn't have the name. If several slots have the
/// name, the first counts.
///
/// Costs as much as [`next_entry`] over the slots before the entry.
pub fn find(image: &Image, geometry: &Geometry, dir: u16, name: &[u8]) -> Option<u16>
    requires fits { Fits geometry.now image.now }
    requires first { 1 ≤ dir }
    requires last { dir ≤ geometry.now.last_inode }
    ensures { result ≡ get (names_of (slots geometry.now image.now dir)) name.now }
{
    Some(first_entry(image, geometry, dir, 0, name)?.inode)
}

/// Returns the byte of directory `dir` at which its next entry will be written: the start of its first empty slot, or else its end.
///
/// Costs as much as [`find`] of a name in that slot.
pub fn place_for(image: &Image, geometry: &Geometry, dir: u16) -> u32
    requires fits { Fits geometry.now image.now }
    requires first { 1 ≤ dir }
    requires last { dir ≤ geometry.now.last_inode }
    ensures { result ≡ 16 * new_slot (names_in (slots geometry.now image.now dir)) }
{
    SLOT as u32 * new_slot(image, geometry, dir)
}

/// Returns the slot for the next entry of directory `dir`: the first empty slot, or else the one after the last.
pub(crate) fn new_slot(image: &Image, geometry: &Geometry, dir: u16) -> u32
    requires fits { Fits geometry.now image.now }
    requires first { 1 ≤ dir }
    requires last { dir ≤ geometry.now.last_inode }
    ensures { result ≡ new_slot (names_in (slots geometry.now image.now dir)) }
{
    match first_slot(image, geometry, dir, 0, Sought::Empty) {
        Some((s, _)) => s,
        None => slot_count(image, geometry, dir),
    }
}

/// True if directory `dir` has only the entries `.` and `..`.
///
/// Costs at most as much as [`find`] of a name that the directory doesn't have.
pub fn is_empty_dir(image: &Image, geometry: &Geometry, dir: u16) -> bool
    requires fits { Fits geometry.now image.now }
    requires first { 1 ≤ dir }
    requires last { dir ≤ geometry.now.last_inode }
    ensures { result ≡ not (list_any (λ entry. not (is_dots entry.0)) (names_of (slots geometry.now image.now dir))) }
{
    first_slot(image, geometry, dir, 0, Sought::Other).is_none()
}
