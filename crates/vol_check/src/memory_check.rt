//! Counts the lines of a name report, and checks that memory has room for them, before any of them is made.
ghost use Rattle.std.specs.Prelude.{◌≡◌, ◌+◌, ◌-◌, ◌*◌, ◌≤◌, true, IfOk};
ghost use Rattle.vol_layout.specs.Geometry.{Fits, in_zone, geometry_read};
ghost use Rattle.vol_layout.specs.Slot.{slot_at};
ghost use Rattle.vol_dir.specs.Entries.{entry_in, entry_at, slot_count};
ghost use Rattle.count_table.specs.Sums.{below};
ghost use Rattle.vol_check.specs.LineCounts.{HasLines, line_count, named_one, name_count};

use crate::entry_counts::stored_blocks;
use crate::levels::each_once;
use crate::parts::PART_BLOCKS;
use pdp_words::{BLOCK, Image};
use std::alloc::{AllocError, Global};
use vol_dir::entries::{SLOTS, slot_count};
use vol_dir::is_dots;
use vol_file::block_at;
use vol_layout::i_list::kind;
use vol_layout::slot::SLOT;
use vol_layout::{Edition, Geometry, Kind, Slot};
use vol_reports::{EnteredName, Line};

/// Returns the number of lines of an image's name report, or 0 if rule 1 or 2 doesn't hold. After each directory it allocates the least memory that
/// the lines up to there need, all at once, and frees it. So a report that doesn't fit is refused before the memory is filled.
///
/// Costs one number for each logical block of a directory, and a read of each slot of the data blocks of each 64 of them. Takes 2 KB besides.
pub(crate) fn try_room(alloc: Global, edition: Edition, image: &Image) -> Result<u64, AllocError>
    ensures counted { IfOk result (λ count. count ≡ line_count (geometry_read edition image.now) image.now) }
    ensures lines { IfOk result (HasLines edition image.now) }
{
    let Ok(geometry) = Geometry::read(edition, image) else {
        return Ok(0);
    };
    let mut count = 0;
    for d in 1..=geometry.last_inode {
        let names = count_names(alloc, image, &geometry, d)?;
        count += names;
        if names > 0 {
            try_lines(alloc, edition, image, count)?;
        }
    }
    Ok(count)
}

/// Allocates the memory for `count` entries, paths and lines of an image's name report at once, and frees it: a system that grants more memory than it
/// has in small steps refuses it in one piece.
fn try_lines(alloc: Global, _edition: Edition, _image: &Image, count: u64) -> Result<(), AllocError>
    requires lines { HasLines _edition _image.now count }
{
    let mut room: Vec<(EnteredName, (u16, Vec<u8>), Line)> = Vec::new(alloc);
    room.reserve_exact(count as usize)?;
    Ok(())
}

/// Returns the number of entries, except `.` and `..`, of i-number `d`; 0 if it isn't a directory.
fn count_names(alloc: Global, image: &Image, geometry: &Geometry, d: u16) -> Result<u64, AllocError>
    requires fits { Fits geometry.now image.now }
    requires first { 1 ≤ d }
    requires last { d ≤ geometry.now.last_inode }
    ensures exact { IfOk result (λ count. count ≡ name_count geometry.now image.now d) }
    ensures few { IfOk result (λ count. count ≤ 4294967296) }
{
    match kind(image, geometry, d) {
        Kind::Directory => count_directory(alloc, image, geometry, d),
        _ => Ok(0),
    }
}

/// Returns the number of entries, except `.` and `..`, in the slots of directory `d`.
fn count_directory(
    alloc: Global,
    image: &Image,
    geometry: &Geometry,
    d: u16,
) -> Result<u64, AllocError>
    requires fits { Fits geometry.now image.now }
    requires first { 1 ≤ d }
    requires last { d ≤ geometry.now.last_inode }
    ensures exact { IfOk result (λ count. count ≡ below (λ s. named_one (entry_at geometry.now image.now d s)) (slot_count geometry.now image.now d)) }
    ensures few { IfOk result (λ count. count ≤ 4294967296) }
{
    let slots = slot_count(image, geometry, d);
    let whole = slots / SLOTS;
    let mut count = 0;
    let mut b = 0;
    while b < whole {
        let end = whole.min(b + PART_BLOCKS);
        count += count_range(alloc, image, geometry, d, b, end)?;
        b = end;
    }
    Ok(count + count_front(image, geometry, d, whole, slots % SLOTS))
}

/// Returns the number of entries, except `.` and `..`, in the logical blocks `from..end` of directory `d`. The directory's size covers these blocks
/// completely.
fn count_range(
    alloc: Global,
    image: &Image,
    geometry: &Geometry,
    d: u16,
    from: u32,
    end: u32,
) -> Result<u64, AllocError>
    requires fits { Fits geometry.now image.now }
    requires first { 1 ≤ d }
    requires last { d ≤ geometry.now.last_inode }
    requires order { from ≤ end }
    requires whole { 32 * end ≤ slot_count geometry.now image.now d }
    ensures { IfOk result (λ count. count ≡ below (λ t. named_one (entry_at geometry.now image.now d (32 * from + t))) (32 * (end - from))) }
{
    let named = stored_blocks(alloc, image, geometry, d, from, end)?;
    let mut once = each_once(alloc, named)?;
    let mut count = 0;
    while let Some(n) = once.pop() {
        count += n.times * count_slots(image, geometry, n.number, SLOTS);
    }
    Ok(count)
}

/// Returns the number of entries, except `.` and `..`, in the first `slots` slots of logical block `b` of directory `d`.
fn count_front(image: &Image, geometry: &Geometry, d: u16, b: u32, slots: u32) -> u64
    requires fits { Fits geometry.now image.now }
    requires first { 1 ≤ d }
    requires last { d ≤ geometry.now.last_inode }
    requires few { slots ≤ 32 }
    requires within { 32 * b + slots ≤ slot_count geometry.now image.now d }
    ensures { result ≡ below (λ t. named_one (entry_at geometry.now image.now d (32 * b + t))) slots }
{
    match block_at(image, geometry, d, b) {
        Some(k) if geometry.in_zone(k) => count_slots(image, geometry, k, slots),
        _ => 0,
    }
}

/// Returns the number of entries, except `.` and `..`, in the first `slots` slots of data block `k`.
fn count_slots(image: &Image, geometry: &Geometry, k: u32, slots: u32) -> u64
    requires fits { Fits geometry.now image.now }
    requires zone { in_zone geometry.now k ≡ true }
    requires few { slots ≤ 32 }
    ensures { result ≡ below (λ t. named_one (entry_in (slot_at image.now (512 * k + 16 * t)))) slots }
{
    let mut count = 0;
    for s in 0..slots {
        let slot = Slot::read(image.as_bytes(), BLOCK * k as usize + SLOT * s as usize);
        count += count_slot(&slot);
    }
    count
}

/// Returns 1 if a slot has an entry other than `.` and `..`, else 0.
fn count_slot(slot: &Slot) -> u64
    ensures { result ≡ named_one (entry_in slot.now) }
{
    if slot.inode == 0 || is_dots(slot.name()) {
        0
    } else {
        1
    }
}
