//! Iterating over the entries of all directories.
ghost use Rattle.std.specs.Prelude.{◌≡◌, ◌+◌, ◌<◌, ◌≤◌, MatchOption, IsTrue, ◌↔◌, IfOk};
ghost use Rattle.vol_layout.specs.Geometry.{Fits};
ghost use Rattle.vol_layout.specs.Slot.{name_of};
ghost use Rattle.vol_dir.specs.Entries.{IsDirectory};
ghost use Rattle.vol_dir.specs.Names.{is_dots};
ghost use Rattle.vol_dir.specs.Repeats.{MarksEmpty};
ghost use Rattle.vol_judge.specs.Steps.{IsNextSlot, IsPastEntries, rank};

use pdp_words::{BLOCK, Image};
use std::alloc::{AllocError, Global};
use vol_file::no_marks;
use vol_layout::i_list::{kind, size};
use vol_layout::{Geometry, Kind, Slot};

/// True if i-node `i` is a directory.
pub fn is_directory(image: &Image, geometry: &Geometry, i: u16) -> bool
    requires fits { Fits geometry.now image.now }
    requires first { 1 ≤ i }
    requires last { i ≤ geometry.now.last_inode }
    ensures { IsTrue result ↔ IsDirectory geometry.now image.now i }
{
    kind(image, geometry, i) == Kind::Directory
}

/// A position among the slots of all directories, directory by directory.
#[derive(Clone, Copy)]
pub struct EntryPosition {
    /// The directory's i-number, at least 1.
    pub directory: u16,
    /// The number of the slot.
    pub slot: u32,
}

/// An entry of a directory, with its position.
#[derive(Clone, Copy)]
pub struct EntryAt {
    /// The directory's i-number.
    pub directory: u16,
    /// The number of the slot.
    pub number: u32,
    /// The content of the slot.
    pub slot: Slot,
}

impl EntryPosition {
    /// Returns the position before all entries.
    pub fn first() -> EntryPosition
        ensures directory { result.directory ≡ 1 }
        ensures slot { result.slot ≡ 0 }
    {
        EntryPosition {
            directory: 1,
            slot: 0,
        }
    }
}

impl EntryAt {
    /// Returns the position after the entry.
    pub fn next_place(&self) -> EntryPosition
        requires { self.now.number < 67637568 }
        ensures directory { result.directory ≡ self.now.directory }
        ensures slot { result.slot ≡ self.now.number + 1 }
    {
        EntryPosition {
            directory: self.directory,
            slot: self.number + 1,
        }
    }

    /// True if the entry's name is `.` or `..`.
    pub fn is_dots(&self) -> bool
        ensures { result ≡ is_dots (name_of self.now.slot.name) }
    {
        vol_dir::is_dots(self.slot.name())
    }
}

/// Returns marks, all unset, for searches over the slots of all directories. If the directories claim no more blocks than the volume has, a search is
/// fast without marks, and the vector is empty.
///
/// Costs a read of each i-node. Takes three bytes per block, or no memory if the vector is empty.
pub(crate) fn marks_for(
    alloc: Global,
    image: &Image,
    geometry: &Geometry,
) -> Result<Vec<bool>, AllocError>
    requires fits { Fits geometry.now image.now }
    ensures { IfOk result (λ marks. MarksEmpty geometry.now image.now marks.items) }
{
    let mut claimed: u32 = 0;
    for d in 1..=geometry.last_inode {
        if is_directory(image, geometry, d) {
            claimed = claimed.saturating_add(size(image, geometry, d).div_ceil(BLOCK as u32));
        }
    }
    if claimed > geometry.zone_end {
        no_marks(alloc, geometry)
    } else {
        Ok(Vec::new(alloc))
    }
}

/// Returns the first entry at or after a position, over all directories.
///
/// Costs a read of each i-node that it passes, and of each slot except those below marked blocks, which have no entries.
pub fn next_entry(
    image: &Image,
    geometry: &Geometry,
    from: EntryPosition,
    marks: &mut [bool],
) -> Option<EntryAt>
    requires marks { MarksEmpty geometry.now image.now marks.old }
    requires fits { Fits geometry.now image.now }
    requires first { 1 ≤ from.directory }
    ensures marks { MarksEmpty geometry.now image.now marks.new }
    ensures next { MatchOption result (IsPastEntries geometry.now image.now (rank from.directory from.slot))
        (λ entry. IsNextSlot geometry.now image.now (rank from.directory from.slot) entry.directory entry.number entry.slot) }
{
    let mut start = from.slot;
    for d in from.directory..=geometry.last_inode {
        if is_directory(image, geometry, d) {
            if let Some((number, slot)) = vol_dir::next_entry_marked(
                image, geometry, d, start, marks,
            ) {
                return Some(EntryAt {
                    directory: d,
                    number,
                    slot,
                });
            }
        }
        start = 0;
    }
    None
}
