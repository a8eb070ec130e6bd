//! Collects the entries for each i-number in one pass over all directories.
ghost use Rattle.std.specs.Prelude.{◌≡◌, ℕ, ◌+◌, ◌≤◌, IfNone, IfSome, IfOk, IsTrue, ◌↔◌, length};
ghost use Rattle.vol_layout.specs.Geometry.{Fits};
ghost use Rattle.vol_dir.specs.Entries.{IsDirectory};
ghost use Rattle.vol_dir.specs.Repeats.{MarksEmpty};
ghost use Rattle.vol_judge.specs.EntryCounts.{HasCounts};
ghost use Rattle.vol_judge.specs.Finds.{Finds};
ghost use Rattle.vol_judge.specs.InodeMarks.{IsOnce};
ghost use Rattle.vol_judge.specs.Steps.{rank, IsNextSlot};
ghost use Rattle.vol_judge.specs.DirectoryTree.{NotesParentsBefore, NotesParents, KnowsParents, HasOnceBefore, IsEnteredAgain};
ghost use Rattle.vol_judge.specs.Entered.{NotesBefore, NotesUpTo};

use crate::entry_walk::{EntryAt, EntryPosition, is_directory, marks_for, next_entry};
use crate::finding::Finding;
use pdp_words::{BLOCK, Image};
use std::alloc::{AllocError, Global};
use vol_dir::entries::{SLOTS, slot_count};
use vol_file::block_at;
use vol_layout::slot::SLOT;
use vol_layout::{Geometry, Slot};

/// The entries for each i-number, over all directories.
#[derive(Drop)]
pub struct Entered {
    /// For each directory, by i-number, a directory that holds an entry for it other than `.` and `..`. If several hold one, it is the directory that
    /// its own `..` is for, if that is among them.
    pub parents: Vec<Option<u16>>,
    /// The first entry, other than `.` and `..`, that is for the root or isn't the first entry for a directory.
    pub again: Option<Finding>,
    /// The number of entries for each i-number.
    pub counts: Vec<u64>,
}

/// Returns the entries for each i-number. `ups` has the i-number in the `..` of each directory.
///
/// Costs a read of each slot of each directory, except slots below blocks already found to have no entries. Takes twelve bytes per i-number, and
/// three bytes per block if the directories claim more blocks than the volume has.
pub fn find_entered(
    alloc: Global,
    image: &Image,
    geometry: &Geometry,
    ups: &[Option<u16>],
) -> Result<Entered, AllocError>
    requires fits { Fits geometry.now image.now }
    requires room { length ups.now ≡ geometry.now.last_inode + 1 }
    ensures parents { IfOk result (λ found. NotesParents geometry.now image.now ups.now found.parents.items) }
    ensures known { IfOk result (λ found. IsOnce geometry.now image.now → KnowsParents geometry.now image.now found.parents.items) }
    ensures again { IfOk result (λ found. Finds (IsOnce geometry.now image.now) (IsEnteredAgain geometry.now image.now) found.again) }
    ensures counts { IfOk result (λ found. HasCounts geometry.now image.now found.counts.items) }
{
    let mut marks = marks_for(alloc, image, geometry)?;
    note_entries(alloc, image, geometry, ups, &mut marks)
}

/// Does the work of [`find_entered`]. `marks` marks blocks below which no slot has an entry.
fn note_entries(
    alloc: Global,
    image: &Image,
    geometry: &Geometry,
    ups: &[Option<u16>],
    marks: &mut [bool],
) -> Result<Entered, AllocError>
    requires fits { Fits geometry.now image.now }
    requires room { length ups.now ≡ geometry.now.last_inode + 1 }
    requires marks { MarksEmpty geometry.now image.now marks.old }
    ensures parents { IfOk result (λ found. NotesParents geometry.now image.now ups.now found.parents.items) }
    ensures known { IfOk result (λ found. IsOnce geometry.now image.now → KnowsParents geometry.now image.now found.parents.items) }
    ensures again { IfOk result (λ found. Finds (IsOnce geometry.now image.now) (IsEnteredAgain geometry.now image.now) found.again) }
    ensures counts { IfOk result (λ found. HasCounts geometry.now image.now found.counts.items) }
{
    let parents = vec![in alloc; None; geometry.last_inode as usize + 1]?;
    let counts = vec![in alloc; 0; geometry.last_inode as usize + 1]?;
    let mut found = Entered {
        parents,
        again: None,
        counts,
    };
    let mut place = EntryPosition::first();
    while let Some(entry) = next_entry(image, geometry, place, marks) {
        found.note(image, geometry, ups, &entry);
        place = note_rest(image, geometry, ups, entry.next_place(), &mut found);
    }
    Ok(found)
}

/// Notes the entries from a position to the end of its logical block, without a search for each. Returns the position after them.
fn note_rest(
    image: &Image,
    geometry: &Geometry,
    ups: &[Option<u16>],
    from: EntryPosition,
    found: &mut Entered,
) -> EntryPosition
    requires fits { Fits geometry.now image.now }
    requires room { length ups.now ≡ geometry.now.last_inode + 1 }
    requires directory { IsDirectory geometry.now image.now from.directory }
    requires low { from.slot ≤ 67637568 }
    requires notes { NotesUpTo geometry.now image.now ups.now from.directory from.slot found.old }
    ensures directory { result.directory ≡ from.directory }
    ensures order { from.slot ≤ result.slot }
    ensures notes { NotesUpTo geometry.now image.now ups.now from.directory result.slot found.new }
{
    let b = from.slot / SLOTS;
    let Some(k) = block_at(image, geometry, from.directory, b) else {
        return from;
    };
    if !geometry.in_zone(k) {
        return from;
    }
    let end = slot_count(image, geometry, from.directory).min(SLOTS * b + SLOTS);
    let mut s = from.slot;
    while s < end {
        let at = BLOCK * k as usize + SLOT * (s - SLOTS * b) as usize;
        let slot = Slot::read(image.as_bytes(), at);
        if slot.inode != 0 {
            let entry = EntryAt {
                directory: from.directory,
                number: s,
                slot,
            };
            found.note(image, geometry, ups, &entry);
        }
        s += 1;
    }
    EntryPosition {
        directory: from.directory,
        slot: s,
    }
}

impl Entered {
    /// Notes the next entry.
    fn note(&mut self, image: &Image, geometry: &Geometry, ups: &[Option<u16>], entry: &EntryAt)
        requires fits { Fits geometry.now image.now }
        requires room { length ups.now ≡ geometry.now.last_inode + 1 }
        requires next { (place : ℕ) × NotesBefore geometry.now image.now ups.now place self.old
            × IsNextSlot geometry.now image.now place entry.now.directory entry.now.number entry.now.slot }
        ensures { NotesBefore geometry.now image.now ups.now (rank entry.now.directory (entry.now.number + 1)) self.new }
    {
        let found = note_parent(image, geometry, entry, ups, &mut self.parents);
        self.again = first_of(self.again, found);
        let i = entry.slot.inode;
        if i <= geometry.last_inode {
            self.counts[i as usize] += 1;
        }
    }
}

/// Returns the first finding, or the second if there is no first.
fn first_of(first: Option<Finding>, second: Option<Finding>) -> Option<Finding>
    ensures none { IfNone first (result ≡ second) }
    ensures some { IfSome first (λ _. result ≡ first) }
{
    match first {
        Some(_) => first,
        None => second,
    }
}

/// Notes the directory of this entry as the parent of the directory that the entry is for. A parent noted earlier is replaced only if the child's
/// `..` is for the new one. Returns the violation of rule 11 if the entry is for the root or isn't the first entry for a directory.
fn note_parent(
    image: &Image,
    geometry: &Geometry,
    entry: &EntryAt,
    ups: &[Option<u16>],
    parents: &mut [Option<u16>],
) -> Option<Finding>
    requires fits { Fits geometry.now image.now }
    requires ups { length ups.now ≡ geometry.now.last_inode + 1 }
    requires room { length parents.old ≡ geometry.now.last_inode + 1 }
    ensures noted { (place : ℕ) → NotesParentsBefore geometry.now image.now ups.now place parents.old
        → IsNextSlot geometry.now image.now place entry.now.directory entry.now.number entry.now.slot
        → NotesParentsBefore geometry.now image.now ups.now (rank entry.now.directory (entry.now.number + 1)) parents.new }
    ensures fresh { IfNone result ((place : ℕ) → NotesParentsBefore geometry.now image.now ups.now place parents.old
        → HasOnceBefore geometry.now image.now place
        → IsNextSlot geometry.now image.now place entry.now.directory entry.now.number entry.now.slot
        → HasOnceBefore geometry.now image.now (rank entry.now.directory (entry.now.number + 1))) }
    ensures again { IfSome result (λ finding. (place : ℕ) → NotesParentsBefore geometry.now image.now ups.now place parents.old
        → HasOnceBefore geometry.now image.now place
        → IsNextSlot geometry.now image.now place entry.now.directory entry.now.number entry.now.slot
        → IsEnteredAgain geometry.now image.now finding) }
{
    if entry.is_dots() {
        return None;
    }
    let child = entry.slot.inode;
    if child == geometry.edition.constants().root {
        return Some(Finding::RootEntered(entry.directory, entry.number));
    }
    if !is_numbered_directory(image, geometry, child) {
        return None;
    }
    let is_second = parents[child as usize].is_some();
    if is_second && ups[child as usize] != Some(entry.directory) {
        return Some(Finding::EnteredTwice(entry.directory, entry.number));
    }
    parents[child as usize] = Some(entry.directory);
    if is_second {
        return Some(Finding::EnteredTwice(entry.directory, entry.number));
    }
    None
}

/// True if `i` is the i-number of a directory of the volume.
fn is_numbered_directory(image: &Image, geometry: &Geometry, i: u16) -> bool
    requires { Fits geometry.now image.now }
    ensures { IsTrue result ↔ IsDirectory geometry.now image.now i }
{
    1 <= i && i <= geometry.last_inode && is_directory(image, geometry, i)
}
