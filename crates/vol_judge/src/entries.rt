//! Rule 9: the entries of directories.
ghost use Rattle.std.specs.Prelude.{◌≡◌, IfOk, IsTrue, ◌↔◌};
ghost use Rattle.vol_dir.specs.Repeats.{MarksEmpty};
ghost use Rattle.vol_layout.specs.Geometry.{Fits};
ghost use Rattle.vol_layout.specs.Slot.{name_of};
ghost use Rattle.vol_dir.specs.Entries.{IsDirectory, HasEntries};
ghost use Rattle.vol_judge.specs.DirectoryNames.{IsValidEntry, HasEntriesIn};
ghost use Rattle.vol_judge.specs.Finds.{Finds};
ghost use Rattle.vol_judge.specs.Entries.{IsNumbered, IsWrongEntry, IsFirstIn, IsFirstEntry};

use crate::entry_walk::{is_directory, marks_for};
use crate::finding::Finding;
use pdp_words::Image;
use std::alloc::{AllocError, Global};
use std::collections::BTreeSet;
use vol_dir::name_key;
use vol_layout::i_list::{kind, size};
use vol_layout::slot::SLOT;
use vol_layout::{Geometry, Kind, Slot};

/// Returns the first violation of rule 9. In the first directory that breaks the rule, it is the size if that isn't a whole number of slots, else the
/// first slot that breaks the rule.
///
/// Costs a read of each slot of each directory, except slots below blocks already found to have no entries, and sorting the names of each directory.
/// Takes memory for the names of one directory at a time, and three bytes per block if the directories claim more blocks than the volume has.
pub fn find_entry(
    alloc: Global,
    image: &Image,
    geometry: &Geometry,
) -> Result<Option<Finding>, AllocError>
    requires { Fits geometry.now image.now }
    ensures { IfOk result (Finds (HasEntries geometry.now image.now) (IsFirstEntry geometry.now image.now)) }
{
    let mut marks = marks_for(alloc, image, geometry)?;
    find_marked(alloc, image, geometry, &mut marks)
}

/// Does the work of [`find_entry`]. `marks` marks blocks below which no slot has an entry.
fn find_marked(
    alloc: Global,
    image: &Image,
    geometry: &Geometry,
    marks: &mut [bool],
) -> Result<Option<Finding>, AllocError>
    requires fits { Fits geometry.now image.now }
    requires marks { MarksEmpty geometry.now image.now marks.old }
    ensures { IfOk result (Finds (HasEntries geometry.now image.now) (IsFirstEntry geometry.now image.now)) }
{
    for d in 1..=geometry.last_inode {
        if is_directory(image, geometry, d) {
            if let Some(finding) = find_in(alloc, image, geometry, d, marks)? {
                return Ok(Some(finding));
            }
        }
    }
    Ok(None)
}

/// Returns the first violation of rule 9 in directory `d`. Marks the blocks below which no slot has an entry.
fn find_in(
    alloc: Global,
    image: &Image,
    geometry: &Geometry,
    d: u16,
    marks: &mut [bool],
) -> Result<Option<Finding>, AllocError>
    requires fits { Fits geometry.now image.now }
    requires directory { IsDirectory geometry.now image.now d }
    requires marks { MarksEmpty geometry.now image.now marks.old }
    ensures found { IfOk result (Finds (HasEntriesIn geometry.now image.now d) (IsFirstIn geometry.now image.now d)) }
    ensures marks { MarksEmpty geometry.now image.now marks.new }
{
    if size(image, geometry, d) % SLOT as u32 != 0 {
        return Ok(Some(Finding::PartSlot(d)));
    }
    let mut names = BTreeSet::new(alloc);
    let mut from = 0;
    while let Some((s, slot)) = vol_dir::next_entry_marked(image, geometry, d, from, marks) {
        if let Some(finding) = find_wrong(image, geometry, d, s, &slot) {
            return Ok(Some(finding));
        }
        if !names.insert(name_key(slot))? {
            return Ok(Some(Finding::SameName(d, s)));
        }
        from = s + 1;
    }
    Ok(None)
}

/// Returns the violation of rule 9 by the entry in slot `s` of directory `d`, if there is one. Doesn't check whether the name occurs twice.
fn find_wrong(image: &Image, geometry: &Geometry, d: u16, s: u32, slot: &Slot) -> Option<Finding>
    requires { Fits geometry.now image.now }
    ensures { Finds (IsValidEntry geometry.now image.now (name_of slot.now.name) slot.now.inode)
        (IsWrongEntry geometry.now image.now d s (name_of slot.now.name) slot.now.inode) result }
{
    let name = slot.name();
    if name.is_empty() {
        return Some(Finding::NoName(d, s));
    }
    if name.contains(&b'/') {
        return Some(Finding::Slash(d, s));
    }
    if !is_numbered(geometry, slot.inode) {
        return Some(Finding::BadNumber(d, s));
    }
    if let Kind::Free = kind(image, geometry, slot.inode) {
        return Some(Finding::FreeInode(d, s));
    }
    None
}

/// True if `i` is in the range from the root's i-number to the last i-number.
fn is_numbered(geometry: &Geometry, i: u16) -> bool
    ensures { IsTrue result ↔ IsNumbered geometry.now i }
{
    geometry.edition.constants().root <= i && i <= geometry.last_inode
}
