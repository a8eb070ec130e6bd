//! Rule 10: the entries `.` and `..`.
ghost use Rattle.std.specs.Prelude.{◌≡◌, ◌+◌, ◌<◌, ◌≤◌, ℕ, List, if◌then◌else◌, Some, None, IfOk, IsTrue, ◌↔◌, length, slice_index_or};
ghost use Rattle.std.specs.Str.{bytes_eq};
ghost use Rattle.vol_layout.specs.Geometry.{Fits};
ghost use Rattle.vol_layout.specs.Slot.{name_of};
ghost use Rattle.vol_dir.specs.Entries.{IsDirectory, HasEntries};
ghost use Rattle.vol_dir.specs.Names.{dot, dot_dot};
ghost use Rattle.vol_dir.specs.Repeats.{MarksEmpty};
ghost use Rattle.vol_judge.specs.Directories.{HasDots};
ghost use Rattle.vol_judge.specs.Dots.{NamesParent, KeepsDots, KnowsDots, IsWrongDots, IsFirstDots};
ghost use Rattle.vol_judge.specs.Finds.{Finds};
ghost use Rattle.vol_judge.specs.InodeMarks.{IsNamed};
ghost use Rattle.vol_judge.specs.DirectoryTree.{NotesParents};

use crate::entry_walk::{is_directory, marks_for};
use crate::finding::Finding;
use pdp_words::Image;
use std::alloc::{AllocError, Global};
use vol_layout::{Geometry, Slot};

/// The i-numbers of the entries `.` and `..` of a directory, each `None` if there is no such entry.
#[derive(Clone, Copy)]
struct Dots {
    /// The i-number of the entry `.`.
    own: Option<u16>,
    /// The i-number of the entry `..`.
    up: Option<u16>,
}

/// The i-numbers in the `..` entries of the directories, up to the first directory without an entry `.` for itself.
#[derive(Drop)]
pub struct Ups {
    /// The i-number in the `..` entry of each directory, indexed by the directory's i-number.
    pub numbers: Vec<Option<u16>>,
    /// The first directory without an entry `.` for itself.
    pub nameless: Option<u16>,
}

/// Returns the first violation of rule 10, if rule 9 holds: the first directory without an entry `.` for itself, or without an entry `..` for its
/// parent. The root is its own parent; if it isn't a directory, the rule asks nothing of it. `parents` has the directory that holds an entry for each
/// directory.
///
/// Costs a read of each i-node. Takes no memory.
pub fn find_dots(
    image: &Image,
    geometry: &Geometry,
    ups: &Ups,
    parents: &[Option<u16>],
) -> Option<Finding>
    requires fits { Fits geometry.now image.now }
    requires ups { KnowsDots geometry.now image.now ups.now.numbers.items ups.now.nameless }
    requires parents { NotesParents geometry.now image.now ups.now.numbers.items parents.now }
    ensures { Finds (HasDots geometry.now image.now) (IsFirstDots geometry.now image.now) result }
{
    for d in 1..=geometry.last_inode {
        if is_directory(image, geometry, d) {
            if let Some(finding) = find_wrong(geometry, d, ups, parents) {
                return Some(finding);
            }
        }
    }
    None
}

/// Returns the violation of rule 10 by directory `d`, if there is one. All directories before `d` have an entry `.` for themselves.
fn find_wrong(geometry: &Geometry, d: u16, ups: &Ups, parents: &[Option<u16>]) -> Option<Finding>
    requires room { d < length ups.now.numbers.items }
    requires parents_room { d < length parents.now }
    ensures { (image : List ℕ) → IsDirectory geometry.now image d → KnowsDots geometry.now image ups.now.numbers.items ups.now.nameless
        → ((n : ℕ) → ups.now.nameless ≡ Some n → d ≤ n) → NotesParents geometry.now image ups.now.numbers.items parents.now
        → Finds (KeepsDots geometry.now image d) (IsWrongDots geometry.now image d) result }
{
    if ups.nameless == Some(d) {
        return Some(Finding::NoDot(d));
    }
    if names_parent(geometry, d, &ups.numbers, parents) {
        None
    } else {
        Some(Finding::NoDotDot(d))
    }
}

/// True if directory `d` has an entry `..` for its parent. `ups` has the i-number in the `..` of each directory, and `parents` the directory that
/// holds an entry for it.
fn names_parent(geometry: &Geometry, d: u16, ups: &[Option<u16>], parents: &[Option<u16>]) -> bool
    requires ups { d < length ups.now }
    requires parents { d < length parents.now }
    ensures { (image : List ℕ) → IsDirectory geometry.now image d → IsNamed geometry.now image d dot_dot (slice_index_or ups.now d None)
        → NotesParents geometry.now image ups.now parents.now → IsTrue result ↔ NamesParent geometry.now image d }
{
    let Some(up) = ups[d as usize] else {
        return false;
    };
    let root = geometry.edition.constants().root;
    if d == root {
        up == root
    } else {
        parents[d as usize] == Some(up)
    }
}

/// Returns the i-number in the `..` of each directory, up to the first directory without an entry `.` for itself. Rule 9 must hold.
///
/// Costs a read of the slots of each directory up to the later of `.` and `..`, except slots below blocks already found to have no entries. Takes
/// four bytes per i-number, and three bytes per block if the directories claim more blocks than the volume has.
pub fn find_ups(alloc: Global, image: &Image, geometry: &Geometry) -> Result<Ups, AllocError>
    requires fits { Fits geometry.now image.now }
    requires entries { HasEntries geometry.now image.now }
    ensures { IfOk result (λ ups. KnowsDots geometry.now image.now ups.numbers.items ups.nameless) }
{
    let mut marks = marks_for(alloc, image, geometry)?;
    note_ups(alloc, image, geometry, &mut marks)
}

/// Does the work of [`find_ups`]. `marks` marks blocks below which no slot has an entry.
fn note_ups(
    alloc: Global,
    image: &Image,
    geometry: &Geometry,
    marks: &mut [bool],
) -> Result<Ups, AllocError>
    requires fits { Fits geometry.now image.now }
    requires entries { HasEntries geometry.now image.now }
    requires marks { MarksEmpty geometry.now image.now marks.old }
    ensures { IfOk result (λ ups. KnowsDots geometry.now image.now ups.numbers.items ups.nameless) }
{
    let mut numbers = vec![in alloc; None; geometry.last_inode as usize + 1]?;
    for d in 1..=geometry.last_inode {
        if is_directory(image, geometry, d) {
            let dots = dots_in(image, geometry, d, marks);
            if dots.own != Some(d) {
                return Ok(Ups {
                    numbers,
                    nameless: Some(d),
                });
            }
            numbers[d as usize] = dots.up;
        }
    }
    Ok(Ups {
        numbers,
        nameless: None,
    })
}

/// Returns the i-numbers of the entries `.` and `..` of directory `d`. Reads the slots up to the later of the two, except slots below marked blocks,
/// which have no entries.
fn dots_in(image: &Image, geometry: &Geometry, d: u16, marks: &mut [bool]) -> Dots
    requires marks { MarksEmpty geometry.now image.now marks.old }
    requires fits { Fits geometry.now image.now }
    requires directory { IsDirectory geometry.now image.now d }
    requires entries { HasEntries geometry.now image.now }
    ensures own { IsNamed geometry.now image.now d dot result.own }
    ensures up { IsNamed geometry.now image.now d dot_dot result.up }
    ensures marks { MarksEmpty geometry.now image.now marks.new }
{
    let mut own = None;
    let mut up = None;
    let mut from = 0;
    while let Some((s, slot)) = vol_dir::next_entry_marked(image, geometry, d, from, marks) {
        own = noted(&slot, b".".as_slice(), own);
        up = noted(&slot, b"..".as_slice(), up);
        if own.is_some() && up.is_some() {
            return Dots { own, up };
        }
        from = s + 1;
    }
    Dots { own, up }
}

/// Returns the i-number of a slot if the slot has this name, else `before`.
fn noted(slot: &Slot, name: &[u8], before: Option<u16>) -> Option<u16>
    ensures { result ≡ if bytes_eq name.now (name_of slot.now.name) then Some slot.now.inode else before }
{
    if name == slot.name() {
        Some(slot.inode)
    } else {
        before
    }
}
