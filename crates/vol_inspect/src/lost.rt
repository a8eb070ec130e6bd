//! The i-nodes without a directory entry.
ghost use Rattle.std.specs.Prelude.{◌≡◌, ◌⊎◌, ◌+◌, ◌++◌, ◌∷◌, [], ◌≤◌, ℕ, All, List, Some, true, false, IfOk, OnOk, length, slice_index_or, if◌then◌else◌};
ghost use Rattle.vol_layout.specs.Geometry.{Fits};
ghost use Rattle.vol_layout.specs.Slot.{name_of};
ghost use Rattle.vol_layout.specs.declared.geometry.Geometry.{Geometry};
ghost use Rattle.vol_dir.specs.Entries.{IsDirectory};
ghost use Rattle.vol_dir.specs.Names.{is_dots};
ghost use Rattle.vol_dir.specs.Repeats.{MarksSlots};
ghost use Rattle.vol_inspect.specs.Lost.{has_content, is_lost, is_noted, AreLost, IsInList, KnowsNamed, NotesDirectory};

use pdp_words::Image;
use std::alloc::{AllocError, Global};
use vol_dir::{is_dots, next_unmarked};
use vol_file::no_marks;
use vol_judge::entry_walk::is_directory;
use vol_layout::i_list::kind;
use vol_layout::{Geometry, Kind, Slot};

/// Returns the i-nodes without a directory entry, in ascending order: regular files, directories and special files above the root's i-number for
/// which no directory has an entry other than `.` and `..`. The image may have any bytes otherwise. Directories that have entries for one another
/// aren't among them, nor is anything below a directory without an entry.
///
/// Reads each i-node and each slot of each directory, but skips everything below blocks in which no new i-number is named. Takes a byte for each
/// i-number, three for each block, and two for each i-node that is found.
pub fn lost_inodes(
    alloc: Global,
    image: &Image,
    geometry: &Geometry,
) -> Result<Vec<u16>, AllocError>
    requires { Fits geometry.now image.now }
    ensures lost { IfOk result (λ lost. AreLost geometry.now image.now lost.items) }
    ensures numbers { IfOk result (λ lost. All (IsInList geometry.now) lost.items) }
{
    let named = named_inodes(alloc, image, geometry)?;
    let mut lost = Vec::new(alloc);
    for i in 0..u32::from(geometry.last_inode) + 1 {
        push_lost(image, geometry, &named, i as u16, &mut lost)?;
    }
    Ok(lost)
}

/// Appends an i-number, if its i-node is lost.
fn push_lost(
    image: &Image,
    geometry: &Geometry,
    named: &[bool],
    i: u16,
    lost: &mut Vec<u16>,
) -> Result<(), AllocError>
    requires fits { Fits geometry.now image.now }
    requires last { i ≤ geometry.now.last_inode }
    requires room { length named.now ≡ geometry.now.last_inode + 1 }
    ensures { OnOk result (lost.new.items ≡ lost.old.items ++ (if is_lost geometry.now image.now named.now i then i ∷ [] else [])) }
{
    if is_lost(image, geometry, named, i) {
        lost.push(i)?;
    }
    Ok(())
}

/// True if i-node `i` is lost, given the i-numbers that have an entry.
fn is_lost(image: &Image, geometry: &Geometry, named: &[bool], i: u16) -> bool
    requires fits { Fits geometry.now image.now }
    requires last { i ≤ geometry.now.last_inode }
    requires room { length named.now ≡ geometry.now.last_inode + 1 }
    ensures { result ≡ is_lost geometry.now image.now named.now i }
{
    i > geometry.edition.constants().root
        && has_content(kind(image, geometry, i))
        && !named[i as usize]
}

/// True if an i-node of this kind has something to recover.
fn has_content(kind: Kind) -> bool
    ensures { result ≡ has_content kind }
{
    match kind {
        Kind::Regular | Kind::Directory | Kind::Special => true,
        Kind::Free | Kind::Odd => false,
    }
}

/// Returns a mark for each i-number: true if it has an entry other than `.` and `..`.
fn named_inodes(alloc: Global, image: &Image, geometry: &Geometry) -> Result<Vec<bool>, AllocError>
    requires { Fits geometry.now image.now }
    ensures { IfOk result (λ named. KnowsNamed geometry.now image.now named.items) }
{
    let mut marks = no_marks(alloc, geometry)?;
    let mut named = vec![in alloc; false; geometry.last_inode as usize + 1]?;
    note_directories(image, geometry, &mut marks, &mut named);
    Ok(named)
}

/// Marks the i-numbers that have entries. `marks` and `named` have no marks at first.
fn note_directories(image: &Image, geometry: &Geometry, marks: &mut [bool], named: &mut [bool])
    requires fits { Fits geometry.now image.now }
    requires clear { (k : ℕ) → slice_index_or marks.old k false ≡ false }
    requires room { length named.old ≡ geometry.now.last_inode + 1 }
    requires none { (i : ℕ) → slice_index_or named.old i false ≡ false }
    ensures { KnowsNamed geometry.now image.now named.new }
{
    for d in 1..=geometry.last_inode {
        if is_directory(image, geometry, d) {
            note_directory(image, geometry, d, marks, named);
        }
    }
}

/// Marks the i-numbers that directory `d` has entries for. In `marks`, it marks the blocks below which each entry is noted, and skips those.
fn note_directory(
    image: &Image,
    geometry: &Geometry,
    d: u16,
    marks: &mut [bool],
    named: &mut [bool],
)
    requires fits { Fits geometry.now image.now }
    requires directory { IsDirectory geometry.now image.now d }
    requires marks { MarksSlots (is_noted named.old) geometry.now image.now marks.old }
    ensures noted { NotesDirectory geometry.now image.now d named.old named.new }
    ensures marks { MarksSlots (is_noted named.new) geometry.now image.now marks.new }
{
    let mut from = 0;
    while let Some((s, slot)) = next_unmarked(image, geometry, d, from, 0, marks) {
        note_named(&slot, named);
        from = s + 1;
    }
}

/// Marks the i-number of a slot with an entry, unless the entry's name is `.` or `..`.
fn note_named(slot: &Slot, named: &mut [bool])
    ensures room { length named.new ≡ length named.old }
    ensures kept { (i : ℕ) → slice_index_or named.old i false ≡ true → slice_index_or named.new i false ≡ true }
    ensures noted { is_noted named.new (Some (name_of slot.now.name, slot.now.inode)) ≡ true }
    ensures only { (i : ℕ) → slice_index_or named.new i false ≡ true
        → (slice_index_or named.old i false ≡ true) ⊎ ((i ≡ slot.now.inode) × (is_dots (name_of slot.now.name) ≡ false)) }
{
    let i = slot.inode as usize;
    if i < named.len() && !is_dots(slot.name()) {
        named[i] = true;
    }
}
