//! The lines about an image with lost blocks that was repaired to a copy.
ghost use Rattle.std.specs.Prelude.{◌≡◌, ◌+◌, ◌<◌, ◌≤◌, ◌++◌, ◌||◌, false, IfOk, OnOk, List, ℕ, length, slice_index_or};
ghost use Rattle.std.specs.List.{list_any};
ghost use Rattle.vol_layout.specs.Geometry.{Fits};
ghost use Rattle.vol_dir.specs.Entries.{IsDirectory};
ghost use Rattle.vol_archive.specs.declared.met_entries.MetEntry.{MetEntry};
ghost use Rattle.vol_rescue.specs.Repaired.{TellsRepaired, is_member_of, numbered_entry, other_entries, other_entry};

use crate::lines::tell_losses;
use pdp_words::{Bytes, Image};
use std::alloc::{AllocError, Global};
use vol_archive::{MetEntry, Role, walk};
use vol_layout::Geometry;
use vol_losses::is_node_lost;

/// Returns the lines about what is lost of image `old`, which was repaired to `new`, as [`tell_losses`] returns them of an image: with the paths below
/// directory `start` that the copy has. An i-node without a path in the copy has its line too, by its number, as `i-node 96`, so no i-node of which
/// something is lost has none.
///
/// Costs a walk over the copy, and what [`tell_losses`] costs for its entries and the i-nodes. An error: memory ran out.
pub fn tell_repaired(
    alloc: Global,
    old: &Image,
    new: &Image,
    geometry: &Geometry,
    lost: &[bool],
    start: u16,
) -> Result<Vec<u8>, AllocError>
    requires old { Fits geometry.now old.now }
    requires new { Fits geometry.now new.now }
    requires directory { IsDirectory geometry.now new.now start }
    ensures { IfOk result (λ lines. TellsRepaired geometry.now old.now lost.now new.now start lines.items) }
{
    let founds = walk(alloc, new, geometry, start)?;
    let all = with_others(alloc, geometry, lost, start, founds)?;
    let told = tell_losses(alloc, old, geometry, lost, start, &all)?;
    Ok(told.lines)
}

/// Returns the visited entries, followed by those of the i-nodes that aren't visited.
fn with_others(
    alloc: Global,
    geometry: &Geometry,
    lost: &[bool],
    start: u16,
    founds: Vec<MetEntry>,
) -> Result<Vec<MetEntry>, AllocError>
    ensures { IfOk result (λ all. all.items ≡ founds.items ++ other_entries geometry.now lost.now start founds.items) }
{
    let met = member_marks(alloc, geometry, &founds)?;
    let mut all = founds;
    for before in 0..geometry.last_inode {
        let is_met = is_marked(&met, before + 1);
        push_other(alloc, geometry, lost, start, is_met, before + 1, &mut all)?;
    }
    Ok(all)
}

/// Appends the entry of i-node `i` by its number, unless it is met, it is `start`, or its block is lost.
fn push_other(
    alloc: Global,
    geometry: &Geometry,
    lost: &[bool],
    start: u16,
    is_met: bool,
    i: u16,
    all: &mut Vec<MetEntry>,
) -> Result<(), AllocError>
    requires { 1 ≤ i }
    ensures { (founds : List MetEntry) → is_met ≡ list_any (is_member_of i) founds
        → OnOk result (all.new.items ≡ all.old.items ++ other_entry geometry.now lost.now start founds i) }
{
    if i != start && !is_met && !is_node_lost(geometry, lost, i) {
        all.push(numbered_entry(alloc, i)?)?;
    }
    Ok(())
}

/// Returns the entry of an i-node by its number.
#[tactic(auto, unfolding(crate::specs::Repaired::numbered_entry))]
fn numbered_entry(alloc: Global, i: u16) -> Result<MetEntry, AllocError>
    ensures { IfOk result (λ entry. entry ≡ numbered_entry i) }
{
    let path = format!(in alloc; "i-node {i}")?;
    Ok(MetEntry {
        path: Bytes::from_vec(path.into_bytes()),
        inode: i,
        role: Role::File,
    })
}

/// Returns a mark for each i-number up to the last: true if a visited entry is the first member for it.
fn member_marks(
    alloc: Global,
    geometry: &Geometry,
    founds: &[MetEntry],
) -> Result<Vec<bool>, AllocError>
    ensures count { IfOk result (λ marks. length marks.items ≡ geometry.now.last_inode + 1) }
    ensures marks { IfOk result (λ marks. (i : ℕ) → i ≤ geometry.now.last_inode
        → slice_index_or marks.items i false ≡ list_any (is_member_of i) founds.now) }
{
    let mut marks = vec![in alloc; false; geometry.last_inode as usize + 1]?;
    for found in founds {
        mark_member(&mut marks, found);
    }
    Ok(marks)
}

/// True if i-number `i` is marked.
fn is_marked(marks: &[bool], i: u16) -> bool
    ensures { result ≡ slice_index_or marks.now i false }
{
    let i = i as usize;
    i < marks.len() && marks[i]
}

/// Sets the mark of an entry's i-number, if there is one and the entry is the first member for it.
fn mark_member(marks: &mut [bool], found: &MetEntry)
    ensures count { length marks.new ≡ length marks.old }
    ensures marks { (i : ℕ) → i < length marks.old → slice_index_or marks.new i false ≡ (slice_index_or marks.old i false || is_member_of i found.now) }
{
    let i = found.inode as usize;
    if i < marks.len() && found.role.is_first() {
        marks[i] = true;
    }
}
