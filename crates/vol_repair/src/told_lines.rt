//! The lines of what differs between an image and its repaired copy.
ghost use Rattle.std.specs.Prelude.{◌≡◌, ℕ, ◌+◌, ◌<◌, ◌≤◌, true, false, IfOk, slice_index_or};
ghost use Rattle.std.specs.List.{list_any};
ghost use Rattle.vol_layout.specs.Geometry.{Fits};
ghost use Rattle.vol_losses.specs.Losses.{AgreesOutside};
ghost use Rattle.vol_dir.specs.Repeats.{MarksEmpty};
ghost use Rattle.vol_repair.specs.Lines.{subject, is_about, IsTold, IsTrueLine};
ghost use Rattle.vol_repair.specs.Repaired.{TellsUpTo};
ghost use Rattle.vol_repair.specs.Told.{Grows, TellsLinks, TellsSlot, IsNotFit};

use crate::compared::is_kept;
use crate::entry_pairs::next_pair;
use crate::repair_line::RepairLine;
use pdp_words::Image;
use std::alloc::{AllocError, Global};
use vol_dir::entries::SLOTS;
use vol_file::no_marks;
use vol_layout::i_list::{kind, size};
use vol_layout::{Geometry, Kind, inode};

/// Appends the lines of what differs in the i-nodes and directories of two images, and returns true. Returns false if a file isn't kept that isn't
/// marked in `unfit`, or if there are too many lines. `changed` marks the blocks that differ.
///
/// Costs a read of each i-node, the search of [`is_kept`] for each, and a read of each slot of the directories that aren't kept. Takes six bytes for
/// each block, and memory for the lines. An error: memory ran out.
pub(crate) fn push_lines(
    alloc: Global,
    old: &Image,
    new: &Image,
    geometry: &Geometry,
    changed: &[bool],
    unfit: &[bool],
    lines: &mut Vec<RepairLine>,
) -> Result<bool, AllocError>
    requires old { Fits geometry.now old.now }
    requires new { Fits geometry.now new.now }
    requires agrees { AgreesOutside geometry.now changed.now old.now new.now }
    requires unfit { IsNotFit geometry.now old.now unfit.now }
    requires start { TellsUpTo geometry.now old.now new.now 0 lines.old.items }
    ensures { IfOk result (λ told. told ≡ true → TellsUpTo geometry.now old.now new.now geometry.now.last_inode lines.new.items) }
{
    let mut old_marks = no_marks(alloc, geometry)?;
    let mut new_marks = no_marks(alloc, geometry)?;
    for before in 0..geometry.last_inode {
        if !push_next(
            old,
            new,
            geometry,
            before,
            changed,
            unfit,
            &mut old_marks,
            &mut new_marks,
            lines,
        )? {
            return Ok(false);
        }
    }
    Ok(true)
}

/// Appends the lines of the i-number after `before`, and returns true. Returns false if its file isn't kept and isn't marked in
/// `unfit`, or if there are too many lines.
fn push_next(
    old: &Image,
    new: &Image,
    geometry: &Geometry,
    before: u16,
    changed: &[bool],
    unfit: &[bool],
    old_marks: &mut [bool],
    new_marks: &mut [bool],
    lines: &mut Vec<RepairLine>,
) -> Result<bool, AllocError>
    requires old { Fits geometry.now old.now }
    requires new { Fits geometry.now new.now }
    requires agrees { AgreesOutside geometry.now changed.now old.now new.now }
    requires unfit { IsNotFit geometry.now old.now unfit.now }
    requires last { before < geometry.now.last_inode }
    requires low { before < 65535 }
    requires old_marks { MarksEmpty geometry.now old.now old_marks.old }
    requires new_marks { MarksEmpty geometry.now new.now new_marks.old }
    requires start { TellsUpTo geometry.now old.now new.now before lines.old.items }
    ensures told { IfOk result (λ told. told ≡ true → TellsUpTo geometry.now old.now new.now (before + 1) lines.new.items) }
    ensures old_marks { MarksEmpty geometry.now old.now old_marks.new }
    ensures new_marks { MarksEmpty geometry.now new.now new_marks.new }
{
    let i = before + 1;
    push_links(old, new, geometry, i, lines)?;
    if is_kept(old, new, geometry, changed, i) {
        return Ok(true);
    }
    if !is_marked(unfit, i) {
        return Ok(false);
    }
    lines.push(node_line(old, new, geometry, i))?;
    let told = push_entries(old, new, geometry, i, old_marks, new_marks, lines)?;
    Ok(told)
}

/// True if i-number `i` is marked.
pub(crate) fn is_marked(marks: &[bool], i: u16) -> bool
    ensures { result ≡ slice_index_or marks.now i false }
{
    let i = i as usize;
    i < marks.len() && marks[i]
}

/// Appends the line of the link counts of i-node `i`, if they differ.
fn push_links(
    old: &Image,
    new: &Image,
    geometry: &Geometry,
    i: u16,
    lines: &mut Vec<RepairLine>,
) -> Result<(), AllocError>
    requires old { Fits geometry.now old.now }
    requires new { Fits geometry.now new.now }
    requires first { 1 ≤ i }
    requires last { i ≤ geometry.now.last_inode }
    ensures grows { IfOk result (λ _. Grows geometry.now old.now new.now i lines.old.items lines.new.items) }
    ensures told { IfOk result (λ _. TellsLinks geometry.now old.now new.now i lines.new.items) }
    ensures quiet { IfOk result (λ _. list_any (is_about i) lines.new.items ≡ list_any (is_about i) lines.old.items) }
{
    let was = inode(old, geometry, i).links;
    let is = inode(new, geometry, i).links;
    if was != is {
        lines.push(RepairLine::Links {
            inode: i,
            old: was,
            new: is,
        })?;
    }
    Ok(())
}

/// Returns the line of an i-node that isn't kept.
fn node_line(old: &Image, new: &Image, geometry: &Geometry, i: u16) -> RepairLine
    requires old { Fits geometry.now old.now }
    requires new { Fits geometry.now new.now }
    requires first { 1 ≤ i }
    requires last { i ≤ geometry.now.last_inode }
    ensures subject { subject result ≡ i }
    ensures about { is_about i result ≡ true }
    ensures right { IsTrueLine geometry.now old.now new.now result }
{
    let is = kind(new, geometry, i);
    if kind(old, geometry, i) != is {
        return if is == Kind::Free {
            RepairLine::Cleared(i)
        } else {
            RepairLine::Made(i)
        };
    }
    let was = size(old, geometry, i);
    let is = size(new, geometry, i);
    if was == is {
        RepairLine::Changed(i)
    } else {
        RepairLine::Size {
            inode: i,
            old: was,
            new: is,
        }
    }
}

/// Returns the number of lines after which no more entries are told: as many as directories without shared blocks can need.
fn most_lines(geometry: &Geometry) -> usize {
    2 * SLOTS as usize * geometry.zone_end as usize + 4 * geometry.last_inode as usize
}

/// Appends a line for each slot of directory `d` whose entries differ, and returns true. Returns false if there are more lines than directories need that
/// share no blocks.
fn push_entries(
    old: &Image,
    new: &Image,
    geometry: &Geometry,
    d: u16,
    old_marks: &mut [bool],
    new_marks: &mut [bool],
    lines: &mut Vec<RepairLine>,
) -> Result<bool, AllocError>
    requires old { Fits geometry.now old.now }
    requires new { Fits geometry.now new.now }
    requires first { 1 ≤ d }
    requires last { d ≤ geometry.now.last_inode }
    requires old_marks { MarksEmpty geometry.now old.now old_marks.old }
    requires new_marks { MarksEmpty geometry.now new.now new_marks.old }
    ensures grows { IfOk result (λ _. Grows geometry.now old.now new.now d lines.old.items lines.new.items) }
    ensures told { IfOk result (λ told. told ≡ true → (s : ℕ) → TellsSlot geometry.now old.now new.now d s lines.new.items) }
    ensures old_marks { MarksEmpty geometry.now old.now old_marks.new }
    ensures new_marks { MarksEmpty geometry.now new.now new_marks.new }
{
    let most = most_lines(geometry);
    let mut from = 0;
    while let Some(pair) = next_pair(old, new, geometry, d, from, old_marks, new_marks) {
        if !pair.is_same() {
            if lines.len() >= most {
                return Ok(false);
            }
            lines.push(RepairLine::Entry {
                directory: d,
                slot: pair.number,
                old: pair.old,
                new: pair.new,
            })?;
        }
        from = pair.number + 1;
    }
    Ok(true)
}
