//! Edits that make the directories one tree.
ghost use Rattle.std.specs.Prelude.{◌≡◌, ◌+◌, ◌≤◌, true, length};
ghost use Rattle.vol_layout.specs.Geometry.{Fits};

use super::EditFault;
use super::entries::{next_slot, put_number_in};
use super::orphans::{mend_dots, name_orphans};
use pdp_words::Image;
use std::alloc::{AllocError, Global};
use vol_judge::entry_walk::is_directory;
use vol_layout::i_list::kind;
use vol_layout::{Geometry, Kind};

/// Makes the directories of an image one tree: each directory keeps one entry, what has none gets one in `/lost+found`, and `.` and `..` are set. `used`
/// has a mark for each block. Returns true if a block was taken.
pub(super) fn mend_tree(
    alloc: Global,
    image: &mut Image,
    geometry: &Geometry,
    used: &mut [bool],
    now: u32,
) -> Result<bool, EditFault>
    requires fits { Fits geometry.now image.old }
    requires len { length used.old ≡ geometry.now.zone_end }
    ensures { Fits geometry.now image.new }
{
    let before = count_used(used);
    let mut parents = vec![in alloc; 0; geometry.last_inode as usize + 1]?;
    let mut queue = Vec::new(alloc);
    let mut orphans = Vec::new(alloc);
    reach(
        image,
        geometry,
        geometry.edition.constants().root,
        &mut parents,
        &mut queue,
    )?;
    reach_orphans(
        alloc,
        image,
        geometry,
        &mut parents,
        &mut queue,
        &mut orphans,
    )?;
    push_files(alloc, image, geometry, &mut orphans)?;
    name_orphans(image, geometry, &orphans, &mut parents, used, now)?;
    mend_dots(image, geometry, &parents, used)?;
    Ok(count_used(used) != before)
}

/// Returns the number of blocks that are used.
fn count_used(used: &[bool]) -> usize {
    used.iter().filter(|mark| **mark).count()
}

/// Visits the directories below directory `top`, and notes the directory above each; that of `top` is itself. Removes each entry for a directory that was
/// visited before.
fn reach(
    image: &mut Image,
    geometry: &Geometry,
    top: u16,
    parents: &mut [u16],
    queue: &mut Vec<u16>,
) -> Result<(), AllocError>
    requires fits { Fits geometry.now image.old }
    requires first { 1 ≤ top }
    requires last { top ≤ geometry.now.last_inode }
    requires room { length parents.old ≡ geometry.now.last_inode + 1 }
    ensures { Fits geometry.now image.new }
{
    parents[top as usize] = top;
    queue.clear();
    queue.push(top)?;
    for at in 0..=geometry.last_inode as usize {
        if at >= queue.len() {
            break;
        }
        let d = queue[at];
        if 1 <= d && d <= geometry.last_inode {
            reach_from(image, geometry, d, parents, queue)?;
        }
    }
    Ok(())
}

/// Visits the entries of directory `d`, and appends the directories that weren't visited before to the queue.
fn reach_from(
    image: &mut Image,
    geometry: &Geometry,
    d: u16,
    parents: &mut [u16],
    queue: &mut Vec<u16>,
) -> Result<(), AllocError>
    requires fits { Fits geometry.now image.old }
    requires first { 1 ≤ d }
    requires last { d ≤ geometry.now.last_inode }
    requires room { length parents.old ≡ geometry.now.last_inode + 1 }
    ensures { Fits geometry.now image.new }
{
    let mut from = 0;
    while let Some((s, slot)) = next_slot(image, geometry, d, from) {
        let i = slot.inode;
        if !vol_dir::is_dots(slot.name()) && is_directory_number(image, geometry, i) {
            if parents[i as usize] == 0 {
                parents[i as usize] = d;
                queue.push(i)?;
            } else {
                put_number_in(image, geometry, d, s, 0);
            }
        }
        from = s + 1;
    }
    Ok(())
}

/// True if `i` is the i-number of a directory.
fn is_directory_number(image: &Image, geometry: &Geometry, i: u16) -> bool
    requires { Fits geometry.now image.now }
    ensures { result ≡ true → i ≤ geometry.now.last_inode }
{
    1 <= i && i <= geometry.last_inode && is_directory(image, geometry, i)
}

/// Visits the directories that the root doesn't lead to: first from those that none of the others names, then from what is left, the least i-number
/// first. Appends those that it began with to the orphans.
fn reach_orphans(
    alloc: Global,
    image: &mut Image,
    geometry: &Geometry,
    parents: &mut [u16],
    queue: &mut Vec<u16>,
    orphans: &mut Vec<u16>,
) -> Result<(), AllocError>
    requires fits { Fits geometry.now image.old }
    requires room { length parents.old ≡ geometry.now.last_inode + 1 }
    ensures { Fits geometry.now image.new }
{
    let mut named = vec![in alloc; false; geometry.last_inode as usize + 1]?;
    mark_named(image, geometry, parents, &mut named);
    for before in 0..geometry.last_inode {
        if !named[before as usize + 1] {
            reach_orphan(image, geometry, before + 1, parents, queue, orphans)?;
        }
    }
    for before in 0..geometry.last_inode {
        reach_orphan(image, geometry, before + 1, parents, queue, orphans)?;
    }
    Ok(())
}

/// If `i` is a directory that wasn't visited, visits those below it, and appends it to the orphans.
fn reach_orphan(
    image: &mut Image,
    geometry: &Geometry,
    i: u16,
    parents: &mut [u16],
    queue: &mut Vec<u16>,
    orphans: &mut Vec<u16>,
) -> Result<(), AllocError>
    requires fits { Fits geometry.now image.old }
    requires first { 1 ≤ i }
    requires last { i ≤ geometry.now.last_inode }
    requires room { length parents.old ≡ geometry.now.last_inode + 1 }
    ensures { Fits geometry.now image.new }
{
    if parents[i as usize] == 0 && is_directory(image, geometry, i) {
        orphans.push(i)?;
        reach(image, geometry, i, parents, queue)?;
    }
    Ok(())
}

/// Marks each i-number that a directory that wasn't visited names, other than its own.
fn mark_named(image: &Image, geometry: &Geometry, parents: &[u16], named: &mut [bool])
    requires fits { Fits geometry.now image.now }
    requires room { length parents.now ≡ geometry.now.last_inode + 1 }
    requires marks { length named.old ≡ geometry.now.last_inode + 1 }
{
    for before in 0..geometry.last_inode {
        if parents[before as usize + 1] == 0 {
            mark_entries(image, geometry, before + 1, named);
        }
    }
}

/// Marks each i-number that directory `d` has an entry for, other than `.`, `..` and its own.
fn mark_entries(image: &Image, geometry: &Geometry, d: u16, named: &mut [bool])
    requires fits { Fits geometry.now image.now }
    requires first { 1 ≤ d }
    requires last { d ≤ geometry.now.last_inode }
    requires marks { length named.old ≡ geometry.now.last_inode + 1 }
{
    let mut from = 0;
    while let Some((s, slot)) = next_slot(image, geometry, d, from) {
        let i = slot.inode as usize;
        if i < named.len() && slot.inode != d && !vol_dir::is_dots(slot.name()) {
            named[i] = true;
        }
        from = s + 1;
    }
}

/// Appends the allocated i-nodes that aren't directories and have no entry, from the root's i-number on.
fn push_files(
    alloc: Global,
    image: &Image,
    geometry: &Geometry,
    orphans: &mut Vec<u16>,
) -> Result<(), AllocError>
    requires { Fits geometry.now image.now }
{
    let mut named = vec![in alloc; false; geometry.last_inode as usize + 1]?;
    for before in 0..geometry.last_inode {
        mark_entries(image, geometry, before + 1, &mut named);
    }
    for before in 0..geometry.last_inode {
        let i = before + 1;
        let kind = kind(image, geometry, i);
        let is_file = kind != Kind::Free && kind != Kind::Directory;
        if is_file && !named[i as usize] && geometry.edition.constants().root <= i {
            orphans.push(i)?;
        }
    }
    Ok(())
}
