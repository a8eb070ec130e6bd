//! The walk over everything below a directory.
ghost use Rattle.std.specs.Prelude.{◌≡◌, ◌+◌, ◌++◌, ◌∷◌, [], ◌≤◌, reverse, List, IfOk, OnOk, length, slice_get, slice_index_or, nat_le, ℕ, if◌then◌else◌};
ghost use Rattle.vol_layout.specs.Geometry.{Fits};
ghost use Rattle.vol_dir.specs.Entries.{IsDirectory};
ghost use Rattle.vol_layout.specs.declared.geometry.Geometry.{Geometry};
ghost use Rattle.vol_archive.specs.declared.met_entries.MetEntry.{MetEntry};
ghost use Rattle.vol_archive.specs.Walk.{first_met, role_of, node_role, file_role, has_room, has_path, entries_below, with_lost_directory, IsWalk, Walks};
ghost use Rattle.vol_archive.specs.Marks.{AreFirsts};

use crate::met_entries::{MetEntry, Reason, Role};
use crate::names::{LOST_FOUND, entries_below};
use crate::pending::Pending;
use pdp_words::{Bytes, Image};
use std::alloc::{AllocError, Global};
use ustar::LONGEST;
use vol_layout::i_list::kind;
use vol_layout::{Geometry, Kind};

/// The state of a walk.
#[derive(Drop)]
pub(crate) struct Walked {
    /// All visited entries, in the order of the walk.
    pub(crate) founds: Vec<MetEntry>,
    /// For each i-number, the position of the first member for it, if there is one.
    pub(crate) firsts: Vec<Option<usize>>,
}

/// Returns all entries below directory `start`: its entries except `.` and `..`, in ascending order of their names, and after each directory the
/// entries below it. Entries that can't be members are visited and returned too, but nothing below them.
///
/// Enters each directory once, so it ends on every image. Costs sorting the names of each directory, and memory for all paths.
pub fn walk(
    alloc: Global,
    image: &Image,
    geometry: &Geometry,
    start: u16,
) -> Result<Vec<MetEntry>, AllocError>
    requires fits { Fits geometry.now image.now }
    requires directory { IsDirectory geometry.now image.now start }
    ensures { IfOk result (λ founds. IsWalk geometry.now image.now start founds.items) }
{
    Ok(walk_tree(alloc, image, geometry, start)?.founds)
}

/// Returns the state of a walk before its first entry.
pub(crate) fn unwalked(alloc: Global, geometry: &Geometry) -> Result<Walked, AllocError>
    ensures firsts { IfOk result (λ walked. AreFirsts geometry.now walked.firsts.items walked.founds.items) }
    ensures none { IfOk result (λ walked. walked.founds.items ≡ []) }
{
    let firsts = no_marks(alloc, geometry.last_inode as usize + 1)?;
    Ok(Walked {
        founds: Vec::new(alloc),
        firsts,
    })
}

/// Walks everything below directory `start`.
pub(crate) fn walk_tree(
    alloc: Global,
    image: &Image,
    geometry: &Geometry,
    start: u16,
) -> Result<Walked, AllocError>
    requires fits { Fits geometry.now image.now }
    requires directory { IsDirectory geometry.now image.now start }
    ensures firsts { IfOk result (λ walked. AreFirsts geometry.now walked.firsts.items walked.founds.items) }
    ensures walk { IfOk result (λ walked. IsWalk geometry.now image.now start walked.founds.items) }
{
    let walked = unwalked(alloc, geometry)?;
    let mut pending = Vec::new(alloc);
    push_below(alloc, image, geometry, b"", start, &mut pending)?;
    walk_on(alloc, image, geometry, start, walked, pending)
}

/// Continues a walk below directory `start` to its end. The next pending entry is the last in the list.
pub(crate) fn walk_on(
    alloc: Global,
    image: &Image,
    geometry: &Geometry,
    start: u16,
    walked: Walked,
    pending: Vec<Pending>,
) -> Result<Walked, AllocError>
    requires fits { Fits geometry.now image.now }
    requires firsts { AreFirsts geometry.now walked.firsts.items walked.founds.items }
    ensures firsts { IfOk result (λ after. AreFirsts geometry.now after.firsts.items after.founds.items) }
    ensures walk { IfOk result (λ after. Walks geometry.now image.now start walked.founds.items (reverse pending.items) after.founds.items) }
{
    let Walked {
        mut founds,
        mut firsts,
    } = walked;
    let mut pending = pending;
    'entries: while let Some(entry) = pending.pop() {
        let role = role_of(image, geometry, start, &firsts, &entry);
        if let Role::Directory = role {
            let path = entry.path.as_slice();
            push_below(alloc, image, geometry, path, entry.inode, &mut pending)?;
        }
        mark_first(&mut firsts, entry.inode, role, founds.len());
        founds.push(MetEntry {
            path: entry.path,
            inode: entry.inode,
            role,
        })?;
    }
    Ok(Walked { founds, firsts })
}

/// Appends the directory of lost i-nodes, if there are any and no entry has its path.
pub(crate) fn push_lost_directory(
    alloc: Global,
    start: u16,
    lost: &[u16],
    walked: Walked,
) -> Result<Walked, AllocError>
    ensures firsts { (geometry : Geometry) → AreFirsts geometry walked.firsts.items walked.founds.items
        → IfOk result (λ after. AreFirsts geometry after.firsts.items after.founds.items) }
    ensures met { IfOk result (λ after. after.founds.items ≡ with_lost_directory start lost.now walked.founds.items) }
{
    let Walked {
        mut founds,
        mut firsts,
    } = walked;
    if !lost.is_empty() && !has_path(&founds, LOST_FOUND) {
        mark_first(&mut firsts, start, Role::Directory, founds.len());
        founds.push(MetEntry {
            path: Bytes::from_vec(Vec::from_slice(alloc, LOST_FOUND)?),
            inode: start,
            role: Role::Directory,
        })?;
    }
    Ok(Walked { founds, firsts })
}

/// True if a visited entry has this path.
fn has_path(founds: &[MetEntry], path: &[u8]) -> bool
    ensures { result ≡ has_path path.now founds.now }
{
    founds.iter().any(|found| found.path.as_slice() == path)
}

/// Returns `count` marks, none of them set.
fn no_marks(alloc: Global, count: usize) -> Result<Vec<Option<usize>>, AllocError>
    ensures len { IfOk result (λ marks. length marks.items ≡ count) }
    ensures none { IfOk result (λ marks. (i : ℕ) → slice_index_or marks.items i None ≡ None) }
{
    vec![in alloc; None; count]
}

/// Pushes the entries of directory `dir` at a path onto the pending entries in reverse order, so that the first is on top.
fn push_below(
    alloc: Global,
    image: &Image,
    geometry: &Geometry,
    path: &[u8],
    dir: u16,
    pending: &mut Vec<Pending>,
) -> Result<(), AllocError>
    requires fits { Fits geometry.now image.now }
    requires directory { IsDirectory geometry.now image.now dir }
    ensures { OnOk result (reverse pending.new.items ≡ entries_below geometry.now image.now path.now dir ++ reverse pending.old.items) }
{
    push_all(entries_below(alloc, image, geometry, path, dir)?, pending)
}

/// Pushes entries onto the pending ones in reverse order, so that the first is on top.
pub(crate) fn push_all(entries: Vec<Pending>, pending: &mut Vec<Pending>) -> Result<(), AllocError>
    ensures { OnOk result (reverse pending.new.items ≡ entries.items ++ reverse pending.old.items) }
{
    let mut entries = entries;
    while let Some(entry) = entries.pop() {
        pending.push(entry)?;
    }
    Ok(())
}

/// Sets the mark of an i-number to position `place`, unless it is already set or links can't refer to a member with this role.
fn mark_first(firsts: &mut Vec<Option<usize>>, inode: u16, role: Role, place: usize)
    ensures { (geometry : Geometry) (founds : List MetEntry) (found : MetEntry) → AreFirsts geometry firsts.old.items founds → place ≡ length founds
        → found.inode ≡ inode → found.role ≡ role → AreFirsts geometry firsts.new.items (founds ++ found ∷ []) }
{
    let i = inode as usize;
    if i < firsts.len() && role.is_first() && firsts[i].is_none() {
        firsts[i] = Some(place);
    }
}

/// Returns the role of an entry visited below directory `start`, after the others.
pub(crate) fn role_of(
    image: &Image,
    geometry: &Geometry,
    start: u16,
    firsts: &[Option<usize>],
    entry: &Pending,
) -> Role
    requires fits { Fits geometry.now image.now }
    requires firsts { length firsts.now ≡ geometry.now.last_inode + 1 }
    ensures role { (founds : List MetEntry) → AreFirsts geometry.now firsts.now founds
        → result ≡ role_of geometry.now image.now start (first_met entry.now.inode founds) entry.now }
    ensures directory { result ≡ Role.Directory → IsDirectory geometry.now image.now entry.now.inode }
{
    if !entry.is_plain {
        return Role::Left(Reason::BadName);
    }
    let i = entry.inode;
    if i == 0 || i > geometry.last_inode {
        return Role::Left(Reason::NoNode);
    }
    node_role(start, firsts[i as usize], entry, kind(image, geometry, i))
}

/// Returns the role of an entry for an i-node of this kind; an earlier member with the same i-number, if any, is at position `first`.
fn node_role(start: u16, first: Option<usize>, entry: &Pending, kind: Kind) -> Role
    ensures role { result ≡ node_role start first entry.now kind }
    ensures directory { result ≡ Role.Directory → kind ≡ Kind.Directory }
{
    let path = entry.path.as_slice();
    match kind {
        Kind::Free => Role::Left(Reason::NoNode),
        Kind::Odd => Role::Left(Reason::OddNode),
        Kind::Regular => file_role(Role::File, first, path),
        Kind::Special => file_role(Role::Special, first, path),
        Kind::Directory if entry.inode == start || first.is_some() => Role::Left(Reason::Again),
        Kind::Directory => directory_role(path),
    }
}

/// Returns the role of a directory at a path that wasn't visited before. The path of its member ends in a slash.
fn directory_role(path: &[u8]) -> Role
    ensures { result ≡ (if has_room (path.now ++ 47 ∷ []) then Role.Directory else Role.Left Reason.LongPath) }
{
    if path.len() < LONGEST {
        Role::Directory
    } else {
        Role::Left(Reason::LongPath)
    }
}

/// Returns the role of a file at a path; an earlier member with the same i-number, if any, is at position `first`.
fn file_role(role: Role, first: Option<usize>, path: &[u8]) -> Role
    ensures exact { result ≡ file_role role first path.now }
    ensures file { result ≡ Role.Directory → role ≡ Role.Directory }
{
    if path.len() > LONGEST {
        return Role::Left(Reason::LongPath);
    }
    match first {
        None => role,
        Some(k) => Role::Link(k),
    }
}
