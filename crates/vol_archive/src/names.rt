//! The entries below a directory, in ascending order of their names.
ghost use Rattle.std.specs.Prelude.{◌≡◌, ◌++◌, ◌∷◌, [], IfOk, OnOk, map};
ghost use Rattle.vol_layout.specs.Geometry.{Fits};
ghost use Rattle.vol_dir.specs.Entries.{IsDirectory};
ghost use Rattle.vol_archive.specs.Walk.{path_below, entry_below, pending_below, entries_below, lost_entry};

use crate::pending::Pending;
use pdp_words::{Bytes, Image};
use std::alloc::{AllocError, Global};
use vol_dir::{is_dots, is_plain, list_names};
use vol_layout::Geometry;

/// Returns the entries of the directory `dir` at a path, except `.` and `..`, in ascending order of their names. If several entries have the same
/// name, the first one counts.
///
/// Costs a pass over the slots, and sorting the names.
pub(crate) fn entries_below(
    alloc: Global,
    image: &Image,
    geometry: &Geometry,
    path: &[u8],
    dir: u16,
) -> Result<Vec<Pending>, AllocError>
    requires fits { Fits geometry.now image.now }
    requires directory { IsDirectory geometry.now image.now dir }
    ensures { IfOk result (λ entries. entries.items ≡ entries_below geometry.now image.now path.now dir) }
{
    let names = list_names(alloc, image, geometry, dir)?;
    pending_below(alloc, path, &names)
}

/// Returns the entries with these names in the directory at a path, except `.` and `..`.
fn pending_below(
    alloc: Global,
    path: &[u8],
    names: &[(Bytes, u16)],
) -> Result<Vec<Pending>, AllocError>
    ensures { IfOk result (λ entries. entries.items ≡ pending_below path.now names.now) }
{
    let mut entries = Vec::new(alloc);
    'names: for (name, inode) in names {
        push_entry(alloc, &mut entries, path, name.as_slice(), *inode)?;
    }
    Ok(entries)
}

/// Appends the entry with a name in the directory at a path, unless the name is `.` or `..`.
fn push_entry(
    alloc: Global,
    entries: &mut Vec<Pending>,
    path: &[u8],
    name: &[u8],
    inode: u16,
) -> Result<(), AllocError>
    ensures { OnOk result (entries.new.items ≡ entries.old.items ++ entry_below path.now (name.now, inode)) }
{
    if !is_dots(name) {
        entries.push(Pending {
            path: path_below(alloc, path, name)?,
            inode,
            is_plain: is_plain(name),
        })?;
    }
    Ok(())
}

/// Returns the path of a name in the directory at a path.
fn path_below(alloc: Global, path: &[u8], name: &[u8]) -> Result<Bytes, AllocError>
    ensures { IfOk result (λ joined. joined ≡ path_below path.now name.now) }
{
    let mut bytes = Vec::from_slice(alloc, path)?;
    if !path.is_empty() {
        bytes.push(b'/')?;
    }
    bytes.extend_from_slice(name)?;
    Ok(Bytes::from_vec(bytes))
}

/// The path of the directory of lost i-nodes.
pub(crate) const LOST_FOUND: &[u8] = b"lost+found";

/// Returns the entries of lost i-nodes.
pub(crate) fn lost_entries(alloc: Global, lost: &[u16]) -> Result<Vec<Pending>, AllocError>
    ensures { IfOk result (λ entries. entries.items ≡ map lost_entry lost.now) }
{
    let mut entries = Vec::new(alloc);
    'lost: for inode in lost {
        entries.push(lost_entry(alloc, *inode)?)?;
    }
    Ok(entries)
}

/// Returns the entry of a lost i-node.
#[tactic(auto, unfolding(crate::specs::Walk::lost_entry))]
pub(crate) fn lost_entry(alloc: Global, inode: u16) -> Result<Pending, AllocError>
    ensures { IfOk result (λ entry. entry ≡ lost_entry inode) }
{
    let path = format!(in alloc; "lost+found/#{inode}")?;
    Ok(Pending {
        path: Bytes::from_vec(path.into_bytes()),
        inode,
        is_plain: true,
    })
}

/// Returns the path in a directory's member, with a slash at the end.
pub(crate) fn slashed(alloc: Global, path: &[u8]) -> Result<Vec<u8>, AllocError>
    ensures { IfOk result (λ slashed. slashed.items ≡ path.now ++ 47 ∷ []) }
{
    let mut slashed = Vec::from_slice(alloc, path)?;
    slashed.push(b'/')?;
    Ok(slashed)
}
