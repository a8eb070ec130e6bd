//! Plans the calls that remove a path.
ghost use Rattle.std.specs.Prelude.{◌≡◌, ◌++◌, ◌∷◌, [], IfOk, IfErr, OnOk, Some};
ghost use Rattle.vol_volume.specs.Volume.{reads_as};
ghost use Rattle.vol_batch.specs.Removal.{IsFound, IsNotFound, IsRemoval, Takes, names_of, path_of, paths_of, call_of};

use crate::faults::RemovalFault;
use crate::paths::below;
use std::alloc::{AllocError, Global};
use vol_dir::{Cred, Refusal, is_dots};
use vol_volume::{Bytes, Call, Listing, Query, Reply, Volume};

/// Returns the calls that remove a path of a volume, as user 0 and at time `now`. For a directory, they first remove everything below it, with the
/// names of each directory in ascending order of their bytes, and then the directory itself, by an Rmdir. For any other node they remove this one
/// name, by an Unlink, even if it has other names. The path of an entry in a directory is the directory's path, a slash and the name. Changes
/// nothing. The calls may be refused: no Rmdir removes the root, or a directory whose path ends in `.` or `..`.
///
/// If the path leads nowhere, the fault has the refusal of a Stat of it. Takes memory for the calls, with a path each, and for the names of one
/// directory at a time. Costs the walk of the path of each node visited, and a List of each directory.
pub fn removal(
    alloc: Global,
    volume: &Volume,
    path: &[u8],
    now: u32,
) -> Result<Vec<Call>, RemovalFault>
    ensures calls { IfOk result (λ calls. IsRemoval (reads_as volume.now.edition volume.now.image).tree path.now now calls.items) }
    ensures fault { IfErr result (IsNotFound (reads_as volume.now.edition volume.now.image).tree path.now) }
{
    find(alloc, volume, Bytes::from_slice(alloc, path)?)?;
    Ok(calls_for(alloc, volume, Bytes::from_slice(alloc, path)?, now)?)
}

/// Checks that a path leads somewhere.
fn find(alloc: Global, volume: &Volume, path: Bytes) -> Result<(), RemovalFault>
    ensures found { OnOk result (IsFound (reads_as volume.now.edition volume.now.image).tree path) }
    ensures fault { IfErr result (IsNotFound (reads_as volume.now.edition volume.now.image).tree path) }
{
    match volume.ask(
        alloc,
        &Query::Stat {
            cred: Cred::ROOT,
            path,
        },
    ) {
        Ok(_) => Ok(()),
        Err(refusal) => Err(RemovalFault::Missing(refusal)),
    }
}

/// Returns the calls that remove a path and everything below it.
fn calls_for(alloc: Global, volume: &Volume, path: Bytes, now: u32) -> Result<Vec<Call>, AllocError>
    ensures { IfOk result (λ calls. Takes (reads_as volume.now.edition volume.now.image).tree now (path ∷ []) calls.items) }
{
    let mut calls = Vec::new(alloc);
    let mut pending = vec![in alloc; path]?;
    'paths: while let Some(next) = pending.pop() {
        let call = call_for(alloc, volume, next, now, &mut pending)?;
        calls.push(call)?;
    }
    calls.reverse();
    Ok(calls)
}

/// Returns the call that removes a path. If the path leads to a directory, appends the paths of its entries to the list.
fn call_for(
    alloc: Global,
    volume: &Volume,
    path: Bytes,
    now: u32,
    pending: &mut Vec<Bytes>,
) -> Result<Call, AllocError>
    ensures call { IfOk result (λ call. call ≡ call_of now path (names_of (reads_as volume.now.edition volume.now.image).tree path)) }
    ensures pending { OnOk result (pending.new.items ≡ pending.old.items ++ paths_of path (names_of (reads_as volume.now.edition volume.now.image).tree path)) }
{
    let Some(names) = names_of(alloc, volume, Bytes::from_slice(alloc, path.as_slice())?)? else {
        return Ok(Call::Unlink {
            cred: Cred::ROOT,
            now,
            path,
        });
    };
    push_paths(alloc, path.as_slice(), names.as_slice(), pending)?;
    Ok(Call::Rmdir {
        cred: Cred::ROOT,
        now,
        path,
    })
}

/// Returns the names of the directory to which a path leads, or `None` if it leads to no directory.
fn names_of(alloc: Global, volume: &Volume, path: Bytes) -> Result<Option<Listing>, AllocError>
    ensures { IfOk result (λ names. names ≡ names_of (reads_as volume.now.edition volume.now.image).tree path) }
{
    match volume.ask(
        alloc,
        &Query::List {
            cred: Cred::ROOT,
            path,
        },
    ) {
        Ok(Reply::Names(names)) => Ok(Some(names)),
        Err(Refusal::NoMemory) => Err(AllocError),
        _ => Ok(None),
    }
}

/// Appends the paths of names, except `.` and `..`, in the directory to which a path leads.
fn push_paths(
    alloc: Global,
    path: &[u8],
    names: &[(Bytes, u16)],
    pending: &mut Vec<Bytes>,
) -> Result<(), AllocError>
    ensures { OnOk result (pending.new.items ≡ pending.old.items ++ paths_of path.now (Some names.now)) }
{
    'names: for (name, _) in names {
        push_path(alloc, path, name.as_slice(), pending)?;
    }
    Ok(())
}

/// Appends the path of a name in the directory to which a path leads, unless the name is `.` or `..`.
fn push_path(
    alloc: Global,
    path: &[u8],
    name: &[u8],
    pending: &mut Vec<Bytes>,
) -> Result<(), AllocError>
    ensures { OnOk result (pending.new.items ≡ pending.old.items ++ path_of path.now name.now) }
{
    if !is_dots(name) {
        pending.push(below(alloc, path, name)?)?;
    }
    Ok(())
}
