//! Answering queries.
ghost use Rattle.std.specs.Prelude.{◌≡◌, OnOk, IfOk};
ghost use Rattle.std.specs.Result.{result_err};
ghost use Rattle.vol_layout.specs.Body.{body};
ghost use Rattle.vol_layout.specs.Geometry.{geometry_of};
ghost use Rattle.vol_layout.specs.BlockPointers.{IsFile};
ghost use Rattle.vol_dir.specs.Entries.{IsDirectory, IsInUse};
ghost use Rattle.vol_dir.specs.Tree.{tree};
ghost use Rattle.vol_judge.specs.Sound.{IsSound};
ghost use Rattle.vol_change.specs.Nodes.{node_at};
ghost use Rattle.vol_volume.specs.Answer.{stat_of, list_tests, read_bytes, Answers};
ghost use Rattle.vol_volume.specs.Stands.{Rules3To7And9};
ghost use Rattle.vol_volume.specs.Verdict.{first_of};

use crate::checked_calls::asked::{body_tests, find_node, is_directory, is_granted, refuse_if};
use crate::checked_calls::stands;
use crate::queries::{Listing, Query, Reply, Stat};
use pdp_words::{Bytes, Image};
use std::alloc::{AllocError, Global};
use vol_dir::{Access, Cred, Refusal, list_names};
use vol_layout::i_list::{kind, size};
use vol_layout::{Geometry, inode};

/// Answers a query from the tree that an image reads as. The image is sound and has this geometry. NoMemory comes only from Read and List, if the
/// reply can't be allocated. [`Volume::ask`](crate::Volume::ask) lists the refusals.
///
/// Stat takes no memory. All queries cost the walk of the path. In addition, Read costs as much as [`vol_file::read`], and List reads each slot and
/// sorts the names.
pub fn ask_image(
    alloc: Global,
    image: &Image,
    geometry: &Geometry,
    query: &Query,
) -> Result<Reply, Refusal>
    requires sound { IsSound geometry.now.edition image.now }
    requires sizes { geometry.now ≡ geometry_of geometry.now.edition image.now }
    ensures { Answers (tree geometry.now image.now) query.now result }
{
    stands(image, geometry);
    match query {
        Query::Stat { cred, path } => answer_stat(image, geometry, *cred, path.as_slice()),
        Query::Read {
            cred,
            path,
            offset,
            len,
        } => answer_read(
            alloc,
            image,
            geometry,
            *cred,
            path.as_slice(),
            *offset,
            *len,
        ),
        Query::List { cred, path } => answer_list(alloc, image, geometry, *cred, path.as_slice()),
    }
}

/// Answers Stat.
fn answer_stat(
    image: &Image,
    geometry: &Geometry,
    cred: Cred,
    path: &[u8],
) -> Result<Reply, Refusal>
    requires stands { Rules3To7And9 geometry.now image.now }
    ensures { Answers (tree geometry.now image.now) (Query.Stat cred path.now) result }
{
    let i = find_node(image, geometry, cred, path)?;
    Ok(Reply::Stat(stat(image, geometry, i)))
}

/// Answers Read.
fn answer_read(
    alloc: Global,
    image: &Image,
    geometry: &Geometry,
    cred: Cred,
    path: &[u8],
    offset: u32,
    len: u32,
) -> Result<Reply, Refusal>
    requires stands { Rules3To7And9 geometry.now image.now }
    ensures { Answers (tree geometry.now image.now) (Query.Read cred path.now offset len) result }
{
    let i = find_node(image, geometry, cred, path)?;
    body_tests(image, geometry, Access::Read, cred, i)?;
    let bytes = read(alloc, image, geometry, i, offset, len).map_err(|_| Refusal::NoMemory)?;
    Ok(Reply::Bytes(Bytes::from_vec(bytes)))
}

/// Answers List.
fn answer_list(
    alloc: Global,
    image: &Image,
    geometry: &Geometry,
    cred: Cred,
    path: &[u8],
) -> Result<Reply, Refusal>
    requires stands { Rules3To7And9 geometry.now image.now }
    ensures { Answers (tree geometry.now image.now) (Query.List cred path.now) result }
{
    let i = find_node(image, geometry, cred, path)?;
    list_tests(image, geometry, cred, i)?;
    let names = list_names(alloc, image, geometry, i).map_err(|_| Refusal::NoMemory)?;
    Ok(Reply::Names(Listing::from_vec(names)))
}

/// Returns the `Stat` of i-node `i`.
fn stat(image: &Image, geometry: &Geometry, i: u16) -> Stat
    requires stands { Rules3To7And9 geometry.now image.now }
    requires used { IsInUse geometry.now image.now i }
    ensures { result ≡ stat_of i (node_at (tree geometry.now image.now) i) }
{
    let node = inode(image, geometry, i);
    Stat {
        number: i,
        kind: kind(image, geometry, i),
        permissions: node.mode.permissions(),
        links: node.links,
        uid: node.uid,
        gid: node.gid,
        size: node.size,
        accessed: node.accessed,
        modified: node.modified,
        changed: node.changed,
    }
}

/// Checks that i-node `i`, which is in use, is a directory that grants read access, so that its names may be listed.
fn list_tests(image: &Image, geometry: &Geometry, cred: Cred, i: u16) -> Result<(), Refusal>
    requires stands { Rules3To7And9 geometry.now image.now }
    requires used { IsInUse geometry.now image.now i }
    ensures exact { result_err result ≡ first_of (list_tests (tree geometry.now image.now) cred i) }
    ensures directory { OnOk result (IsDirectory geometry.now image.now i) }
{
    refuse_if(!is_directory(image, geometry, i), Refusal::NotDirectory)?;
    refuse_if(
        !is_granted(image, geometry, i, Access::Read, cred),
        Refusal::Access,
    )
}

/// Returns at most `len` bytes of the regular file `i`, starting at byte `offset`.
fn read(
    alloc: Global,
    image: &Image,
    geometry: &Geometry,
    i: u16,
    offset: u32,
    len: u32,
) -> Result<Vec<u8>, AllocError>
    requires stands { Rules3To7And9 geometry.now image.now }
    requires file { IsFile geometry.now image.now i }
    ensures { IfOk result (λ bytes. bytes.items ≡ read_bytes (body geometry.now image.now i) offset len) }
{
    let count = len.min(size(image, geometry, i).saturating_sub(offset));
    let mut bytes = vec![in alloc; 0; count as usize]?;
    vol_file::read(image, geometry, i, offset, &mut bytes);
    Ok(bytes)
}
