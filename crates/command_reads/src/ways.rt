//! The nodes on a path of an image with lost blocks, and the lines about one that can't be trusted.
ghost use Rattle.std.specs.Prelude.{◌≡◌, IfOk, option_map};
ghost use Rattle.vol_layout.specs.Geometry.{Fits, geometry_read};
ghost use Rattle.command_reads.specs.Ways.{IsNumberLineRead, IsWayLine, IsWayLineRead, TellsWay, is_unsure_node, last_seen, lost_number, number_entry, number_in, unsure_on, way_entry};

use pdp_words::{Bytes, Image};
use std::alloc::{AllocError, Global};
use vol_archive::{MetEntry, Role, is_directory};
use vol_dir::{DirectoryFault, find, split_component};
use vol_layout::{Edition, Geometry};
use vol_listing::joined;
use vol_losses::{is_node_lost, is_whole};
use vol_rescue::tell_named;

/// Returns the lines about what is lost on a path that leads to no directory for this reason: the number of lost blocks, and what is lost of the last
/// node on the path from which it can't be trusted where paths lead. Returns `None` if there is none, or no block is lost.
///
/// Costs a walk along the path, and [`is_whole`] of each directory on it.
pub(crate) fn way_lines(
    alloc: Global,
    edition: Edition,
    image: &Image,
    lost: &[bool],
    path: &[u8],
    why: DirectoryFault,
) -> Result<Option<Vec<u8>>, AllocError>
    ensures { IfOk result (λ told. TellsWay edition image.now lost.now path.now why (option_map (λ lines. lines.items) told)) }
{
    if lost.is_empty() {
        return Ok(None);
    }
    match why {
        DirectoryFault::Unsound(_) => Ok(None),
        DirectoryFault::Refused(_) => lines_on(alloc, edition, image, lost, path),
    }
}

/// Returns the lines about the last node on a path from which it can't be trusted where paths lead, if there is one.
fn lines_on(
    alloc: Global,
    edition: Edition,
    image: &Image,
    lost: &[bool],
    path: &[u8],
) -> Result<Option<Vec<u8>>, AllocError>
    ensures { IfOk result (λ told. IsWayLineRead image.now lost.now path.now (option_map (λ lines. lines.items) told) (geometry_read edition image.now)) }
{
    let Ok(geometry) = Geometry::read(edition, image) else {
        return Ok(None);
    };
    let found = unsure_on(alloc, image, &geometry, lost, path)?;
    lines_of(alloc, image, &geometry, lost, found)
}

/// Returns the lines about an i-node that is named by its number, which may be any, if it is lost: the number of lost blocks, and that it is lost.
pub(crate) fn number_lines(
    alloc: Global,
    edition: Edition,
    image: &Image,
    lost: &[bool],
    i: u16,
) -> Result<Option<Vec<u8>>, AllocError>
    ensures { IfOk result (λ told. IsNumberLineRead image.now lost.now i (option_map (λ lines. lines.items) told) (geometry_read edition image.now)) }
{
    let Ok(geometry) = Geometry::read(edition, image) else {
        return Ok(None);
    };
    let found = lost_number(alloc, &geometry, lost, i)?;
    lines_of(alloc, image, &geometry, lost, found)
}

/// Returns the lines about a node that can't be trusted, if there is one.
fn lines_of(
    alloc: Global,
    image: &Image,
    geometry: &Geometry,
    lost: &[bool],
    found: Option<MetEntry>,
) -> Result<Option<Vec<u8>>, AllocError>
    requires { Fits geometry.now image.now }
    ensures { IfOk result (λ told. IsWayLine geometry.now image.now lost.now (option_map (λ lines. lines.items) told) found) }
{
    let Some(found) = found else {
        return Ok(None);
    };
    let told = tell_named(alloc, image, geometry, lost, &[found])?;
    Ok(Some(told.lines))
}

/// Returns the entry of i-node `i`, which may be any number, if it is lost.
fn lost_number(
    alloc: Global,
    geometry: &Geometry,
    lost: &[bool],
    i: u16,
) -> Result<Option<MetEntry>, AllocError>
    ensures { IfOk result (λ found. found ≡ lost_number geometry.now lost.now i) }
{
    if i == 0 || i > geometry.last_inode || !is_node_lost(geometry, lost, i) {
        return Ok(None);
    }
    Ok(Some(number_entry(alloc, i)?))
}

/// Returns the entry of an i-node that a command names by its number.
#[tactic(auto, unfolding(crate::specs::Ways::number_entry))]
pub(crate) fn number_entry(alloc: Global, i: u16) -> Result<MetEntry, AllocError>
    ensures { IfOk result (λ entry. entry ≡ number_entry i) }
{
    let path = format!(in alloc; "{i}")?;
    Ok(MetEntry {
        path: Bytes::from_vec(path.into_bytes()),
        inode: i,
        role: Role::File,
    })
}

/// Returns the last of the nodes on a path, up to where it leads or ends, from which it can't be trusted where paths lead.
pub(crate) fn unsure_on(
    alloc: Global,
    image: &Image,
    geometry: &Geometry,
    lost: &[bool],
    path: &[u8],
) -> Result<Option<MetEntry>, AllocError>
    requires { Fits geometry.now image.now }
    ensures { IfOk result (λ found. found ≡ unsure_on geometry.now image.now lost.now path.now) }
{
    let mut i = geometry.edition.constants().root;
    let mut place = Vec::from_slice(alloc, b"/")?;
    let mut seen = last_seen(alloc, image, geometry, lost, None, &place, i)?;
    let mut rest = path;
    'names: while let Some((name, after)) = split_component(rest) {
        let Some(next) = number_in(image, geometry, i, name) else {
            return Ok(seen);
        };
        place = joined(alloc, &place, name)?;
        seen = last_seen(alloc, image, geometry, lost, seen, &place, next)?;
        i = next;
        rest = after;
    }
    Ok(seen)
}

/// Returns node `i`, at this path, if it can't be trusted where paths lead from it, else what was seen before.
fn last_seen(
    alloc: Global,
    image: &Image,
    geometry: &Geometry,
    lost: &[bool],
    seen: Option<MetEntry>,
    place: &[u8],
    i: u16,
) -> Result<Option<MetEntry>, AllocError>
    requires { Fits geometry.now image.now }
    ensures { IfOk result (λ found. found ≡ last_seen geometry.now image.now lost.now seen place.now i) }
{
    if is_unsure_node(image, geometry, lost, i) {
        return Ok(Some(way_entry(alloc, place, i)?));
    }
    Ok(seen)
}

/// True if it can't be trusted where paths lead from node `i`, which may be any number: its i-node is lost, or bytes of it are and it is a directory.
pub(crate) fn is_unsure_node(image: &Image, geometry: &Geometry, lost: &[bool], i: u16) -> bool
    requires { Fits geometry.now image.now }
    ensures { result ≡ is_unsure_node geometry.now image.now lost.now i }
{
    if i == 0 || i > geometry.last_inode {
        return false;
    }
    is_node_lost(geometry, lost, i)
        || (is_directory(image, geometry, i) && !is_whole(image, geometry, lost, i))
}

/// Returns a node on a path, as an entry with that path.
fn way_entry(alloc: Global, place: &[u8], i: u16) -> Result<MetEntry, AllocError>
    ensures { IfOk result (λ found. found ≡ way_entry place.now i) }
{
    Ok(MetEntry {
        path: Bytes::from_slice(alloc, place)?,
        inode: i,
        role: Role::Directory,
    })
}

/// Returns the i-number that a name has in node `i`, if that is a directory and has the name.
fn number_in(image: &Image, geometry: &Geometry, i: u16, name: &[u8]) -> Option<u16>
    requires { Fits geometry.now image.now }
    ensures { result ≡ number_in geometry.now image.now i name.now }
{
    if is_directory(image, geometry, i) {
        find(image, geometry, i, name)
    } else {
        None
    }
}
