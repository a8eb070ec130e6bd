//! The directories of a listing.
ghost use Rattle.std.specs.Prelude.{◌≡◌, ◌++◌, IfOk, OnOk, reverse};
ghost use Rattle.std.specs.List.{flat_map};
ghost use Rattle.vol_dir.specs.Tree.{tree};
ghost use Rattle.vol_layout.specs.Geometry.{Fits};
ghost use Rattle.vol_listing.specs.Places.{ends_in_slash, joined, place_of, directory_below, below, AllBelow};

use crate::directories::{is_directory, names};
use pdp_words::Image;
use std::alloc::{AllocError, Global};
use vol_dir::is_dots;
use vol_layout::Geometry;
use vol_volume::Bytes;

/// A file or a directory, with its path and its i-number.
#[derive(Drop)]
pub(crate) struct ListedNode {
    /// The path.
    pub(crate) path: Bytes,
    /// The i-number.
    pub(crate) inode: u16,
}

/// Returns all directories below a directory, each before its own subdirectories, in ascending order of their names.
///
/// Costs sorting the names of each directory. Takes memory for all paths.
pub(crate) fn all_below(
    alloc: Global,
    image: &Image,
    geometry: &Geometry,
    start: &ListedNode,
) -> Result<Vec<ListedNode>, AllocError>
    requires { Fits geometry.now image.now }
    ensures { IfOk result (λ places. AllBelow (tree geometry.now image.now) start.now places.items) }
{
    let mut places = Vec::new(alloc);
    let mut pending = Vec::new(alloc);
    push_below(alloc, image, geometry, start, &mut pending)?;
    'places: while let Some(place) = pending.pop() {
        push_below(alloc, image, geometry, &place, &mut pending)?;
        places.push(place)?;
    }
    Ok(places)
}

/// Pushes the subdirectories of a directory on the stack of pending directories, with the first one on top.
fn push_below(
    alloc: Global,
    image: &Image,
    geometry: &Geometry,
    place: &ListedNode,
    pending: &mut Vec<ListedNode>,
) -> Result<(), AllocError>
    requires { Fits geometry.now image.now }
    ensures { OnOk result (reverse pending.new.items ≡ below (tree geometry.now image.now) place.now ++ reverse pending.old.items) }
{
    let mut below = below(alloc, image, geometry, place)?;
    'directories: while let Some(place) = below.pop() {
        pending.push(place)?;
    }
    Ok(())
}

/// Returns the subdirectories of a directory, in ascending order of their names.
#[tactic(auto, unfolding(crate::specs::Places::below))]
fn below(
    alloc: Global,
    image: &Image,
    geometry: &Geometry,
    place: &ListedNode,
) -> Result<Vec<ListedNode>, AllocError>
    requires { Fits geometry.now image.now }
    ensures { IfOk result (λ places. places.items ≡ below (tree geometry.now image.now) place.now) }
{
    let path = place.path.as_slice();
    let names = names(alloc, image, geometry, path)?;
    directories_among(alloc, image, geometry, path, &names)
}

/// Returns the directories among the entries of the directory at a path, except `.` and `..`.
fn directories_among(
    alloc: Global,
    image: &Image,
    geometry: &Geometry,
    path: &[u8],
    names: &[(Bytes, u16)],
) -> Result<Vec<ListedNode>, AllocError>
    requires { Fits geometry.now image.now }
    ensures { IfOk result (λ places. places.items ≡ flat_map (directory_below (tree geometry.now image.now) path.now) names.now) }
{
    let mut places = Vec::new(alloc);
    'names: for (name, inode) in names {
        let name = name.as_slice();
        push_directory(alloc, image, geometry, path, name, *inode, &mut places)?;
    }
    Ok(places)
}

/// Appends an entry of the directory at a path, as a listed node, if it is a directory and neither `.` nor `..`.
fn push_directory(
    alloc: Global,
    image: &Image,
    geometry: &Geometry,
    path: &[u8],
    name: &[u8],
    inode: u16,
    places: &mut Vec<ListedNode>,
) -> Result<(), AllocError>
    requires { Fits geometry.now image.now }
    ensures { OnOk result (places.new.items ≡ places.old.items ++ directory_below (tree geometry.now image.now) path.now (name.now, inode)) }
{
    if !is_dots(name) && is_directory(image, geometry, inode) {
        places.push(place_of(alloc, path, name, inode)?)?;
    }
    Ok(())
}

/// Returns an entry of the directory at a path as a listed node.
fn place_of(alloc: Global, path: &[u8], name: &[u8], inode: u16) -> Result<ListedNode, AllocError>
    ensures { IfOk result (λ place. place ≡ place_of path.now (name.now, inode)) }
{
    Ok(ListedNode {
        path: Bytes::from_vec(joined(alloc, path, name)?),
        inode,
    })
}

/// Returns the path of a name in the directory at a path, with a slash between the two.
pub fn joined(alloc: Global, path: &[u8], name: &[u8]) -> Result<Vec<u8>, AllocError>
    ensures { IfOk result (λ bytes. bytes.items ≡ joined path.now name.now) }
{
    let mut bytes = Vec::from_slice(alloc, path)?;
    if !ends_in_slash(path) {
        bytes.push(b'/')?;
    }
    bytes.extend_from_slice(name)?;
    Ok(bytes)
}

/// True if a path ends in a slash.
fn ends_in_slash(path: &[u8]) -> bool
    ensures { result ≡ ends_in_slash path.now }
{
    !path.is_empty() && path[path.len() - 1] == b'/'
}
