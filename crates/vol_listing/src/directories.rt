//! The names in directories.
ghost use Rattle.std.specs.Prelude.{◌≡◌, true, IfOk};
ghost use Rattle.vol_dir.specs.Entries.{IsDirectory};
ghost use Rattle.vol_dir.specs.Tree.{tree};
ghost use Rattle.vol_dir.specs.Walk.{is_directory};
ghost use Rattle.vol_layout.specs.Geometry.{Fits};
ghost use Rattle.vol_change.specs.Nodes.{names_at, node_at};
ghost use Rattle.vol_listing.specs.Depths.{opens};
ghost use Rattle.vol_listing.specs.Places.{names_under};

use crate::options::Depth;
use crate::rows::is_number;
use pdp_words::Image;
use std::alloc::{AllocError, Global};
use vol_dir::{Cred, list_names, walk};
use vol_layout::i_list::kind;
use vol_layout::{Geometry, Kind};
use vol_volume::Bytes;

/// True if node `i` is a directory.
#[tactic(auto, using(crate::proofs::NodesRead::directory_is, crate::proofs::NodesRead::directory_not, crate::proofs::NodesRead::directory_outside, crate::proofs::NodesRead::is_directory_at))]
pub(crate) fn is_directory(image: &Image, geometry: &Geometry, i: u16) -> bool
    requires { Fits geometry.now image.now }
    ensures exact { result ≡ is_directory (node_at (tree geometry.now image.now) i) }
    ensures directory { result ≡ true → IsDirectory geometry.now image.now i }
{
    is_number(geometry, i) && kind(image, geometry, i) == Kind::Directory
}

/// True if a listing at this depth shows the contents of node `i` rather than the node itself.
pub(crate) fn opens(image: &Image, geometry: &Geometry, depth: Depth, i: u16) -> bool
    requires { Fits geometry.now image.now }
    ensures { result ≡ opens depth (node_at (tree geometry.now image.now) i) }
{
    match depth {
        Depth::Itself => false,
        Depth::Names | Depth::Below => is_directory(image, geometry, i),
    }
}

/// Returns the names in the directory at a path, with their i-numbers, in ascending order of their bytes. Returns none if the path leads to no
/// directory.
///
/// Costs walking the path, reading each slot, and sorting the names.
#[tactic(auto, unfolding(crate::specs::Places::names_under))]
pub(crate) fn names(
    alloc: Global,
    image: &Image,
    geometry: &Geometry,
    path: &[u8],
) -> Result<Vec<(Bytes, u16)>, AllocError>
    requires { Fits geometry.now image.now }
    ensures { IfOk result (λ names. names.items ≡ names_under (tree geometry.now image.now) path.now) }
{
    match walk(image, geometry, Cred::ROOT, path) {
        Ok(i) => names_at(alloc, image, geometry, i),
        Err(_) => Ok(Vec::new(alloc)),
    }
}

/// Returns the names in directory `i`, in ascending order of their bytes. Returns none if `i` isn't a directory.
#[tactic(auto, using(vol_volume::proofs::NodeReadings::names_are, crate::proofs::NodesRead::names_of_other))]
fn names_at(
    alloc: Global,
    image: &Image,
    geometry: &Geometry,
    i: u16,
) -> Result<Vec<(Bytes, u16)>, AllocError>
    requires { Fits geometry.now image.now }
    ensures { IfOk result (λ names. names.items ≡ names_at (tree geometry.now image.now) i) }
{
    if is_directory(image, geometry, i) {
        list_names(alloc, image, geometry, i)
    } else {
        Ok(Vec::new(alloc))
    }
}
