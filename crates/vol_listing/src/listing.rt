//! Lists a file or directory of an image.
ghost use Rattle.std.specs.Prelude.{◌≡◌, IfOk};
ghost use Rattle.vol_dir.specs.Tree.{tree};
ghost use Rattle.vol_layout.specs.Geometry.{Fits};
ghost use Rattle.vol_listing.specs.Listings.{shown_path, start_of, IsBelow, IsListingOf};

use crate::lines::{Style, lines_text};
use crate::listing_json::json_text;
use crate::options::{Depth, Lines, ListOptions, Screen};
use crate::places::{ListedNode, all_below};
use pdp_words::Image;
use std::alloc::{AllocError, Global};
use vol_layout::Geometry;
use vol_volume::Bytes;

/// Returns the listing of `inode`, at `path`. A directory's names are listed in ascending order of their bytes, each on a line with its i-number and,
/// if `listing` asks for them, its i-node's attributes; if `listing` asks for it, the names of each directory below follow. A file, or a directory
/// that is listed itself, has one line. As JSON, the listing has the same contents, with names escaped as on a terminal. The image may be any that has
/// this geometry; one that isn't sound may have directories in a ring, so that the directories below have no end, and memory runs out.
///
/// Costs reading each i-node whose attributes are shown, and, for each directory, walking its path and sorting its names. Takes memory for these and
/// for the text.
pub fn list(
    alloc: Global,
    image: &Image,
    geometry: &Geometry,
    path: &[u8],
    inode: u16,
    listing: ListOptions,
    screen: Screen,
) -> Result<Vec<u8>, AllocError>
    requires { Fits geometry.now image.now }
    ensures { IfOk result (λ text. IsListingOf (tree geometry.now image.now) listing screen (start_of path.now inode) text.items) }
{
    let path = Bytes::from_vec(shown_path(alloc, path)?);
    let start = ListedNode { path, inode };
    list_place(alloc, image, geometry, &start, listing, screen)
}

/// Returns the path at the top of a listing.
pub fn shown_path(alloc: Global, path: &[u8]) -> Result<Vec<u8>, AllocError>
    ensures { IfOk result (λ shown. shown.items ≡ shown_path path.now) }
{
    if path.is_empty() {
        Vec::from_slice(alloc, b"/")
    } else {
        Vec::from_slice(alloc, path)
    }
}

/// Returns the listing of a file or directory.
fn list_place(
    alloc: Global,
    image: &Image,
    geometry: &Geometry,
    start: &ListedNode,
    listing: ListOptions,
    screen: Screen,
) -> Result<Vec<u8>, AllocError>
    requires { Fits geometry.now image.now }
    ensures { IfOk result (λ text. IsListingOf (tree geometry.now image.now) listing screen start.now text.items) }
{
    let depth = listing.depth;
    let places = places_below(alloc, image, geometry, start, depth)?;
    let is_long = match listing.lines {
        Lines::Json => {
            let text = json_text(alloc, image, geometry, depth, start, &places)?;
            return Ok(text.into_bytes());
        }
        Lines::Plain => false,
        Lines::Long => true,
    };
    let style = Style { is_long, screen };
    lines_text(alloc, image, geometry, style, depth, start, &places)
}

/// Returns the directories below a directory, if they are to be listed.
fn places_below(
    alloc: Global,
    image: &Image,
    geometry: &Geometry,
    start: &ListedNode,
    depth: Depth,
) -> Result<Vec<ListedNode>, AllocError>
    requires { Fits geometry.now image.now }
    ensures { IfOk result (λ places. IsBelow depth (tree geometry.now image.now) start.now places.items) }
{
    match depth {
        Depth::Itself | Depth::Names => Ok(Vec::new(alloc)),
        Depth::Below => all_below(alloc, image, geometry, start),
    }
}
