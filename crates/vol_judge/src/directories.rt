//! Rules 9 to 12: the directories and their tree.
ghost use Rattle.std.specs.Prelude.{IfOk};
ghost use Rattle.vol_layout.specs.Geometry.{Fits};
ghost use Rattle.vol_judge.specs.Judge.{IsFirstBroken};
ghost use Rattle.vol_judge.specs.Sound.{directory_rules};

mod dots;
mod entered;
mod links;
mod tree;

use crate::entries::find_entry;
pub use dots::{Ups, find_dots, find_ups};
pub use entered::{Entered, find_entered};
pub use links::find_link;
use pdp_words::Image;
use std::alloc::{AllocError, Global};
pub use tree::find_tree;
use vol_layout::Geometry;

/// Returns the first of rules 9 to 12 that a volume breaks, or `None` if it keeps all four. The geometry must fit the image. Fails only if memory
/// runs out.
///
/// Costs a few reads of each i-node and of each slot of each directory, and sorting the names of each directory. Takes a few bytes per i-number, and
/// memory for the names of one directory at a time.
pub(crate) fn judge_directories(
    alloc: Global,
    image: &Image,
    geometry: &Geometry,
) -> Result<Option<u8>, AllocError>
    requires { Fits geometry.now image.now }
    ensures { IfOk result (λ least. IsFirstBroken 9 (directory_rules geometry.now image.now) least) }
{
    if find_entry(alloc, image, geometry)?.is_some() {
        return Ok(Some(9));
    }
    let ups = find_ups(alloc, image, geometry)?;
    let found = find_entered(alloc, image, geometry, &ups.numbers)?;
    if find_dots(image, geometry, &ups, &found.parents).is_some() {
        return Ok(Some(10));
    }
    drop(ups);
    if find_tree(alloc, image, geometry, found.again, &found.parents)?.is_some() {
        return Ok(Some(11));
    }
    if find_link(image, geometry, &found.counts).is_some() {
        return Ok(Some(12));
    }
    Ok(None)
}
