//! The blocks in the free list, and which of them are chain blocks.
ghost use Rattle.std.specs.Prelude.{◌≡◌, ℕ, ◌<◌, false, length, slice_index_or, IfOk};
ghost use Rattle.vol_layout.specs.Geometry.{Fits};
ghost use Rattle.vol_inspect.specs.FreeListStatus.{listed_at, listed_of};

use pdp_words::Image;
use std::alloc::{AllocError, Global};
use vol_free::FreeWalk;
use vol_layout::Geometry;

/// The status of a block in the free list.
#[derive(Clone, Copy)]
pub(crate) enum Listed {
    /// Not in the free list.
    Absent,
    /// A free block without content.
    Plain,
    /// A free block with the list's next count and array.
    Linking,
}

/// Returns the status of each block of the volume in the free list, up to the list's first fault.
pub(crate) fn listed_blocks(
    alloc: Global,
    image: &Image,
    geometry: &Geometry,
) -> Result<Vec<Listed>, AllocError>
    requires { Fits geometry.now image.now }
    ensures len { IfOk result (λ listed. length listed.items ≡ geometry.now.zone_end) }
    ensures each { IfOk result (λ listed. (b : ℕ) → b < geometry.now.zone_end
        → slice_index_or listed.items b Listed.Absent ≡ listed_of geometry.now image.now b) }
{
    let mut marks = vec![in alloc; false; geometry.zone_end as usize]?;
    let mut listed = vec![in alloc; Listed::Absent; geometry.zone_end as usize]?;
    list(&mut listed, &mut marks, image, geometry);
    Ok(listed)
}

/// Sets the status of the blocks that a walk over the free list passes. At the start no status and no mark is set.
fn list(listed: &mut [Listed], marks: &mut [bool], image: &Image, geometry: &Geometry)
    requires fits { Fits geometry.now image.now }
    requires len { length listed.old ≡ geometry.now.zone_end }
    requires marks { length marks.old ≡ geometry.now.zone_end }
    requires clear { (k : ℕ) → slice_index_or marks.old k false ≡ false }
    requires absent { (b : ℕ) → slice_index_or listed.old b Listed.Absent ≡ Listed.Absent }
    ensures { (b : ℕ) → b < geometry.now.zone_end → slice_index_or listed.new b Listed.Absent ≡ listed_of geometry.now image.now b }
{
    let mut walk = FreeWalk::new(image, geometry);
    'walk: loop {
        let how = listed_at(walk.count);
        match walk.next(image, geometry, marks) {
            Some(Ok(b)) => listed[b as usize] = how,
            Some(Err(_)) => return,
            None => return,
        }
    }
}

/// Returns the status of a free block that is the last of the `left` numbers left in an array.
fn listed_at(left: u16) -> Listed
    ensures { result ≡ listed_at left }
{
    if left == 1 {
        Listed::Linking
    } else {
        Listed::Plain
    }
}
