//! The piece for the free list: walks the list up to its first fault.
ghost use Rattle.std.specs.Prelude.{◌≡◌, ℕ, ◌≤◌, false, length, slice_index_or, IfOk, IfErr};
ghost use Rattle.vol_layout.specs.Geometry.{Fits};
ghost use Rattle.vol_free.specs.FreeWalk.{free_walk};
ghost use Rattle.count_table.specs.Tallies.{IsSeatAt, table_shape};
ghost use Rattle.vol_reports.specs.Words.{HasWords};
ghost use Rattle.vol_check.specs.Pieces.{Adds, free_weight};

use count_table::{Tally, TallySeat};
use pdp_words::Image;
use std::alloc::{AllocError, Global};
use vol_free::{FreeFault, FreeWalk};
use vol_layout::Geometry;
use vol_reports::words::free_word;

/// Marks each block that a walk over the free list passes, and returns the fault that ended the walk. Takes a byte for each block of the volume. If
/// there is no memory, nothing is marked.
pub(crate) fn mark_free(
    alloc: Global,
    tally: &Tally,
    seat: &mut TallySeat,
    image: &Image,
    geometry: &Geometry,
) -> Result<Option<(FreeFault, u32)>, AllocError>
    requires fits { Fits geometry.now image.now }
    requires words { HasWords geometry.now (table_shape tally.now) }
    requires own { IsSeatAt tally.now seat.old }
    requires parts { 1 ≤ seat.old.me.0.parts }
    ensures marks { IfOk result (λ _. Adds tally.now seat.old seat.new (free_weight geometry.now image.now)) }
    ensures fault { IfOk result (λ fault. fault ≡ (free_walk geometry.now image.now).fault) }
    ensures err { IfErr result (λ _. seat.new ≡ seat.old) }
{
    let mut marks = vec![in alloc; false; geometry.zone_end as usize]?;
    Ok(walk(tally, seat, image, geometry, &mut marks))
}

/// Marks each block that the walk passes. There is a mark for each block of the volume, all unset at the start.
fn walk(
    tally: &Tally,
    seat: &mut TallySeat,
    image: &Image,
    geometry: &Geometry,
    marks: &mut [bool],
) -> Option<(FreeFault, u32)>
    requires fits { Fits geometry.now image.now }
    requires words { HasWords geometry.now (table_shape tally.now) }
    requires own { IsSeatAt tally.now seat.old }
    requires parts { 1 ≤ seat.old.me.0.parts }
    requires len { length marks.old ≡ geometry.now.zone_end }
    requires clear { (k : ℕ) → slice_index_or marks.old k false ≡ false }
    ensures marks { Adds tally.now seat.old seat.new (free_weight geometry.now image.now) }
    ensures fault { result ≡ (free_walk geometry.now image.now).fault }
{
    let mut walk = FreeWalk::new(image, geometry);
    'walk: loop {
        match walk.next(image, geometry, marks) {
            Some(Ok(b)) => tally.count(seat, free_word(geometry, b), 1),
            Some(Err(fault)) => return Some(fault),
            None => return None,
        }
    }
}
