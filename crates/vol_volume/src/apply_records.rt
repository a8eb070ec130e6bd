//! Applying journal records to a bare image.
ghost use Rattle.std.specs.Prelude.{◌≡◌, ◌↔◌, IsTrue, true, false};
ghost use Rattle.vol_layout.specs.Geometry.{geometry_of};
ghost use Rattle.vol_dir.specs.Tree.{state, free_count, shapes};
ghost use Rattle.vol_judge.specs.Sound.{IsSound};
ghost use Rattle.vol_volume.specs.Journal.{MayFollow};
ghost use Rattle.vol_volume.specs.Volume.{Performs};

use crate::calls::Record;
use crate::checked_calls::{make, may_answer, stands};
use pdp_words::Image;
use vol_layout::Geometry;

/// Applies a record to a sound image with this geometry and `free` free blocks, and returns true, if the record may come next. A new node gets the
/// recorded i-number. Otherwise returns false and changes nothing. The image stays sound, and `free` is then the number of its free blocks.
///
/// Takes no memory, and doesn't count the free blocks. Costs as much as [`Volume::call`](crate::Volume::call).
pub fn apply(image: &mut Image, geometry: &Geometry, free: &mut u32, entry: &Record) -> bool
    requires sound { IsSound geometry.now.edition image.old }
    requires sizes { geometry.now ≡ geometry_of geometry.now.edition image.old }
    requires count { free.old ≡ free_count geometry.now (shapes geometry.now image.old) }
    ensures may_follow { IsTrue result ↔ MayFollow (state geometry.now image.old) entry.now }
    ensures performed { result ≡ true → Performs geometry.now image.old image.new entry.now.call entry.now.done }
    ensures unchanged { result ≡ false → image.new ≡ image.old }
    ensures sound { IsSound geometry.now.edition image.new }
    ensures sizes { geometry.now ≡ geometry_of geometry.now.edition image.new }
    ensures count { free.new ≡ free_count geometry.now (shapes geometry.now image.new) }
{
    stands(image, geometry);
    if !may_answer(image, geometry, &entry.call, entry.done) {
        return false;
    }
    match make(image, geometry, *free, &entry.call, Some(entry.done)) {
        Ok(performed) => {
            *free = performed.free;
            true
        }
        Err(_) => false,
    }
}
