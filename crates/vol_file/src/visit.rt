//! Iterating over a range of a file's logical blocks.
ghost use Rattle.std.specs.Prelude.{◌≡◌, ℕ, ◌<◌, ◌≤◌, length, slice_index};
ghost use Rattle.std.specs.List.{FoldsTo, range_with_len};
ghost use Rattle.vol_layout.specs.BlockPointers.{form_at, stored};
ghost use Rattle.vol_layout.specs.Body.{zone_byte};
ghost use Rattle.vol_layout.specs.Geometry.{Fits};
ghost use Rattle.vol_file.specs.Runs.{LooksUp};
ghost use Rattle.vol_file.specs.Visits.{Visits};

use crate::runs::BlockNumbers;
use pdp_words::{BLOCK, Image};
use vol_layout::Geometry;

/// Calls `visit` in order with the 512 bytes of each of `count` logical blocks of i-node `i`, an i-number of the volume, starting with logical block
/// `first`. Holes, blocks outside the data zone and blocks that a file can't have are passed as zeros, and so are all blocks of an i-node that isn't
/// a regular file or directory. Bytes stored past the size are passed too.
///
/// Takes no memory, and copies nothing. Costs a read of one block number for each logical block, and one block-map lookup for each indirect
/// block.
pub fn read_range<F: FnMut(&[u8])>(
    image: &Image,
    geometry: &Geometry,
    i: u16,
    first: u32,
    count: u32,
    mut visit: F,
)
    requires fits { Fits geometry.now image.now }
    requires first { 1 ≤ i }
    requires last { i ≤ geometry.now.last_inode }
    requires callable { F.IsAlwaysCallable visit }
    ensures { (end : F) × FoldsTo (Visits F.FnMut geometry.now image.now i) visit (range_with_len first count) end }
{
    let mut numbers = BlockNumbers::of(image, geometry, i);
    let hole = [0; BLOCK];
    for b in u64::from(first)..u64::from(first) + u64::from(count) {
        let block = number_at(&mut numbers, image, geometry, b);
        visit(block_bytes(image, geometry, block, &hole));
    }
}

/// Returns the block number stored for logical block `b`, or 0 if there is none. A file can't have the blocks whose numbers need more than 32 bits.
fn number_at(numbers: &mut BlockNumbers, image: &Image, geometry: &Geometry, b: u64) -> u32
    requires fits { Fits geometry.now image.now }
    requires own { LooksUp geometry.now image.now numbers.old.inode numbers.old }
    ensures own { LooksUp geometry.now image.now numbers.old.inode numbers.new }
    ensures number { result ≡ stored geometry.now image.now numbers.old.inode (form_at geometry.now image.now numbers.old.inode) b }
{
    if b > u64::from(u32::MAX) {
        return 0;
    }
    numbers.number_at(image, geometry, b as u32)
}

/// Returns the bytes of block `k`, or `hole` if `k` isn't a data block.
#[tactic(auto, unfolding(vol_layout::specs::Body::zone_byte))]
fn block_bytes<'a>(image: &'a Image, geometry: &Geometry, k: u32, hole: &'a [u8]) -> &'a [u8]
    requires fits { Fits geometry.now image.now }
    requires len { length hole.now ≡ 512 }
    requires zeros { (r : ℕ) → r < 512 → slice_index hole.now r ≡ 0 }
    ensures len { length result.now ≡ 512 }
    ensures bytes { (r : ℕ) → r < 512 → slice_index result.now r ≡ zone_byte geometry.now image.now k r }
{
    if geometry.in_zone(k) {
        image.block(k)
    } else {
        hole
    }
}
