//! Looking up the block number of a logical block in the block map.
ghost use Rattle.std.specs.Prelude.{◌≡◌, ℕ, ◌+◌, ◌*◌, ◌<◌, ◌≤◌, slice_index};
ghost use Rattle.vol_layout.specs.Edition.{constants};
ghost use Rattle.vol_layout.specs.Geometry.{Fits};
ghost use Rattle.vol_layout.specs.BlockPointers.{pointer_in, form_at, named, stored, block_named};
ghost use Rattle.vol_layout.specs.BlockMaps.{place_to};

use pdp_words::{BLOCK, Image};
use vol_layout::i_list::{address, mode};
use vol_layout::{BlockMap, BlockPath, Geometry, number};

/// Returns the block number stored for logical block `b` of i-node `i`, an i-number of the volume. Returns `None` if `b` is a hole or past the last
/// block that a file can have, or if the i-node isn't a regular file or directory. The number may be outside the data zone.
pub fn block_at(image: &Image, geometry: &Geometry, i: u16, b: u32) -> Option<u32>
    requires fits { Fits geometry.now image.now }
    requires first { 1 ≤ i }
    requires last { i ≤ geometry.now.last_inode }
    ensures { result ≡ block_named geometry.now image.now i b }
{
    let form = BlockMap::of(geometry.edition, mode(image, geometry, i));
    match number_at(image, geometry, i, form, b) {
        0 => None,
        k => Some(k),
    }
}

/// Returns block number `j` of the indirect block `m`, or 0 if `m` isn't a data block.
#[tactic(auto, unfolding(vol_layout::specs::BlockPointers::pointer_in))]
pub(crate) fn entry(image: &Image, geometry: &Geometry, m: u32, j: u32) -> u32
    requires fits { Fits geometry.now image.now }
    requires index { (constants geometry.now.edition).number_bytes * (j + 1) ≤ 512 }
    ensures { result ≡ pointer_in geometry.now image.now m j }
{
    if geometry.in_zone(m) {
        number(image, geometry.edition, BLOCK * m as usize, j as usize)
    } else {
        0
    }
}

/// Returns the block number stored for logical block `b` of i-node `i`, whose block map is `form`, or 0 if the block has no path or is a hole.
#[tactic(auto, using(crate::proofs::Indexes::way_address, crate::proofs::Indexes::way_entry))]
pub(crate) fn number_at(image: &Image, geometry: &Geometry, i: u16, form: BlockMap, b: u32) -> u32
    requires fits { Fits geometry.now image.now }
    requires first { 1 ≤ i }
    requires last { i ≤ geometry.now.last_inode }
    requires form { form ≡ form_at geometry.now image.now i }
    ensures { result ≡ stored geometry.now image.now i form b }
{
    let Some(way) = form.way(b) else { return 0 };
    follow(image, geometry, i, &way, way.depth)
}

/// Follows the first `depth` entries of a block path, and returns the block number found there.
pub(crate) fn follow(
    image: &Image,
    geometry: &Geometry,
    i: u16,
    way: &BlockPath,
    depth: usize,
) -> u32
    requires fits { Fits geometry.now image.now }
    requires first { 1 ≤ i }
    requires last { i ≤ geometry.now.last_inode }
    requires depth { depth ≤ 3 }
    requires address { way.now.address < 13 }
    requires entries { (d : ℕ) → d < depth
        → (constants geometry.now.edition).number_bytes * (slice_index way.now.entries d + 1) ≤ 512 }
    ensures { result ≡ named geometry.now image.now i (place_to way.now.address way.now.entries depth) }
{
    let mut block = address(image, geometry, i, way.address);
    for d in 0..depth {
        block = entry(image, geometry, block, way.entries[d]);
    }
    block
}
