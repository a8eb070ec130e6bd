//! Iterating over the logical blocks of a file that are stored, skipping its holes.
ghost use Rattle.std.specs.Prelude.{◌≡◌, ◌≢◌, ℕ, ◌-◌, ◌^◌, ◌<◌, ◌≤◌, slice_index};
ghost use Rattle.vol_layout.specs.Edition.{constants};
ghost use Rattle.vol_layout.specs.Geometry.{Fits};
ghost use Rattle.vol_layout.specs.Inode.{address_at, inode_place};
ghost use Rattle.vol_layout.specs.BlockPointers.{form_at, stored};
ghost use Rattle.vol_layout.specs.BlockMaps.{end_of};
ghost use Rattle.vol_file.specs.Holes.{IsHole, IsNextStored, blocks_left, direct_count};

use crate::block_lookup::entry;
use crate::pointers::next_pointer;
use pdp_words::Image;
use vol_layout::i_list::{address, mode};
use vol_layout::{BlockMap, BlockPath, Geometry};

/// Returns the first logical block in `from..end` of i-node `i`, an i-number of the volume, for which the block map has a block number, or `end` if
/// there is none. The number may be outside the data zone.
///
/// Costs one block-map lookup, and one [`next_pointer`] over the zero block numbers. A zero block number is skipped with all logical blocks below it
/// at once.
pub fn next_block(image: &Image, geometry: &Geometry, i: u16, from: u32, end: u32) -> u32
    requires fits { Fits geometry.now image.now }
    requires first { 1 ≤ i }
    requires last { i ≤ geometry.now.last_inode }
    requires order { from ≤ end }
    ensures { IsNextStored geometry.now image.now i (form_at geometry.now image.now i) from end result }
{
    let form = BlockMap::of(geometry.edition, mode(image, geometry, i));
    next_stored(image, geometry, i, form, from, end)
}

/// Like [`next_block`], for a file with block map `form`.
pub(crate) fn next_stored(
    image: &Image,
    geometry: &Geometry,
    i: u16,
    form: BlockMap,
    from: u32,
    end: u32,
) -> u32
    requires fits { Fits geometry.now image.now }
    requires first { 1 ≤ i }
    requires last { i ≤ geometry.now.last_inode }
    requires form { form ≡ form_at geometry.now image.now i }
    requires order { from ≤ end }
    ensures { IsNextStored geometry.now image.now i form from end result }
{
    let mut b = from;
    while b < end {
        let past = hole_end(image, geometry, i, form, b);
        if past == b {
            return b;
        }
        b = past;
    }
    end
}

/// Returns the end of the hole that starts at logical block `b`, or `b` itself if a block number is stored for it. The hole may continue after the
/// returned block: only the run of zero addresses of direct blocks, or of zero block numbers in one indirect block, is skipped.
#[tactic(auto, using(crate::proofs::Indexes::way_address, crate::proofs::Indexes::way_entry))]
fn hole_end(image: &Image, geometry: &Geometry, i: u16, form: BlockMap, b: u32) -> u32
    requires fits { Fits geometry.now image.now }
    requires first { 1 ≤ i }
    requires last { i ≤ geometry.now.last_inode }
    requires form { form ≡ form_at geometry.now image.now i }
    requires below { b < 2 ^ 32 - 1 }
    ensures from { b ≤ result }
    ensures hole { IsHole geometry.now image.now i form b result }
    ensures none { result ≡ b → stored geometry.now image.now i form b ≡ 0 → ⊥ }
{
    let direct = direct_count(form);
    if b < direct {
        return next_address(image, geometry, i, b, direct);
    }
    let Some(way) = form.way(b) else {
        return u32::MAX;
    };
    let mut block = address(image, geometry, i, way.address);
    for d in 0..way.depth {
        let j = way.entries[d];
        let missing = next_pointer(image, geometry, block, j) - j;
        if missing > 0 {
            let more = (missing - 1) * blocks_below(geometry, way.depth - d - 1);
            return b + left_below(geometry, &way, d + 1) + more;
        }
        block = entry(image, geometry, block, j);
    }
    if block == 0 { b + 1 } else { b }
}

/// Returns the number of direct blocks: the logical blocks to which addresses of the i-node point.
pub(crate) fn direct_count(form: BlockMap) -> u32
    ensures { result ≡ direct_count form }
{
    match form {
        BlockMap::Small => 8,
        BlockMap::Deep => 10,
        BlockMap::Large | BlockMap::Bare => 0,
    }
}

/// Returns the index of the first address in `from..end` of i-node `i` that isn't 0, or `end` if all are 0.
fn next_address(image: &Image, geometry: &Geometry, i: u16, from: u32, end: u32) -> u32
    requires fits { Fits geometry.now image.now }
    requires first { 1 ≤ i }
    requires last { i ≤ geometry.now.last_inode }
    requires order { from ≤ end }
    requires few { end ≤ 13 }
    ensures order { from ≤ result }
    ensures within { result ≤ end }
    ensures zeros { (k : ℕ) → from ≤ k → k < result
        → address_at geometry.now.edition image.now (inode_place geometry.now.edition i) k ≡ 0 }
    ensures some { result < end → address_at geometry.now.edition image.now (inode_place geometry.now.edition i) result ≢ 0 }
{
    for k in from..end {
        if address(image, geometry, i, k as usize) != 0 {
            return k;
        }
    }
    end
}

/// Returns the number of logical blocks below a position in the block map with `levels` levels of indirect blocks below it.
pub(crate) fn blocks_below(geometry: &Geometry, levels: usize) -> u32
    requires { levels ≤ 2 }
    ensures exact { result ≡ (constants geometry.now.edition).pointers ^ levels }
    ensures bound { result ≤ 65536 }
{
    let pointers = geometry.edition.constants().pointers;
    match levels {
        0 => 1,
        1 => pointers,
        _ => pointers * pointers,
    }
}

/// Returns the number of logical blocks below the block reached by the first `d` entries of the path, counted from the logical block at the end of
/// the path.
pub(crate) fn left_below(geometry: &Geometry, way: &BlockPath, d: usize) -> u32
    requires depth { way.now.depth ≤ 3 }
    requires above { d ≤ way.now.depth }
    requires entries { (k : ℕ) → k < way.now.depth → slice_index way.now.entries k < (constants geometry.now.edition).pointers }
    ensures exact { result ≡ blocks_left (constants geometry.now.edition).pointers (way.now.depth - d) (end_of way.now) }
    ensures some { 1 ≤ result }
    ensures bound { result ≤ 2 ^ 24 }
{
    let pointers = geometry.edition.constants().pointers;
    let mut left = 1;
    for level in d..way.depth {
        left = left * pointers - way.entries[level];
    }
    left
}
