//! The number of blocks that a write allocates.
ghost use Rattle.std.specs.Prelude.{◌≡◌, ◌+◌, ◌-◌, ◌^◌, ◌≤◌, ◌==◌, ◌||◌, true, if◌then◌else◌};
ghost use Rattle.vol_layout.specs.Geometry.{Fits};
ghost use Rattle.vol_layout.specs.BlockPointers.{form_at};
ghost use Rattle.vol_file.specs.Shape.{is_named, moved_down};
ghost use Rattle.vol_file.specs.Need.{need};
ghost use Rattle.vol_file.specs.MissingBlocks.{missing_at, missing_from, grows_at, grown_form, grown_names};

use crate::block_lookup::entry;
use pdp_words::{BLOCK, Image};
use vol_layout::i_list::{address, mode};
use vol_layout::{BlockMap, Geometry};

/// The greatest number of blocks of a small file in the sixth edition.
const SMALL_BLOCKS: u32 = 8;

/// Returns the number of free blocks that a write of `len` bytes at byte `offset` of i-node `i`, an i-number of the volume, allocates: the missing
/// data blocks and indirect blocks, and one more if a small file of the sixth edition becomes large, for its old addresses. Bytes past the greatest
/// number of blocks of a file need no block, nor do bytes of an i-node that isn't a regular file or directory.
///
/// Costs one block-map lookup for each logical block.
pub fn need(image: &Image, geometry: &Geometry, i: u16, offset: u32, len: u32) -> u32
    requires fits { Fits geometry.now image.now }
    requires first { 1 ≤ i }
    requires last { i ≤ geometry.now.last_inode }
    ensures { result ≡ need geometry.now image.now i offset len }
{
    if len == 0 {
        return 0;
    }
    let form = BlockMap::of(geometry.edition, mode(image, geometry, i));
    let first = offset / BLOCK as u32;
    let last = ((offset as usize + (len - 1) as usize) / BLOCK) as u32;
    let grows = grows_large(form, last);
    let missing = missing_in_range(image, geometry, i, form, grows, first, last + 1);
    missing + u32::from(grows)
}

/// True if a file with block map `form` becomes large when `last` is the last logical block touched.
pub(crate) fn grows_large(form: BlockMap, last: u32) -> bool
    ensures { result ≡ grows_at form last }
{
    match form {
        BlockMap::Small => last >= SMALL_BLOCKS,
        _ => false,
    }
}

/// Returns the number of positions in the block map on the paths of the logical blocks `first..end` that point to no block. If `grows`, they are
/// counted after the file has become large.
fn missing_in_range(
    image: &Image,
    geometry: &Geometry,
    i: u16,
    form: BlockMap,
    grows: bool,
    first: u32,
    end: u32,
) -> u32
    requires fits { Fits geometry.now image.now }
    requires first { 1 ≤ i }
    requires last { i ≤ geometry.now.last_inode }
    requires form { form ≡ form_at geometry.now image.now i }
    requires small { grows ≡ true → form ≡ BlockMap.Small }
    requires range { end ≤ 2 ^ 24 }
    ensures exact { result ≡ missing_from (grown_form form grows)
        (grown_names (is_named geometry.now image.now i) grows) first (end - first) }
    ensures bound { result ≤ 2 ^ 26 }
{
    let limit = grown_form(form, grows).block_limit();
    let mut missing = 0;
    for b in first..end.min(limit) {
        missing += missing_at(image, geometry, i, form, grows, b == first, b);
    }
    missing
}

/// Returns the block map of a file, which becomes large if `grows`.
fn grown_form(form: BlockMap, grows: bool) -> BlockMap
    ensures { result ≡ grown_form form grows }
{
    if grows { BlockMap::Large } else { form }
}

/// Returns the number of positions in the block map on the path of logical block `b` that point to no block: on the whole path if `whole`, else only
/// on the part of it that no earlier logical block shares.
fn missing_at(
    image: &Image,
    geometry: &Geometry,
    i: u16,
    form: BlockMap,
    grows: bool,
    whole: bool,
    b: u32,
) -> u32
    requires fits { Fits geometry.now image.now }
    requires first { 1 ≤ i }
    requires last { i ≤ geometry.now.last_inode }
    requires form { form ≡ form_at geometry.now image.now i }
    requires small { grows ≡ true → form ≡ BlockMap.Small }
    ensures exact { result ≡ missing_at (grown_form form grows)
        (grown_names (is_named geometry.now image.now i) grows) whole b }
    ensures bound { result ≤ 4 }
{
    if grows {
        missing_once_large(image, geometry, i, whole, b)
    } else {
        missing_on_way(image, geometry, i, form, whole, b)
    }
}

/// Returns the result of [`missing_at`] for a file that doesn't become large.
#[tactic(auto, using(crate::proofs::Indexes::way_address, crate::proofs::Indexes::way_entry, crate::proofs::Indexes::named_more, crate::proofs::MissingLaws::missing_to_more))]
fn missing_on_way(
    image: &Image,
    geometry: &Geometry,
    i: u16,
    form: BlockMap,
    whole: bool,
    b: u32,
) -> u32
    requires fits { Fits geometry.now image.now }
    requires first { 1 ≤ i }
    requires last { i ≤ geometry.now.last_inode }
    requires form { form ≡ form_at geometry.now image.now i }
    ensures exact { result ≡ missing_at form (is_named geometry.now image.now i) whole b }
    ensures bound { result ≤ 4 }
{
    let Some(way) = form.way(b) else { return 0 };
    let mut block = address(image, geometry, i, way.address);
    let mut missing = absent(block != 0);
    for d in 0..way.depth {
        let j = way.entries[d];
        block = entry(image, geometry, block, j);
        missing = absent_with(block != 0, whole, j, missing);
    }
    missing
}

/// Returns the result of [`missing_at`] for a small file that becomes large. Its address 0 then points to an indirect block with the eight old
/// addresses.
fn missing_once_large(image: &Image, geometry: &Geometry, i: u16, whole: bool, b: u32) -> u32
    requires fits { Fits geometry.now image.now }
    requires first { 1 ≤ i }
    requires last { i ≤ geometry.now.last_inode }
    ensures exact { result ≡ missing_at BlockMap.Large (moved_down (is_named geometry.now image.now i)) whole b }
    ensures bound { result ≤ 4 }
{
    let Some(way) = BlockMap::Large.way(b) else {
        return 0
    };
    let mut missing = absent(way.address == 0);
    for d in 0..way.depth {
        let j = way.entries[d];
        let moved = way.address == 0 && d == 0 && j < SMALL_BLOCKS;
        let named = moved && address(image, geometry, i, j as usize) != 0;
        missing = absent_with(named, whole, j, missing);
    }
    missing
}

/// Returns the number of blocks missing at a position in the block map: 0 if the position points to a block, else 1.
fn absent(named: bool) -> u32
    ensures { result ≡ (if named then 0 else 1) }
{
    u32::from(!named)
}

/// Returns 1 if entry `j` of an indirect block points to no block, else 0. Adds `above`, the count for the levels above, if `whole` or if `j` is 0:
/// then no earlier block shares the indirect block.
fn absent_with(named: bool, whole: bool, j: u32, above: u32) -> u32
    requires { above ≤ 3 }
    ensures { result ≡ (if named then 0 else 1) + (if whole || j == 0 then above else 0) }
{
    absent(named) + if whole || j == 0 { above } else { 0 }
}
