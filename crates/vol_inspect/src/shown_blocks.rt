//! The blocks to show in a picture: all, or those of one i-node.
ghost use Rattle.std.specs.Prelude.{◌≡◌, ◌*◌, ◌<◌, ◌≤◌, Some, get_or, length, map, vec_len, IfOk};
ghost use Rattle.vol_layout.specs.Geometry.{Fits};
ghost use Rattle.vol_inspect.specs.NodeUses.{CountsOne, is_counted, node_uses, shown_if, shown_uses};
ghost use Rattle.vol_inspect.specs.PlaceCounts.{IsClear};

use crate::place_counts::count_node;
use crate::uses::{Use, block_uses, named_in};
use pdp_words::Image;
use std::alloc::{AllocError, Global};
use vol_layout::Geometry;

/// Returns the use of each block of a volume, as blocks that are all shown.
///
/// Takes the time and memory of [`block_uses`], and two bytes for each block.
pub fn shown_uses(
    alloc: Global,
    image: &Image,
    geometry: &Geometry,
) -> Result<Vec<Option<Use>>, AllocError>
    requires { Fits geometry.now image.now }
    ensures { IfOk result (λ shown. shown.items ≡ shown_uses geometry.now image.now) }
{
    let uses = block_uses(alloc, image, geometry)?;
    all_shown(alloc, &uses)
}

/// Returns blocks with these uses, all shown. Takes two bytes of memory for each block.
pub fn all_shown(alloc: Global, uses: &[Use]) -> Result<Vec<Option<Use>>, AllocError>
    ensures { IfOk result (λ shown. shown.items ≡ map (λ u. Some u) uses.now) }
{
    uses.iter().map(|usage| Some(*usage)).collect(alloc)
}

/// Returns the use of each block of a volume to which the block map of i-node `i` points, for data or as an indirect block. The other blocks aren't
/// shown.
///
/// Takes the time and memory of [`block_uses`], and four bytes for each block.
pub fn node_uses(
    alloc: Global,
    image: &Image,
    geometry: &Geometry,
    i: u16,
) -> Result<Vec<Option<Use>>, AllocError>
    requires fits { Fits geometry.now image.now }
    requires first { 1 ≤ i }
    requires last { i ≤ geometry.now.last_inode }
    ensures { IfOk result (λ shown. shown.items ≡ node_uses geometry.now image.now i) }
{
    let uses = block_uses(alloc, image, geometry)?;
    let counts = node_counts(alloc, image, geometry, i)?;
    let mut shown = Vec::new(alloc);
    for b in 0..geometry.zone_end {
        let usage = use_at(&uses, b);
        shown.push(shown_if(is_counted(geometry, &counts, b), usage))?;
    }
    Ok(shown)
}

/// Returns the number of block-map positions of i-node `i` that point to each block, by the levels of blocks below it, counted up to two.
fn node_counts(
    alloc: Global,
    image: &Image,
    geometry: &Geometry,
    i: u16,
) -> Result<Vec<u8>, AllocError>
    requires fits { Fits geometry.now image.now }
    requires first { 1 ≤ i }
    requires last { i ≤ geometry.now.last_inode }
    ensures len { IfOk result (λ counts. vec_len counts ≡ 4 * geometry.now.zone_end) }
    ensures each { IfOk result (λ counts. CountsOne geometry.now image.now i counts.items) }
{
    let mut counts = vec![in alloc; 0; 4 * geometry.zone_end as usize]?;
    count_one(&mut counts, image, geometry, i);
    Ok(counts)
}

/// Counts the block-map positions of i-node `i`. All counts are 0 at the start.
fn count_one(counts: &mut [u8], image: &Image, geometry: &Geometry, i: u16)
    requires fits { Fits geometry.now image.now }
    requires first { 1 ≤ i }
    requires last { i ≤ geometry.now.last_inode }
    requires len { length counts.old ≡ 4 * geometry.now.zone_end }
    requires clear { IsClear counts.old }
    ensures { CountsOne geometry.now image.now i counts.new }
{
    count_node(counts, image, geometry, i);
}

/// True if block `b` is a data block and was counted.
fn is_counted(geometry: &Geometry, counts: &[u8], b: u32) -> bool
    requires counts { length counts.now ≡ 4 * geometry.now.zone_end }
    requires end { b < geometry.now.zone_end }
    ensures { result ≡ is_counted geometry.now counts.now b }
{
    geometry.in_zone(b) && named_in(counts, 4 * b as usize) > 0
}

/// Returns a use, if it is to be shown.
fn shown_if(shown: bool, usage: Use) -> Option<Use>
    ensures { result ≡ shown_if shown usage }
{
    if shown { Some(usage) } else { None }
}

/// Returns the use of block `b`.
fn use_at(uses: &[Use], b: u32) -> Use
    requires { b < length uses.now }
    ensures { result ≡ get_or uses.now b Use.Boot }
{
    uses[b as usize]
}
