//! Finds what can be trusted of a file although blocks of the image are lost.
ghost use Rattle.std.specs.Prelude.{◌≡◌, ℕ, ◌-◌, ◌<◌, ◌≤◌, ◌^◌, ◌↔◌, true, false};
ghost use Rattle.vol_layout.specs.Geometry.{Fits};
ghost use Rattle.vol_layout.specs.Body.{body_size};
ghost use Rattle.vol_layout.specs.BlockPointers.{form_at};
ghost use Rattle.vol_losses.specs.Losses.{is_lost, is_lost_block, is_unsure, is_whole, IsNext, IsWhole, node_block};

use pdp_words::{BLOCK, Image};
use vol_layout::i_list::{address, mode, size};
use vol_layout::{BlockMap, Geometry, number};

/// True if block `k` is marked as lost. A block past the end of the marks isn't.
pub fn is_lost(lost: &[bool], k: u32) -> bool
    ensures { result ≡ is_lost lost.now k }
{
    let k = k as usize;
    k < lost.len() && lost[k]
}

/// True if `k` is the number of a data block that is lost.
fn is_lost_block(geometry: &Geometry, lost: &[bool], k: u32) -> bool
    ensures { result ≡ is_lost_block geometry.now lost.now k }
{
    geometry.in_zone(k) && is_lost(lost, k)
}

/// Logical blocks of a file, one after the other: all of them can be trusted, or none.
#[derive(Clone, Copy)]
struct Stretch {
    /// True if none can be trusted.
    unsure: bool,
    /// The one after the last.
    end: u32,
}

/// Returns a stretch that begins at logical block `b` of i-node `i`, an i-number of the volume. If the path to `b` ends at a block that is lost, or that
/// isn't a data block, the stretch is all that is left of the last indirect block on this path.
///
/// Costs one block-map lookup.
#[tactic(auto, using(vol_file::proofs::Indexes::way_address, vol_file::proofs::Indexes::way_entry))]
fn stretch_at(image: &Image, geometry: &Geometry, lost: &[bool], i: u16, b: u32) -> Stretch
    requires fits { Fits geometry.now image.now }
    requires first { 1 ≤ i }
    requires last { i ≤ geometry.now.last_inode }
    requires below { b < 2 ^ 32 - 1 }
    ensures some { b < result.end }
    ensures same { (c : ℕ) → b ≤ c → c < result.end → is_unsure geometry.now image.now lost.now i c ≡ result.unsure }
{
    let form = BlockMap::of(geometry.edition, mode(image, geometry, i));
    let Some(way) = form.way(b) else {
        return Stretch {
            unsure: false,
            end: u32::MAX,
        };
    };
    let mut block = address(image, geometry, i, way.address);
    for d in 0..way.depth {
        let unsure = is_lost_block(geometry, lost, block);
        if unsure || !geometry.in_zone(block) {
            let left = geometry.edition.constants().pointers - way.entries[way.depth - 1];
            return Stretch {
                unsure,
                end: b + left,
            };
        }
        let at = BLOCK * block as usize;
        block = number(image, geometry.edition, at, way.entries[d] as usize);
    }
    Stretch {
        unsure: is_lost_block(geometry, lost, block),
        end: b + 1,
    }
}

/// True if a block on the path to logical block `b` of i-node `i`, an i-number of the volume, is lost: an indirect block, or the data block.
///
/// Costs one block-map lookup.
pub fn is_unsure(image: &Image, geometry: &Geometry, lost: &[bool], i: u16, b: u32) -> bool
    requires fits { Fits geometry.now image.now }
    requires first { 1 ≤ i }
    requires last { i ≤ geometry.now.last_inode }
    requires below { b < 2 ^ 32 - 1 }
    ensures { result ≡ is_unsure geometry.now image.now lost.now i b }
{
    stretch_at(image, geometry, lost, i, b).unsure
}

/// Returns the first logical block in `from..end` of i-node `i`, an i-number of the volume, that can't be trusted, or that can if `unsure` is false.
/// Returns `end` if there is none.
///
/// Costs a block-map lookup for each block that it passes; one for all of an indirect block that is lost, or that isn't stored, as in a long hole; and
/// nothing if `unsure` is true and there are no marks.
pub fn next_block(
    image: &Image,
    geometry: &Geometry,
    lost: &[bool],
    i: u16,
    unsure: bool,
    from: u32,
    end: u32,
) -> u32
    requires fits { Fits geometry.now image.now }
    requires first { 1 ≤ i }
    requires last { i ≤ geometry.now.last_inode }
    requires order { from ≤ end }
    ensures { IsNext geometry.now image.now lost.now i unsure from end result }
{
    if unsure && lost.is_empty() {
        return end;
    }
    let mut b = from;
    while b < end {
        let stretch = stretch_at(image, geometry, lost, i, b);
        if stretch.unsure == unsure {
            return b;
        }
        b = stretch.end;
    }
    end
}

/// True if i-node `i`, an i-number of the volume, is whole: neither its own block nor one on the path to a byte of its body is lost.
///
/// Costs nothing if there are no marks.
pub fn is_whole(image: &Image, geometry: &Geometry, lost: &[bool], i: u16) -> bool
    requires fits { Fits geometry.now image.now }
    requires first { 1 ≤ i }
    requires last { i ≤ geometry.now.last_inode }
    ensures exact { (result ≡ true) ↔ IsWhole geometry.now image.now lost.now i }
    ensures flag { result ≡ is_whole geometry.now image.now lost.now i }
{
    if is_node_lost(geometry, lost, i) {
        return false;
    }
    let end = body_size(image, geometry, i).div_ceil(BLOCK as u32);
    next_block(image, geometry, lost, i, true, 0, end) == end
}

/// Returns the number of bytes of file `i`.
pub(crate) fn body_size(image: &Image, geometry: &Geometry, i: u16) -> u32
    requires fits { Fits geometry.now image.now }
    requires first { 1 ≤ i }
    requires last { i ≤ geometry.now.last_inode }
    ensures { result ≡ body_size geometry.now image.now i }
{
    size(image, geometry, i).min(geometry.edition.constants().greatest)
}

/// True if the block of i-node `i`, an i-number of the volume, is lost.
pub fn is_node_lost(geometry: &Geometry, lost: &[bool], i: u16) -> bool
    requires { 1 ≤ i }
    ensures { result ≡ is_lost lost.now (node_block geometry.now.edition i) }
{
    is_lost(lost, node_block(geometry, i))
}

/// Returns the block in which i-node `i` is stored.
fn node_block(geometry: &Geometry, i: u16) -> u32
    requires first { 1 ≤ i }
    ensures { result ≡ node_block geometry.now.edition i }
{
    let per_block = u32::from(geometry.edition.constants().inodes_per_block);
    2 + (u32::from(i) - 1) / per_block
}
