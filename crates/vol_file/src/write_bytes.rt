//! Writing the bytes of a file, which grows as needed.
ghost use Rattle.std.specs.Prelude.{◌≡◌, ℕ, ◌+◌, ◌-◌, ◌*◌, ◌/◌, ◌<◌, ◌≤◌, true, List, length};
ghost use Rattle.std.specs.List.{range_with_len};
ghost use Rattle.vol_layout.specs.Edition.{constants};
ghost use Rattle.vol_layout.specs.BlockMaps.{block_limit};
ghost use Rattle.vol_layout.specs.BlockPointers.{form_at, IsFile, stored};
ghost use Rattle.vol_layout.specs.Geometry.{in_zone, Fits};
ghost use Rattle.vol_file.specs.Need.{need};
ghost use Rattle.vol_file.specs.Changes.{Writes};
ghost use Rattle.vol_file.specs.Rules.{Rules3To7With, Rules3To7};
ghost use Rattle.vol_file.specs.Steps.{MayEnlarge, Enlarges, HasRoom, MayFill, Fills, Puts};

use crate::blocks_needed::grows_large;
use crate::pieces::{clear_between, put_text};
use crate::take_blocks::name_ways;
use pdp_words::{BLOCK, Image};
use vol_free::take;
use vol_layout::i_list::{mode, size};
use vol_layout::{
    BlockMap, Geometry, clear_addresses, copy_addresses, put_address, put_mode, put_size,
};

/// Makes the small file `i` large: moves its eight addresses to the first free block, to which address 0 then points. Does nothing if no block is
/// free.
fn make_large(image: &mut Image, geometry: &Geometry, i: u16)
    requires form { form_at geometry.now image.old i ≡ BlockMap.Small }
    requires may { MayEnlarge geometry.now image.old i }
    ensures { (blocks : List ℕ) → Rules3To7With geometry.now image.old blocks → 1 ≤ length blocks
        → Enlarges geometry.now image.old image.new i blocks }
{
    let large = mode(image, geometry, i).with_large(true);
    match take(image, geometry) {
        None => {}
        Some(b) => {
            copy_addresses(image, geometry, i, BLOCK * b as usize);
            clear_addresses(image, geometry, i);
            put_address(image, geometry, i, 0, b);
            put_mode(image, geometry, i, large);
        }
    }
}

/// Allocates a block for each position in the block map on the paths of the logical blocks `from..to` of file `i` that points to no block. A small
/// file first becomes large if one of the logical blocks is its ninth or a later one.
fn name_blocks(image: &mut Image, geometry: &Geometry, i: u16, from: u32, to: u32)
    requires order { from < to }
    requires greatest { 512 * to < (constants geometry.now.edition).greatest + 512 }
    requires may { MayFill geometry.now image.old i from to }
    ensures filled { (blocks : List ℕ) → HasRoom geometry.now image.old i from to blocks
        → Fills geometry.now image.old image.new i (range_with_len from (to - from)) blocks }
    ensures limit { to ≤ block_limit (form_at geometry.now image.new i) }
{
    let form = BlockMap::of(geometry.edition, mode(image, geometry, i));
    if grows_large(form, to - 1) {
        make_large(image, geometry, i);
        name_ways(image, geometry, i, BlockMap::Large, from, to);
    } else {
        name_ways(image, geometry, i, form, from, to);
    }
}

/// Writes `text` at byte `offset` of file `i`: first clears the bytes between the size and the offset, then writes the text, then the size. The file
/// must already have a block for each byte of `text`.
fn put_in_blocks(image: &mut Image, geometry: &Geometry, i: u16, offset: u32, text: &[u8])
    requires file { IsFile geometry.now image.old i }
    requires sound { Rules3To7 geometry.now image.old }
    requires greatest { offset + length text.now ≤ (constants geometry.now.edition).greatest }
    requires small { form_at geometry.now image.old i ≡ BlockMap.Small → offset + length text.now ≤ 4096 }
    requires zone { (n : ℕ) → n < length text.now
        → in_zone geometry.now (stored geometry.now image.old i (form_at geometry.now image.old i) ((offset + n) / 512)) ≡ true }
    ensures { (blocks : List ℕ) → Rules3To7With geometry.now image.old blocks
        → Puts geometry.now image.old image.new i offset text.now blocks }
{
    let form = BlockMap::of(geometry.edition, mode(image, geometry, i));
    let before = size(image, geometry, i);
    clear_between(image, geometry, i, form, before.min(offset), offset);
    put_text(image, geometry, i, form, offset, text);
    put_size(image, geometry, i, before.max(offset + text.len() as u32));
}

/// Writes `text` at byte `offset` of file `i`, which must not become larger than the edition's greatest size. Bytes between the old size and `offset`
/// become zeros. Missing blocks are taken from the front of the free list: in the sixth edition first the block that makes a small file large, then
/// for each logical block in turn the missing blocks on its path, from the i-node down. The size grows if needed; a write of no bytes changes
/// nothing.
///
/// Costs a copy of `text`, two block-map lookups for each logical block that it touches, and one for each stored block between the old size and
/// `offset`.
pub fn write(image: &mut Image, geometry: &Geometry, i: u16, offset: u32, text: &[u8])
    requires file { IsFile geometry.now image.old i }
    requires sound { Rules3To7 geometry.now image.old }
    requires greatest { offset + length text.now ≤ (constants geometry.now.edition).greatest }
    requires room { (blocks : List ℕ) → Rules3To7With geometry.now image.old blocks
        → need geometry.now image.old i offset (length text.now) ≤ length blocks }
    ensures nothing { length text.now ≡ 0 → image.new ≡ image.old }
    ensures written { 1 ≤ length text.now → (blocks : List ℕ) → Rules3To7With geometry.now image.old blocks
        → Writes geometry.now image.old image.new i offset text.now blocks }
    ensures sound { Rules3To7 geometry.now image.new }
    ensures fits { Fits geometry.now image.new }
    ensures file { IsFile geometry.now image.new i }
{
    if text.is_empty() {
        return;
    }
    let end = offset + text.len() as u32;
    let first = offset / BLOCK as u32;
    let last = (end - 1) / BLOCK as u32;
    name_blocks(image, geometry, i, first, last + 1);
    put_in_blocks(image, geometry, i, offset, text);
}
