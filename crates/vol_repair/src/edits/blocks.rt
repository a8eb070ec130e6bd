//! Edits of block maps.
ghost use Rattle.std.specs.Prelude.{◌≡◌, ◌<◌, ◌≤◌, true, IfSome, length};
ghost use Rattle.vol_layout.specs.Geometry.{Fits, in_zone};
ghost use Rattle.vol_layout.specs.Inode.{address_count};

use crate::claims::{Clash, Pointer};
use pdp_words::{BLOCK, Image};
use vol_layout::i_list::address;
use vol_layout::{Edition, Geometry, number, put_address, put_number};

/// Copies the data blocks that positions point to again, while there are unused ones, and clears the other block numbers that can't stay. `used` has a
/// mark for each block.
pub(super) fn mend_blocks(
    image: &mut Image,
    geometry: &Geometry,
    clashes: &[Clash],
    used: &mut [bool],
)
    requires fits { Fits geometry.now image.old }
    requires len { length used.old ≡ geometry.now.zone_end }
    ensures { Fits geometry.now image.new }
{
    let mut from = geometry.zone_start;
    for clash in clashes {
        from = mend_block(image, geometry, clash, from, used);
    }
}

/// Mends one block number. Returns the block from which on the next unused one is searched.
fn mend_block(
    image: &mut Image,
    geometry: &Geometry,
    clash: &Clash,
    from: u32,
    used: &mut [bool],
) -> u32
    requires fits { Fits geometry.now image.old }
    requires len { length used.old ≡ geometry.now.zone_end }
    ensures { Fits geometry.now image.new }
{
    let block = clash.block;
    if clash.level == 0 && geometry.in_zone(block) {
        if let Some(copy) = take_block(geometry, used, from) {
            image.copy_within(BLOCK * block as usize, BLOCK, BLOCK * copy as usize);
            put_pointer(image, geometry, clash.at, copy);
            return copy;
        }
    }
    put_pointer(image, geometry, clash.at, 0);
    from
}

/// Returns the first unused data block from `from` on, and marks it as used.
pub(super) fn take_block(geometry: &Geometry, used: &mut [bool], from: u32) -> Option<u32>
    requires len { length used.old ≡ geometry.now.zone_end }
    ensures { IfSome result (λ k. in_zone geometry.now k ≡ true) }
{
    for k in from.max(geometry.zone_start)..geometry.zone_end {
        if !used[k as usize] {
            used[k as usize] = true;
            return Some(k);
        }
    }
    None
}

/// Returns the number of addresses of an i-node.
fn address_count(edition: Edition) -> usize
    ensures { result ≡ address_count edition }
{
    match edition {
        Edition::V6 => 8,
        Edition::V7 => 13,
    }
}

/// Returns the block number that is stored in a place, or 0 if there is no such place.
pub(super) fn read_pointer(image: &Image, geometry: &Geometry, at: Pointer) -> u32
    requires { Fits geometry.now image.now }
{
    match at {
        Pointer::Address { inode, index }
            if 1 <= inode && inode <= geometry.last_inode && index < 13 => {
            address(image, geometry, inode, index)
        }
        Pointer::Entry { block, index }
            if geometry.in_zone(block) && index < geometry.edition.constants().pointers => {
            number(
                image,
                geometry.edition,
                BLOCK * block as usize,
                index as usize,
            )
        }
        _ => 0,
    }
}

/// Stores a block number in a place, if there is such a place.
pub(super) fn put_pointer(image: &mut Image, geometry: &Geometry, at: Pointer, value: u32)
    requires fits { Fits geometry.now image.old }
    requires value { value < geometry.now.zone_end }
    ensures { Fits geometry.now image.new }
{
    match at {
        Pointer::Address { inode, index } => {
            if 1 <= inode
                && inode <= geometry.last_inode
                && index < address_count(geometry.edition)
            {
                put_address(image, geometry, inode, index, value);
            }
        }
        Pointer::Entry { block, index } => {
            if geometry.in_zone(block) && index < geometry.edition.constants().pointers {
                let at = BLOCK * block as usize;
                put_number(image, geometry.edition, at, index as usize, value);
            }
        }
    }
}
