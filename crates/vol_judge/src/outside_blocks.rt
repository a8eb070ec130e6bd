//! Rule 5: each address in the block map of a file is 0 or the number of a data block.
ghost use Rattle.std.specs.Prelude.{◌≡◌, ℕ, ◌≤◌, length};
ghost use Rattle.vol_layout.specs.Geometry.{Fits};
ghost use Rattle.vol_file.specs.Rules.{IsZoned};
ghost use Rattle.vol_file.specs.Changes.{blocks_of};
ghost use Rattle.vol_judge.specs.Marks.{KnowsInside, blocks_from};
ghost use Rattle.vol_judge.specs.Finds.{Finds};
ghost use Rattle.vol_judge.specs.OutsideBlocks.{IsFirstOutside, first_outside};

use crate::finding::Finding;
use crate::shared_blocks::clear;
use pdp_words::{BLOCK, Image};
use vol_file::next_pointer;
use vol_layout::i_list::{address, mode};
use vol_layout::{BlockMap, Geometry, number};

/// Returns the first violation of rule 5: the first i-node with an address outside the data zone, and the first such address in the order of its
/// block map. `known` has a byte for each block, with any value at first. The search stores in it the number of levels below the block that were
/// found to be within the data zone, so no block is read more than once for each level.
///
/// Costs two reads of each i-node and at most four of each entry of the indirect blocks, even if these point to each other. Takes no memory.
pub fn find_outside(image: &Image, geometry: &Geometry, known: &mut [u8]) -> Option<Finding>
    requires fits { Fits geometry.now image.now }
    requires len { length known.old ≡ geometry.now.zone_end }
    ensures { Finds (IsZoned geometry.now image.now) (IsFirstOutside geometry.now image.now) result }
{
    clear(known);
    for i in 1..=geometry.last_inode {
        if let Some(number) = outside_in(image, geometry, i, known) {
            return Some(Finding::OutOfZone(i, number));
        }
    }
    None
}

/// Returns the first address in the block map of i-node `i` that is neither 0 nor the number of a data block.
fn outside_in(image: &Image, geometry: &Geometry, i: u16, known: &mut [u8]) -> Option<u32>
    requires fits { Fits geometry.now image.now }
    requires first { 1 ≤ i }
    requires last { i ≤ geometry.now.last_inode }
    requires len { length known.old ≡ geometry.now.zone_end }
    requires known { KnowsInside geometry.now image.now known.old }
    ensures exact { result ≡ first_outside geometry.now (blocks_of geometry.now image.now i) }
    ensures known { KnowsInside geometry.now image.now known.new }
{
    let form = BlockMap::of(geometry.edition, mode(image, geometry, i));
    for k in 0..form.address_count() {
        let b = address(image, geometry, i, k);
        if let Some(number) = outside_from(image, geometry, b, form.levels(k), known) {
            return Some(number);
        }
    }
    None
}

/// Returns the first address that is neither 0 nor the number of a data block, among `b` and the addresses in the `level` levels below it.
fn outside_from(
    image: &Image,
    geometry: &Geometry,
    b: u32,
    level: u8,
    known: &mut [u8],
) -> Option<u32>
    requires fits { Fits geometry.now image.now }
    requires len { length known.old ≡ geometry.now.zone_end }
    requires known { KnowsInside geometry.now image.now known.old }
    ensures exact { result ≡ first_outside geometry.now (blocks_from geometry.now image.now level b) }
    ensures known { KnowsInside geometry.now image.now known.new }
{
    if b == 0 {
        return None;
    }
    if !geometry.in_zone(b) {
        return Some(b);
    }
    if level <= known[b as usize] {
        return None;
    }
    let pointers = geometry.edition.constants().pointers;
    let mut j = next_pointer(image, geometry, b, 0);
    while j < pointers {
        let entry = number(image, geometry.edition, BLOCK * b as usize, j as usize);
        if let Some(found) = outside_from(image, geometry, entry, level - 1, known) {
            return Some(found);
        }
        j = next_pointer(image, geometry, b, j + 1);
    }
    known[b as usize] = level;
    None
}
