//! The data blocks that files use, on any volume, even if rules 5 and 7 are broken.
ghost use Rattle.std.specs.Prelude.{◌≡◌, ℕ, ◌≤◌, length};
ghost use Rattle.vol_layout.specs.Geometry.{Fits};
ghost use Rattle.vol_file.specs.Changes.{blocks_of};
ghost use Rattle.vol_judge.specs.Marks.{MarksZone, ExtendsMarks, KnowsMarked, blocks_from};

use crate::shared_blocks::clear;
use pdp_words::{BLOCK, Image};
use vol_file::next_pointer;
use vol_layout::i_list::{address, mode};
use vol_layout::{BlockMap, Geometry, number};

/// Marks the data blocks that files use, and ignores addresses outside the data zone. `marks` has a mark for each block, with any value at first.
///
/// Costs a read of each i-node and at most four of each entry of the indirect blocks, even if these point to each other. Takes no memory.
pub fn mark_named(image: &Image, geometry: &Geometry, marks: &mut [u8])
    requires fits { Fits geometry.now image.now }
    requires len { length marks.old ≡ geometry.now.zone_end }
    ensures { MarksZone geometry.now image.now marks.new }
{
    clear(marks);
    for i in 1..=geometry.last_inode {
        mark_file(image, geometry, i, marks);
    }
}

/// Marks the data blocks that i-node `i` uses.
fn mark_file(image: &Image, geometry: &Geometry, i: u16, marks: &mut [u8])
    requires fits { Fits geometry.now image.now }
    requires first { 1 ≤ i }
    requires last { i ≤ geometry.now.last_inode }
    requires len { length marks.old ≡ geometry.now.zone_end }
    requires known { KnowsMarked geometry.now image.now marks.old }
    ensures extends { ExtendsMarks geometry.now (blocks_of geometry.now image.now i) marks.old marks.new }
    ensures known { KnowsMarked geometry.now image.now marks.new }
{
    let form = BlockMap::of(geometry.edition, mode(image, geometry, i));
    for k in 0..form.address_count() {
        let b = address(image, geometry, i, k);
        mark_from(image, geometry, b, form.levels(k), marks);
    }
}

/// Marks block `b` and the blocks in the `level` levels below it, if they are data blocks. A mark is one more than the number of levels below its
/// block that were visited.
fn mark_from(image: &Image, geometry: &Geometry, b: u32, level: u8, marks: &mut [u8])
    requires fits { Fits geometry.now image.now }
    requires low { level ≤ 3 }
    requires len { length marks.old ≡ geometry.now.zone_end }
    requires known { KnowsMarked geometry.now image.now marks.old }
    ensures extends { ExtendsMarks geometry.now (blocks_from geometry.now image.now level b) marks.old marks.new }
    ensures known { KnowsMarked geometry.now image.now marks.new }
{
    if !geometry.in_zone(b) {
        return;
    }
    if level < marks[b as usize] {
        return;
    }
    if level == 0 {
        marks[b as usize] = 1;
        return;
    }
    let pointers = geometry.edition.constants().pointers;
    let mut j = next_pointer(image, geometry, b, 0);
    while j < pointers {
        let entry = number(image, geometry.edition, BLOCK * b as usize, j as usize);
        mark_from(image, geometry, entry, level - 1, marks);
        j = next_pointer(image, geometry, b, j + 1);
    }
    marks[b as usize] = level + 1;
}
