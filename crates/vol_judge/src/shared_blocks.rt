//! Rule 7, for files: no two addresses in block maps point to the same block. The search marks the blocks that files use.
ghost use Rattle.std.specs.Prelude.{◌≡◌, ◌≢◌, ℕ, ◌≤◌, ◌↔◌, length, slice_index, slice_index_or, vec_len, IfNone, IfSome, IfOk, true, false, Some};
ghost use Rattle.vol_layout.specs.Geometry.{Fits};
ghost use Rattle.vol_file.specs.Rules.{IsZoned, IsApart};
ghost use Rattle.vol_file.specs.Changes.{blocks_of};
ghost use Rattle.vol_judge.specs.Finds.{Finds};
ghost use Rattle.vol_judge.specs.Marks.{IsInside, IsFileZoned, blocks_from, marked, MarksNamed, AreNamed};
ghost use Rattle.vol_judge.specs.SharedBlocks.{IsFirstTwice, again};

use crate::finding::Finding;
use pdp_words::{BLOCK, Image};
use std::alloc::{AllocError, Global};
use vol_file::next_pointer;
use vol_layout::i_list::{address, mode};
use vol_layout::{BlockMap, Geometry, number};

/// Returns a flag for each block of the volume, true if a file uses it. Rule 5 must hold, and no block may be used twice.
///
/// Costs as much as [`find_twice`], and a read of each mark. Takes two bytes for each block.
pub fn named_blocks(
    alloc: Global,
    image: &Image,
    geometry: &Geometry,
) -> Result<Vec<bool>, AllocError>
    requires fits { Fits geometry.now image.now }
    requires zoned { IsZoned geometry.now image.now }
    requires apart { IsApart geometry.now image.now }
    ensures len { IfOk result (λ named. vec_len named ≡ geometry.now.zone_end) }
    ensures named { IfOk result (λ named. AreNamed geometry.now image.now named.items) }
{
    let mut marks = vec![in alloc; 0; geometry.zone_end as usize]?;
    let mut named = vec![in alloc; false; geometry.zone_end as usize]?;
    let _ = find_twice(image, geometry, &mut marks);
    set_marked(&marks, &mut named);
    Ok(named)
}

/// Sets each flag whose mark isn't 0.
fn set_marked(marks: &[u8], flags: &mut [bool])
    requires len { length marks.now ≡ length flags.old }
    requires clear { (k : ℕ) → slice_index_or flags.old k false ≡ false }
    ensures { (k : ℕ) → slice_index_or flags.new k false ≡ true ↔ slice_index marks.now k ≢ 0 }
{
    for k in 0..marks.len() {
        if marks[k] != 0 {
            flags[k] = true;
        }
    }
}

/// Clears all bytes.
pub(crate) fn clear(marks: &mut [u8])
    ensures { (k : ℕ) → slice_index marks.new k ≡ 0 }
{
    marks.fill(0);
}

/// Returns the first violation of rule 7 by files: the first block that two addresses point to, in the order of i-numbers and then of block maps.
/// Rule 5 must hold. `marks` has a mark for each block, with any value at first. If no block is used twice, the blocks that files use are marked
/// afterwards.
///
/// Costs a read of each i-node, and at most two of each entry of the indirect blocks. Takes no memory.
pub fn find_twice(image: &Image, geometry: &Geometry, marks: &mut [u8]) -> Option<Finding>
    requires fits { Fits geometry.now image.now }
    requires zoned { IsZoned geometry.now image.now }
    requires len { length marks.old ≡ geometry.now.zone_end }
    ensures twice { Finds (IsApart geometry.now image.now) (IsFirstTwice geometry.now image.now) result }
    ensures marks { IfNone result (MarksNamed geometry.now image.now marks.new) }
{
    clear(marks);
    for i in 1..=geometry.last_inode {
        if let Some(b) = again_in(image, geometry, i, marks) {
            return Some(Finding::Twice(i, b));
        }
    }
    None
}

/// Marks the blocks of i-node `i`, and returns the first one that was already marked, if any.
fn again_in(image: &Image, geometry: &Geometry, i: u16, marks: &mut [u8]) -> Option<u32>
    requires fits { Fits geometry.now image.now }
    requires first { 1 ≤ i }
    requires last { i ≤ geometry.now.last_inode }
    requires len { length marks.old ≡ geometry.now.zone_end }
    requires zoned { IsFileZoned geometry.now image.now i }
    ensures fresh { IfNone result (marked marks.old (blocks_of geometry.now image.now i) ≡ Some marks.new) }
    ensures twice { IfSome result (λ b. again marks.old (blocks_of geometry.now image.now i) ≡ Some b) }
{
    let form = BlockMap::of(geometry.edition, mode(image, geometry, i));
    for k in 0..form.address_count() {
        let b = address(image, geometry, i, k);
        if let Some(found) = again_from(image, geometry, b, form.levels(k), marks) {
            return Some(found);
        }
    }
    None
}

/// Marks block `b`, if it isn't 0, and the blocks in the `level` levels below it. Returns the first one that was already marked, if any.
fn again_from(
    image: &Image,
    geometry: &Geometry,
    b: u32,
    level: u8,
    marks: &mut [u8],
) -> Option<u32>
    requires fits { Fits geometry.now image.now }
    requires len { length marks.old ≡ geometry.now.zone_end }
    requires inside { IsInside geometry.now image.now level b }
    ensures fresh { IfNone result (marked marks.old (blocks_from geometry.now image.now level b) ≡ Some marks.new) }
    ensures twice { IfSome result (λ n. again marks.old (blocks_from geometry.now image.now level b) ≡ Some n) }
{
    if b == 0 {
        return None;
    }
    if marks[b as usize] != 0 {
        return Some(b);
    }
    marks[b as usize] = 1;
    if level == 0 {
        return None;
    }
    let pointers = geometry.edition.constants().pointers;
    let mut j = next_pointer(image, geometry, b, 0);
    while j < pointers {
        let entry = number(image, geometry.edition, BLOCK * b as usize, j as usize);
        if let Some(found) = again_from(image, geometry, entry, level - 1, marks) {
            return Some(found);
        }
        j = next_pointer(image, geometry, b, j + 1);
    }
    None
}
