//! Skipping the blocks below an indirect block that was visited before. In a damaged image many block maps can point to the same indirect block.
ghost use Rattle.std.specs.Prelude.{◌≡◌, ℕ, ◌+◌, ◌-◌, ◌*◌, ◌^◌, ◌<◌, ◌≤◌, true, false, Bool, List, length, slice_index, slice_index_or, IfOk};
ghost use Rattle.vol_layout.specs.Edition.{constants};
ghost use Rattle.vol_layout.specs.BlockMaps.{end_of};
ghost use Rattle.vol_file.specs.Holes.{blocks_left};
ghost use Rattle.vol_layout.specs.Geometry.{Fits};
ghost use Rattle.vol_layout.specs.declared.geometry.Geometry.{Geometry};
ghost use Rattle.vol_layout.specs.BlockPointers.{form_at, stored};
ghost use Rattle.vol_file.specs.Repeats.{is_marked, MarksPassed, PassesBelow};

use crate::block_lookup::entry;
use crate::holes::{blocks_below, left_below};
use pdp_words::Image;
use std::alloc::{AllocError, Global};
use vol_layout::i_list::{address, mode};
use vol_layout::{BlockMap, BlockPath, Geometry};

/// The number of marks of each block: one each for the data blocks 0, 1 and 2 levels below it.
pub const MARKS: usize = 3;

/// Returns unset marks, [`MARKS`] for each block of the volume.
pub fn no_marks(alloc: Global, geometry: &Geometry) -> Result<Vec<bool>, AllocError>
    ensures len { IfOk result (λ marks. length marks.items ≡ 3 * geometry.now.zone_end) }
    ensures clear { IfOk result (λ marks. (k : ℕ) → slice_index_or marks.items k false ≡ false) }
{
    vec![in alloc; false; MARKS * geometry.zone_end as usize]
}

/// Returns the end of the logical blocks of i-node `i`, an i-number of the volume, that start at block `b`, are below a marked block, and can be
/// skipped. Returns `b` itself if it isn't below a marked block.
///
/// Costs one block-map lookup, or nothing if there are no marks.
#[tactic(auto, using(crate::proofs::Indexes::way_address, crate::proofs::Indexes::way_entry))]
pub fn passed_end(image: &Image, geometry: &Geometry, i: u16, b: u32, marks: &[bool]) -> u32
    requires fits { Fits geometry.now image.now }
    requires first { 1 ≤ i }
    requires last { i ≤ geometry.now.last_inode }
    ensures order { b ≤ result }
    ensures passed { (test : ℕ → ℕ → Bool) → MarksPassed test geometry.now image.now marks.now
        → ((part : ℕ) → test 0 part ≡ true) → (t part : ℕ) → b ≤ t → t < result
        → test (stored geometry.now image.now i (form_at geometry.now image.now i) t) part ≡ true }
{
    if marks.is_empty() {
        return b;
    }
    let form = BlockMap::of(geometry.edition, mode(image, geometry, i));
    let Some(way) = form.way(b) else { return b };
    let mut block = address(image, geometry, i, way.address);
    for d in 0..way.depth {
        if is_marked(marks, block, way.depth - d) {
            return b + left_below(geometry, &way, d);
        }
        block = entry(image, geometry, block, way.entries[d]);
    }
    if is_marked(marks, block, 0) { b + 1 } else { b }
}

/// Marks each block on the path of logical block `b` of i-node `i`, an i-number of the volume, if all logical blocks below it are in `from..to`.
/// There are [`MARKS`] marks for each block; a block for which `marks` has no marks is skipped, and so is block 0, the number of a hole.
///
/// Costs one block-map lookup, or nothing if there are no marks.
#[tactic(auto, using(crate::proofs::Indexes::way_address, crate::proofs::Indexes::way_entry))]
pub fn mark_passed(
    image: &Image,
    geometry: &Geometry,
    i: u16,
    b: u32,
    from: u32,
    to: u32,
    marks: &mut [bool],
)
    requires fits { Fits geometry.now image.now }
    requires first { 1 ≤ i }
    requires last { i ≤ geometry.now.last_inode }
    ensures { (test : ℕ → ℕ → Bool) → MarksPassed test geometry.now image.now marks.old
        → ((t part : ℕ) → from ≤ t → t < to → test (stored geometry.now image.now i (form_at geometry.now image.now i) t) part ≡ true)
        → MarksPassed test geometry.now image.now marks.new }
{
    if marks.is_empty() {
        return;
    }
    let form = BlockMap::of(geometry.edition, mode(image, geometry, i));
    let Some(way) = form.way(b) else { return };
    let last = to.min(form.block_limit());
    let mut block = address(image, geometry, i, way.address);
    for d in 0..way.depth {
        if is_between(geometry, &way, d, b, from, last) {
            mark(marks, block, way.depth - d);
        }
        block = entry(image, geometry, block, way.entries[d]);
    }
    if from <= b && b < last {
        mark(marks, block, 0);
    }
}

/// True if the block reached by the first `d` entries of the path to logical block `b` has at most two levels below it, and all logical blocks below
/// it are in `from..to`.
fn is_between(geometry: &Geometry, way: &BlockPath, d: usize, b: u32, from: u32, to: u32) -> bool
    requires depth { way.now.depth ≤ 3 }
    requires above { d ≤ way.now.depth }
    requires entries { (k : ℕ) → k < way.now.depth → slice_index way.now.entries k < (constants geometry.now.edition).pointers }
    requires low { b < 2113674 }
    ensures few { result ≡ true → way.now.depth - d < 3 }
    ensures start { result ≡ true → let pointers = (constants geometry.now.edition).pointers in
        from + pointers ^ (way.now.depth - d) ≤ b + blocks_left pointers (way.now.depth - d) (end_of way.now) }
    ensures stop { result ≡ true
        → b + blocks_left (constants geometry.now.edition).pointers (way.now.depth - d) (end_of way.now) ≤ to }
{
    let levels = way.depth - d;
    if levels >= MARKS {
        return false;
    }
    let end = b + left_below(geometry, way, d);
    end <= to && from <= end && blocks_below(geometry, levels) <= end - from
}

/// True if the mark of block `m` for the data blocks `levels` levels below it is set.
fn is_marked(marks: &[bool], m: u32, levels: usize) -> bool
    requires deep { levels ≤ 3 }
    ensures few { result ≡ true → levels < 3 }
    ensures marked { result ≡ true → is_marked marks.now m levels ≡ true }
{
    let at = MARKS * m as usize + levels;
    levels < MARKS && at < marks.len() && marks[at]
}

/// Sets the mark of block `m` for the data blocks `levels` levels below it. Block 0 stays unmarked: it is the number of a hole, which
/// [`next_block`](crate::next_block) skips whole.
fn mark(marks: &mut [bool], m: u32, levels: usize)
    requires few { levels < 3 }
    ensures { (test : ℕ → ℕ → Bool) (geometry : Geometry) (image : List ℕ) → MarksPassed test geometry image marks.old
        → PassesBelow test geometry image m levels → MarksPassed test geometry image marks.new }
{
    let at = MARKS * m as usize + levels;
    if m != 0 && at < marks.len() {
        marks[at] = true;
    }
}
