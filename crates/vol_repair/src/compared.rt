//! What is the same in two images of a volume, found by the blocks in which they differ.
ghost use Rattle.std.specs.Prelude.{◌≡◌, ℕ, ◌+◌, ◌*◌, ◌<◌, ◌≤◌, true, IfOk, length, slice_index};
ghost use Rattle.vol_layout.specs.Geometry.{Fits};
ghost use Rattle.vol_losses.specs.Losses.{AgreesOutside};
ghost use Rattle.vol_repair.specs.Kept.{KeepsFile};

use pdp_words::{BLOCK, Image};
use std::alloc::{AllocError, Global};
use vol_layout::{Geometry, Inode, inode};
use vol_losses::next_block;

/// Marks each block of the volume in which two images differ.
///
/// Costs a comparison of all blocks. Takes a byte for each block. An error: memory ran out.
pub fn changed_blocks(
    alloc: Global,
    geometry: &Geometry,
    old: &Image,
    new: &Image,
) -> Result<Vec<bool>, AllocError>
    requires old { Fits geometry.now old.now }
    requires new { Fits geometry.now new.now }
    ensures { IfOk result (λ marks. AgreesOutside geometry.now marks.items old.now new.now) }
{
    let mut marks = vec![in alloc; true; geometry.zone_end as usize]?;
    for k in 0..geometry.zone_end {
        marks[k as usize] = old.block(k) != new.block(k);
    }
    Ok(marks)
}

/// True if block `k` has the same bytes in two images.
pub(crate) fn is_same_block(old: &Image, new: &Image, k: u32) -> bool
    requires old { 512 * k + 512 ≤ length old.now }
    requires new { 512 * k + 512 ≤ length new.now }
    ensures { result ≡ true → (r : ℕ) → r < 512 → slice_index new.now (512 * k + r) ≡ slice_index old.now (512 * k + r) }
{
    old.block(k) == new.block(k)
}

/// True if i-node `i` of both images, an i-number of the volume, differs at most in its link count, and the bytes of the file are in blocks that didn't
/// change. `changed` marks each block that did.
///
/// Costs what [`next_block`] costs for all logical blocks of the file.
pub fn is_kept(old: &Image, new: &Image, geometry: &Geometry, changed: &[bool], i: u16) -> bool
    requires old { Fits geometry.now old.now }
    requires new { Fits geometry.now new.now }
    requires agrees { AgreesOutside geometry.now changed.now old.now new.now }
    requires first { 1 ≤ i }
    requires last { i ≤ geometry.now.last_inode }
    ensures { result ≡ true → KeepsFile geometry.now old.now new.now i }
{
    let node = inode(old, geometry, i);
    if !is_same_node(&node, &inode(new, geometry, i)) {
        return false;
    }
    let bytes = node.size.min(geometry.edition.constants().greatest);
    let end = bytes.div_ceil(BLOCK as u32);
    next_block(old, geometry, changed, i, true, 0, end) == end
}

/// True if two i-nodes differ at most in their link counts.
fn is_same_node(old: &Inode, new: &Inode) -> bool
    ensures { result ≡ true → record new.now { links = old.now.links } ≡ old.now }
{
    old.mode.bits == new.mode.bits
        && old.uid == new.uid
        && old.gid == new.gid
        && old.size == new.size
        && old.addresses == new.addresses
        && old.accessed == new.accessed
        && old.modified == new.modified
        && old.changed == new.changed
}
