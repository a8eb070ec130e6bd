//! The pieces of a sweep over directories: each piece is a part of an i-number.
ghost use Rattle.std.specs.Prelude.{◌≡◌, ◌+◌, ◌-◌, ◌<◌, ◌≤◌, IfOk, length, slice_index};
ghost use Rattle.vol_layout.specs.Geometry.{Fits};
ghost use Rattle.vol_check.specs.Parts.{part_count, HasStarts, IsPart};

use pdp_words::{BLOCK, Image};
use std::alloc::{AllocError, Global};
use vol_layout::i_list::{kind, size};
use vol_layout::{Geometry, Kind};

/// The number of logical blocks in a piece of a directory.
pub(crate) const PART_BLOCKS: u32 = 64;

/// A part of an i-number: in a directory, at most 64 logical blocks, starting at 64 times the index.
#[derive(Clone, Copy)]
pub(crate) struct Part {
    pub inode: u16,
    pub index: u32,
}

/// Returns, for each i-number starting with 1, the number of pieces before its first one, then the total. Takes four bytes for each i-number.
pub(crate) fn part_starts(
    alloc: Global,
    image: &Image,
    geometry: &Geometry,
) -> Result<Vec<u32>, AllocError>
    requires fits { Fits geometry.now image.now }
    ensures { IfOk result (λ starts. HasStarts geometry.now image.now starts.items) }
{
    let mut starts = vec![in alloc; 0; geometry.last_inode as usize + 1]?;
    let mut before = 0;
    for i in 1..starts.len() {
        before += part_count(image, geometry, i as u16);
        starts[i] = before;
    }
    Ok(starts)
}

/// Returns the number of pieces of i-number `i`: for a directory one for each 64 logical blocks, rounded up, and at least one.
fn part_count(image: &Image, geometry: &Geometry, i: u16) -> u32
    requires fits { Fits geometry.now image.now }
    requires first { 1 ≤ i }
    requires last { i ≤ geometry.now.last_inode }
    ensures exact { result ≡ part_count geometry.now image.now i }
    ensures few { result ≤ 33027 }
{
    match kind(image, geometry, i) {
        Kind::Directory => {
            let bytes = size(image, geometry, i).min(geometry.edition.constants().greatest);
            bytes.div_ceil(BLOCK as u32).div_ceil(PART_BLOCKS).max(1)
        }
        _ => 1,
    }
}

/// Returns the part that piece `number` is.
pub(crate) fn part_at(starts: &[u32], number: u64) -> Part
    requires few { length starts.now ≤ 65536 }
    requires some { 1 ≤ length starts.now }
    requires first { slice_index starts.now 0 ≤ number }
    requires last { number < slice_index starts.now (length starts.now - 1) }
    ensures { IsPart starts.now number result }
{
    let mut low = 0;
    let mut high = starts.len() - 1;
    while high - low > 1 {
        let middle = low + (high - low) / 2;
        if u64::from(starts[middle]) <= number {
            low = middle;
        } else {
            high = middle;
        }
    }
    Part {
        inode: low as u16 + 1,
        index: (number - u64::from(starts[low])) as u32,
    }
}
