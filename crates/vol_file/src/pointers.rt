//! Iterating over the block numbers in an indirect block, skipping zeros.
ghost use Rattle.std.specs.Prelude.{◌≡◌, ◌≢◌, ℕ, ◌+◌, ◌<◌, ◌≤◌, true, length, slice_index};
ghost use Rattle.vol_layout.specs.Edition.{constants};
ghost use Rattle.vol_layout.specs.Geometry.{Fits};
ghost use Rattle.vol_layout.specs.BlockPointers.{pointer_in};

use crate::block_lookup::entry;
use pdp_words::{BLOCK, Image};
use vol_layout::Geometry;

/// The number of bytes tested at once while all bytes are 0.
const LARGE: usize = 64;

/// The number of bytes tested at once after a piece of `LARGE` bytes that aren't all 0.
const SMALL: usize = 16;

/// Returns the index of the first block number in indirect block `m`, at index `from` or later, that isn't 0. Returns the number of block numbers in
/// a block if there is none, or if `m` is outside the data zone.
///
/// Costs a read of one block number if that isn't 0, else a read of the skipped bytes, up to 64 of them at once.
pub fn next_pointer(image: &Image, geometry: &Geometry, m: u32, from: u32) -> u32
    requires fits { Fits geometry.now image.now }
    requires within { from ≤ (constants geometry.now.edition).pointers }
    ensures order { from ≤ result }
    ensures within { result ≤ (constants geometry.now.edition).pointers }
    ensures zeros { (k : ℕ) → from ≤ k → k < result → pointer_in geometry.now image.now m k ≡ 0 }
    ensures some { result < (constants geometry.now.edition).pointers → pointer_in geometry.now image.now m result ≢ 0 }
{
    if from < geometry.edition.constants().pointers && entry(image, geometry, m, from) != 0 {
        return from;
    }
    past_zeros(image, geometry, m, from)
}

/// Does the work of [`next_pointer`], piece by piece.
fn past_zeros(image: &Image, geometry: &Geometry, m: u32, from: u32) -> u32
    requires fits { Fits geometry.now image.now }
    requires within { from ≤ (constants geometry.now.edition).pointers }
    ensures order { from ≤ result }
    ensures within { result ≤ (constants geometry.now.edition).pointers }
    ensures zeros { (k : ℕ) → from ≤ k → k < result → pointer_in geometry.now image.now m k ≡ 0 }
    ensures some { result < (constants geometry.now.edition).pointers → pointer_in geometry.now image.now m result ≢ 0 }
{
    let constants = geometry.edition.constants();
    if !geometry.in_zone(m) {
        return constants.pointers;
    }
    let start = BLOCK * m as usize;
    let first = start + constants.number_bytes * from as usize;
    let found = next_byte(image.as_bytes(), first, start + BLOCK);
    ((found - start) / constants.number_bytes) as u32
}

/// Returns the index of the first byte in `from..end` that isn't 0, or `end` if all are 0.
fn next_byte(bytes: &[u8], from: usize, end: usize) -> usize
    requires order { from ≤ end }
    requires room { end ≤ length bytes.now }
    ensures order { from ≤ result }
    ensures within { result ≤ end }
    ensures zeros { (k : ℕ) → from ≤ k → k < result → slice_index bytes.now k ≡ 0 }
    ensures some { result < end → slice_index bytes.now result ≢ 0 }
{
    let near = past_clear(bytes, past_clear(bytes, from, end, LARGE), end, SMALL);
    for at in near..end {
        if bytes[at] != 0 {
            return at;
        }
    }
    end
}

/// Skips pieces of `piece` zero bytes each, starting at byte `from` and not going past `end`, and returns the index of the first byte not skipped.
fn past_clear(bytes: &[u8], from: usize, end: usize, piece: usize) -> usize
    requires some { 1 ≤ piece }
    requires order { from ≤ end }
    requires room { end ≤ length bytes.now }
    ensures order { from ≤ result }
    ensures within { result ≤ end }
    ensures zeros { (k : ℕ) → from ≤ k → k < result → slice_index bytes.now k ≡ 0 }
{
    let mut at = from;
    while end - at >= piece && is_clear(bytes, at, piece) {
        at += piece;
    }
    at
}

/// True if the `piece` bytes at index `at` are all 0. Has no branch for each byte, so that one instruction can test several.
fn is_clear(bytes: &[u8], at: usize, piece: usize) -> bool
    requires room { at + piece ≤ length bytes.now }
    ensures zeros { result ≡ true → (k : ℕ) → at ≤ k → k < at + piece → slice_index bytes.now k ≡ 0 }
{
    let mut is_clear = true;
    for k in at..at + piece {
        is_clear &= bytes[k] == 0;
    }
    is_clear
}
