//! The first byte in which two files differ.
ghost use Rattle.std.specs.Prelude.{◌≡◌, ℕ, ◌+◌, ◌*◌, ◌<◌, ◌≤◌, length, slice_index};
ghost use Rattle.vol_layout.specs.Body.{body_size};
ghost use Rattle.vol_layout.specs.Geometry.{Fits};
ghost use Rattle.vol_compare.specs.Bodies.{IsFirstUnequal, IsHoleIn, body_in, byte_in, first_difference};

use pdp_words::{BLOCK, Image};
use vol_file::{block_at, next_block};
use vol_layout::Geometry;
use vol_layout::i_list::size;

/// A file of an image.
#[derive(Clone, Copy)]
pub(crate) struct StoredFile<'a> {
    /// The image.
    pub(crate) image: &'a Image,
    /// The geometry of the image.
    pub(crate) geometry: &'a Geometry,
    /// The i-number of the file.
    pub(crate) inode: u16,
}

/// Returns the first place at which the bytes of two files differ, or at which only one of them ends; `None` if they are equal.
///
/// Takes no memory, and copies nothing. Costs two block-map lookups, and a comparison of the bytes, for each logical block that is stored in one of the
/// files; blocks that are holes in both are skipped as [`next_block`] does.
pub(crate) fn first_difference(old: StoredFile<'_>, new: StoredFile<'_>) -> Option<u32>
    requires old_fits { Fits old.geometry.now old.image.now }
    requires old_first { 1 ≤ old.inode }
    requires old_last { old.inode ≤ old.geometry.now.last_inode }
    requires new_fits { Fits new.geometry.now new.image.now }
    requires new_first { 1 ≤ new.inode }
    requires new_last { new.inode ≤ new.geometry.now.last_inode }
    ensures { result ≡ first_difference (body_in old.entry) (body_in new.entry) }
{
    let old_size = body_size(old);
    let new_size = body_size(new);
    let common = old_size.min(new_size);
    match first_unequal(old, new, common) {
        Some(at) => Some(at),
        None if old_size == new_size => None,
        None => Some(common),
    }
}

/// Returns the number of bytes of a file: its size, but at most the greatest size of the edition.
fn body_size(file: StoredFile<'_>) -> u32
    requires fits { Fits file.geometry.now file.image.now }
    requires first { 1 ≤ file.inode }
    requires last { file.inode ≤ file.geometry.now.last_inode }
    ensures { result ≡ body_size file.entry.geometry.now file.entry.image.now file.entry.inode }
{
    size(file.image, file.geometry, file.inode).min(file.geometry.edition.constants().greatest)
}

/// Returns the first of the `common` first bytes in which two files differ, if there is one.
fn first_unequal(old: StoredFile<'_>, new: StoredFile<'_>, common: u32) -> Option<u32>
    requires old_fits { Fits old.geometry.now old.image.now }
    requires old_first { 1 ≤ old.inode }
    requires old_last { old.inode ≤ old.geometry.now.last_inode }
    requires new_fits { Fits new.geometry.now new.image.now }
    requires new_first { 1 ≤ new.inode }
    requires new_last { new.inode ≤ new.geometry.now.last_inode }
    ensures { IsFirstUnequal (byte_in old.entry) (byte_in new.entry) common result }
{
    let blocks = common.div_ceil(BLOCK as u32);
    let mut b = 0;
    let mut before = 0;
    let mut after = 0;
    while b < blocks {
        before = next_stored(old, before, b, blocks);
        after = next_stored(new, after, b, blocks);
        let next = before.min(after);
        if next >= blocks {
            return None;
        }
        let count = (common - BLOCK as u32 * next).min(BLOCK as u32);
        if let Some(r) = unequal_in_block(old, new, next, count) {
            return Some(BLOCK as u32 * next + r);
        }
        b = next + 1;
    }
    None
}

/// Returns `known`, if it isn't before block `b` of a file, else the first block in `b..end` that is stored, or `end` if none is. All blocks from `b` on
/// and before the result are holes, as they are before `known`.
fn next_stored(file: StoredFile<'_>, known: u32, b: u32, end: u32) -> u32
    requires fits { Fits file.geometry.now file.image.now }
    requires first { 1 ≤ file.inode }
    requires last { file.inode ≤ file.geometry.now.last_inode }
    requires order { b ≤ end }
    requires known_within { known ≤ end }
    requires hole { IsHoleIn file b known }
    ensures order { b ≤ result }
    ensures within { result ≤ end }
    ensures hole { IsHoleIn file.entry b result }
{
    if known >= b {
        known
    } else {
        next_block(file.image, file.geometry, file.inode, b, end)
    }
}

/// Returns the first of the `count` first bytes of logical block `b` in which two files differ, if there is one.
fn unequal_in_block(old: StoredFile<'_>, new: StoredFile<'_>, b: u32, count: u32) -> Option<u32>
    requires old_fits { Fits old.geometry.now old.image.now }
    requires old_first { 1 ≤ old.inode }
    requires old_last { old.inode ≤ old.geometry.now.last_inode }
    requires new_fits { Fits new.geometry.now new.image.now }
    requires new_first { 1 ≤ new.inode }
    requires new_last { new.inode ≤ new.geometry.now.last_inode }
    requires few { count ≤ 512 }
    ensures { IsFirstUnequal (λ r. byte_in old.entry (512 * b + r)) (λ r. byte_in new.entry (512 * b + r)) count result }
{
    let hole = [0; BLOCK];
    let before = block_bytes(old, b, &hole);
    let after = block_bytes(new, b, &hole);
    let count = count as usize;
    unequal_byte(&before[..count], &after[..count])
}

/// Returns the bytes of logical block `b` of a file, or `hole` if it isn't stored in a data block.
fn block_bytes<'a>(file: StoredFile<'a>, b: u32, hole: &'a [u8]) -> &'a [u8]
    requires fits { Fits file.geometry.now file.image.now }
    requires first { 1 ≤ file.inode }
    requires last { file.inode ≤ file.geometry.now.last_inode }
    requires len { length hole.now ≡ 512 }
    requires zeros { (r : ℕ) → r < 512 → slice_index hole.now r ≡ 0 }
    ensures len { length result.now ≡ 512 }
    ensures bytes { (r : ℕ) → r < 512 → slice_index result.now r
        ≡ byte_in file.entry (512 * b + r) }
{
    let Some(k) = block_at(file.image, file.geometry, file.inode, b) else {
        return hole;
    };
    if file.geometry.in_zone(k) {
        file.image.block(k)
    } else {
        hole
    }
}

/// Returns the first place at which two slices of one length differ, if there is one.
fn unequal_byte(old: &[u8], new: &[u8]) -> Option<u32>
    requires len { length old.now ≡ length new.now }
    requires few { length old.now ≤ 512 }
    ensures { IsFirstUnequal (slice_index old.now) (slice_index new.now) (length old.now) result }
{
    if old == new {
        return None;
    }
    for r in 0..old.len() {
        if old[r] != new[r] {
            return Some(r as u32);
        }
    }
    None
}
