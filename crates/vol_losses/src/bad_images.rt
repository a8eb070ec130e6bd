//! Images of which some blocks couldn't be read, with zeros in their place.
ghost use Rattle.std.specs.Prelude.{◌≡◌, ◌⊎◌, ℕ, [], true, ◌+◌, ◌*◌, ◌/◌, ◌<◌, ◌≤◌, ◌&&◌, ◌||◌, not, nat_le, if◌then◌else◌, IfErr, IfOk, length, slice_index};
ghost use Rattle.std.specs.List.{list_any};
ghost use Rattle.vol_losses.specs.BadImages.{IsRescued, IsUnrescued, is_block_in, is_block_known, is_block_read};
ghost use Rattle.vol_losses.specs.Losses.{is_lost};

use crate::cut_images::{CutFault, CutImage, completed};
use crate::given_sizes::{VolumeSizes, sized};
use bad_maps::ReadRange;
use pdp_words::{BLOCK, Image};
use std::alloc::{AllocError, Global};
use vol_layout::Edition;

/// The number of bytes of a block.
const BYTES: u64 = BLOCK as u64;

/// The reason why an image isn't rescued.
#[derive(Clone, Copy)]
pub enum RescueFault {
    /// It isn't completed, for this reason.
    Cut(CutFault),
    /// No volume of the edition has these sizes.
    Sizes(VolumeSizes),
}

/// Completes the image of a volume of which only some bytes were read: those in `ranges` of a file in which the volume begins at block `at`. Each block
/// of which a byte wasn't read, or is missing, is lost, and zeros take the place of all its bytes. The end of the volume is then as
/// [`completed`] finds it in the super-block. If `sizes` are given, the super-block is lost too, and states these sizes.
///
/// Takes memory for a mark for each block, and as [`completed`] does; there are no marks if no block is lost. Costs the ranges and the blocks.
pub fn rescued(
    alloc: Global,
    edition: Edition,
    bytes: Vec<u8>,
    ranges: &[ReadRange],
    at: u32,
    sizes: Option<VolumeSizes>,
) -> Result<CutImage, RescueFault>
    ensures done { IfOk result (λ cut. IsRescued edition ranges.now at sizes bytes.items cut.image cut.lost.items) }
    ensures fault { IfErr result (IsUnrescued edition ranges.now at sizes bytes.items) }
{
    let blocks = bytes.len() / BLOCK;
    let Ok(unread) = unread_blocks(alloc, ranges, at, sizes, blocks) else {
        return Err(RescueFault::Cut(CutFault::NoMemory));
    };
    let stated = sized(edition, cleared(bytes, &unread), sizes)?;
    let cut = match completed(alloc, edition, stated.into_bytes()) {
        Ok(cut) => cut,
        Err(fault) => return Err(RescueFault::Cut(fault)),
    };
    match marks_of(unread, cut.image.len() / BLOCK) {
        Ok(lost) => Ok(CutImage { lost, ..cut }),
        Err(_) => Err(RescueFault::Cut(CutFault::NoMemory)),
    }
}

/// Returns a mark for each of the first `blocks` blocks of a volume that begins at block `at` of a file: true if a byte of it isn't in the ranges of
/// bytes that were read, or if it is the super-block, and sizes are given.
fn unread_blocks(
    alloc: Global,
    ranges: &[ReadRange],
    at: u32,
    sizes: Option<VolumeSizes>,
    blocks: usize,
) -> Result<Vec<bool>, AllocError>
    ensures count { IfOk result (λ unread. length unread.items ≡ blocks) }
    ensures marks { IfOk result (λ unread. (k : ℕ) → k < blocks → is_lost unread.items k ≡ not (is_block_known sizes ranges.now at k)) }
{
    let mut unread = blocks_outside(alloc, ranges, at, blocks)?;
    if sizes.is_some() && 1 < blocks {
        unread[1] = true;
    }
    Ok(unread)
}

/// Returns a mark for each of the first `blocks` blocks of a volume that begins at block `at` of a file: true if a byte of it isn't in the ranges of
/// bytes that were read.
fn blocks_outside(
    alloc: Global,
    ranges: &[ReadRange],
    at: u32,
    blocks: usize,
) -> Result<Vec<bool>, AllocError>
    ensures count { IfOk result (λ unread. length unread.items ≡ blocks) }
    ensures marks { IfOk result (λ unread. (k : ℕ) → k < blocks → is_lost unread.items k ≡ not (is_block_read ranges.now at k)) }
{
    let mut unread = Vec::new(alloc);
    unread.resize(blocks, true)?;
    for range in ranges {
        unmark(&mut unread, range, u64::from(at));
    }
    Ok(unread)
}

/// Takes away the marks of the blocks of which a range has all bytes.
fn unmark(unread: &mut [bool], range: &ReadRange, at: u64)
    ensures count { length unread.new ≡ length unread.old }
    ensures marks { (k : ℕ) → k < length unread.old → is_lost unread.new k ≡ (is_lost unread.old k && not (is_block_in at k range.now)) }
{
    let from = range.first.div_ceil(BYTES).saturating_sub(at);
    let end = (range.end / BYTES)
        .saturating_sub(at)
        .min(unread.len() as u64);
    for k in from..end {
        unread[k as usize] = false;
    }
}

/// Returns the whole blocks of these bytes as an image, with zeros in place of each block that is marked.
fn cleared(mut bytes: Vec<u8>, unread: &[bool]) -> Image
    requires { length unread.now ≡ length bytes.items / 512 }
    ensures count { length result ≡ 512 * (length bytes.items / 512) }
    ensures bytes { (k r : ℕ) → k < length bytes.items / 512 → r < 512
        → slice_index result (512 * k + r) ≡ (if is_lost unread.now k then 0 else slice_index bytes.items (512 * k + r)) }
{
    bytes.truncate(BLOCK * unread.len());
    let mut image = Image::from_bytes(bytes);
    for k in 0..unread.len() {
        if unread[k] {
            image.clear(BLOCK * k, BLOCK * k + BLOCK);
        }
    }
    image
}

/// Returns a mark for each of `blocks` blocks: true if that block is marked, or past the marks. There are no marks if all would be false.
fn marks_of(unread: Vec<bool>, blocks: usize) -> Result<Vec<bool>, AllocError>
    requires { length unread.items ≤ blocks }
    ensures marks { IfOk result (λ lost. (k : ℕ) → k < blocks → is_lost lost.items k ≡ (nat_le (length unread.items) k || is_lost unread.items k)) }
    ensures count { IfOk result (λ lost. (lost.items ≡ []) ⊎ ((length lost.items ≡ blocks) × (list_any (λ mark. mark) lost.items ≡ true))) }
{
    let mut lost = unread;
    lost.resize(blocks, true)?;
    if !is_any_lost(&lost) {
        lost.clear();
    }
    Ok(lost)
}

/// True if a block is marked.
fn is_any_lost(lost: &[bool]) -> bool
    ensures { result ≡ list_any (λ mark. mark) lost.now }
{
    lost.iter().any(|mark| *mark)
}
