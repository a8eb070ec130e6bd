//! Images that were cut off, with zeros up to the end of their volumes.
ghost use Rattle.std.specs.Prelude.{◌≡◌, ◌+◌, ◌/◌, ◌≤◌, length, IfErr, IfOk};
ghost use Rattle.vol_losses.specs.CutImages.{IsCompleted, IsFilled, IsIncomplete, has_size};

use pdp_words::{BLOCK, Image};
use std::alloc::{AllocError, Global};
use vol_layout::{Edition, Super};

/// The most blocks that [`filled`] appends: 512 megabytes.
pub const MOST_MISSING: usize = 1_048_576;

/// An image that was cut off, with zeros up to the end of its volume.
#[derive(Drop)]
pub struct CutImage {
    /// Its bytes, and the zeros.
    pub image: Image,
    /// A mark for each block of the volume: true if it is lost. There are no marks if none is.
    pub lost: Vec<bool>,
}

/// Appends zeros to the bytes of an image, up to the end of a volume of `blocks` blocks. Each block of which a byte was missing is lost.
///
/// Takes memory for the zeros, and for a mark for each block; none if no block is lost. An error: memory ran out.
pub fn filled(alloc: Global, mut bytes: Vec<u8>, blocks: u32) -> Result<CutImage, AllocError>
    requires few { blocks ≤ length bytes.items / 512 + 1048576 }
    ensures { IfOk result (λ cut. IsFilled bytes.items blocks cut.image cut.lost.items) }
{
    let whole = bytes.len() / BLOCK;
    let wanted = blocks as usize;
    let mut lost = Vec::new(alloc);
    if whole < wanted {
        lost.resize(whole, false)?;
        lost.resize(wanted, true)?;
        bytes.resize(BLOCK * wanted, 0)?;
    }
    let image = Image::from_bytes(bytes);
    Ok(CutImage { image, lost })
}

/// The reason why an image isn't completed.
#[derive(Clone, Copy)]
pub enum CutFault {
    /// Memory ran out.
    NoMemory,
    /// The image has so many whole blocks of those that its super-block states, and more than [`MOST_MISSING`] are missing.
    TooShort { there: usize, blocks: u32 },
}

/// The number of bytes up to the end of the super-block.
pub(crate) const HEAD: usize = 1024;

/// Completes the image of a volume of which only some first bytes are left, as [`filled`] does, up to the last block that its super-block states. A
/// block that is there in part is lost: zeros take the place of all its bytes, so no entry is read that was cut in two. An image without a super-block,
/// or whose super-block states more blocks than a volume can have, stays as it is, with no marks.
///
/// Takes memory as [`filled`] does.
pub fn completed(alloc: Global, edition: Edition, bytes: Vec<u8>) -> Result<CutImage, CutFault>
    ensures done { IfOk result (λ cut. IsCompleted edition bytes.items cut.image cut.lost.items) }
    ensures fault { IfErr result (IsIncomplete edition bytes.items) }
{
    let image = Image::from_bytes(bytes);
    if !has_size(edition, &image) {
        let lost = Vec::new(alloc);
        return Ok(CutImage { image, lost });
    }
    let blocks = Super { edition }.block_count(&image);
    let there = image.len() / BLOCK;
    if blocks as usize > there && blocks as usize - there > MOST_MISSING {
        return Err(CutFault::TooShort { there, blocks });
    }
    let mut bytes = image.into_bytes();
    if there < blocks as usize {
        bytes.truncate(BLOCK * there);
    }
    match filled(alloc, bytes, blocks) {
        Ok(cut) => Ok(cut),
        Err(_) => Err(CutFault::NoMemory),
    }
}

/// True if an image has a super-block, which states no more blocks than a volume of the edition can have.
fn has_size(edition: Edition, image: &Image) -> bool
    ensures { result ≡ has_size edition image.now }
{
    image.len() >= HEAD && Super { edition }.block_count(image) <= edition.constants().block_limit
}
