//! Images of volumes whose super-block is lost, with sizes that are known otherwise in its place.
ghost use Rattle.std.specs.Prelude.{◌≡◌, ◌+◌, ◌≤◌, true, Some, IfErr, IfOk, length};
ghost use Rattle.pdp_words.specs.Words.{SameOutside};
ghost use Rattle.vol_layout.specs.Geometry.{block_count, first_data_block};
ghost use Rattle.vol_losses.specs.GivenSizes.{IsSized, IsUnsized, are_sizes, list_word, padded};

use crate::bad_images::RescueFault;
use crate::cut_images::{CutFault, HEAD};
use pdp_words::Image;
use std::alloc::AllocError;
use vol_layout::{Edition, Super};

/// The sizes of a volume.
#[derive(Clone, Copy)]
pub struct VolumeSizes {
    /// Its number of blocks.
    pub blocks: u32,
    /// The number of blocks of its i-list.
    pub list_blocks: u16,
}

/// Writes the sizes into the super-block of an image, if there are any; an image without a super-block gets one.
pub(crate) fn sized(
    edition: Edition,
    image: Image,
    sizes: Option<VolumeSizes>,
) -> Result<Image, RescueFault>
    ensures done { IfOk result (λ image'. IsSized sizes edition image image') }
    ensures fault { IfErr result (IsUnsized sizes edition) }
{
    match sizes {
        None => Ok(image),
        Some(sizes) if are_sizes(edition, sizes) => with_sizes(edition, image, sizes),
        Some(sizes) => Err(RescueFault::Sizes(sizes)),
    }
}

/// Writes the sizes into the super-block of an image. The error is that memory ran out.
fn with_sizes(edition: Edition, image: Image, sizes: VolumeSizes) -> Result<Image, RescueFault>
    requires { are_sizes edition sizes ≡ true }
    ensures done { IfOk result (λ image'. IsSized (Some sizes) edition image image') }
    ensures fault { IfErr result (λ fault. fault ≡ RescueFault.Cut CutFault.NoMemory) }
{
    let Ok(bytes) = padded(image.into_bytes()) else {
        return Err(RescueFault::Cut(CutFault::NoMemory));
    };
    let mut image = Image::from_bytes(bytes);
    put_sizes(&mut image, edition, sizes);
    Ok(image)
}

/// Appends zeros up to the end of the super-block.
fn padded(mut bytes: Vec<u8>) -> Result<Vec<u8>, AllocError>
    ensures { IfOk result (λ all. all.items ≡ padded bytes.items) }
{
    if bytes.len() >= HEAD {
        return Ok(bytes);
    }
    bytes.resize(HEAD, 0)?;
    Ok(bytes)
}

/// Writes the sizes into the super-block.
fn put_sizes(image: &mut Image, edition: Edition, sizes: VolumeSizes)
    requires sizes { are_sizes edition sizes ≡ true }
    requires room { 1024 ≤ length image.old }
    ensures blocks { block_count edition image.new ≡ sizes.blocks }
    ensures list { first_data_block edition image.new ≡ sizes.list_blocks + 2 }
    ensures others { SameOutside image.old image.new 512 518 }
{
    let super_block = Super { edition };
    super_block.put_list_size(image, list_word(edition, sizes.list_blocks));
    super_block.put_block_count(image, sizes.blocks);
}

/// Returns the word for the size of an i-list in the super-block.
fn list_word(edition: Edition, list_blocks: u16) -> u16
    requires { list_blocks ≤ 8191 }
    ensures { result ≡ list_word edition list_blocks }
{
    match edition {
        Edition::V6 => list_blocks,
        Edition::V7 => list_blocks + 2,
    }
}

/// True if a volume of the edition can have these sizes.
fn are_sizes(edition: Edition, sizes: VolumeSizes) -> bool
    ensures { result ≡ are_sizes edition sizes }
{
    let limits = edition.constants();
    1 <= sizes.list_blocks
        && sizes.list_blocks <= limits.list_block_limit
        && u32::from(sizes.list_blocks) + 2 < sizes.blocks
        && sizes.blocks <= limits.block_limit
}
