//! A sound volume with another number of blocks.
ghost use Rattle.std.specs.Prelude.{◌≡◌, IfOk, IfErr};
ghost use Rattle.vol_resize.specs.Resized.{CanHave, IsResized, IsResizeFault};

use crate::least_blocks::least_blocks;
use pdp_words::{BLOCK, Image};
use std::alloc::Global;
use thiserror::Error;
use vol_free::rebuild;
use vol_judge::{examine, named_blocks};
use vol_layout::{Edition, Geometry, Super};

/// The reason why a volume wasn't resized.
#[derive(Clone, Copy, Debug, Error)]
pub enum ResizeFault {
    /// The edition has no volume of so many blocks.
    #[error("bounds")]
    TooMany,
    /// The first broken rule.
    #[error("unsound, rule {0}")]
    Unsound(u8),
    /// The volume has so many blocks already.
    #[error("it has that many blocks")]
    Same,
    /// The fewest blocks that the volume can have: the files keep their blocks, and this many reach to the last one that a file uses.
    #[error("it needs {0} blocks")]
    Needs(u32),
    /// Memory ran out.
    #[error("12 NoMemory")]
    NoMemory,
}

/// The blocks of a volume that files use, with its geometry.
#[derive(Drop)]
struct UsedBlocks {
    geometry: Geometry,
    /// A mark for each block.
    used: Vec<bool>,
}

/// Gives the volume in an image exactly `blocks` blocks of 512 bytes. The image is then as long as the volume. Files keep their blocks, so a volume can't
/// lose one that a file uses. All other data blocks are free afterwards, in ascending order. If it fails, it hands back the same bytes.
///
/// `TooMany` is checked first, then the rules, then `Same` and `Needs`; `NoMemory` can come at any time.
///
/// Costs as much as judging an image, and copying it if it grows. Takes the memory to judge it, two bytes for each block, and that of the new image.
pub fn resize(
    alloc: Global,
    edition: Edition,
    bytes: Vec<u8>,
    blocks: u32,
) -> Result<Vec<u8>, (ResizeFault, Vec<u8>)>
    ensures resized { IfOk result (λ resized. IsResized edition blocks bytes.items resized.items) }
    ensures fault { IfErr result (λ (fault, same). IsResizeFault edition blocks bytes.items fault) }
    ensures handed_back { IfErr result (λ (fault, same). same.items ≡ bytes.items) }
{
    let image = Image::from_bytes(bytes);
    let UsedBlocks { geometry, used } = match used_for(alloc, edition, &image, blocks) {
        Ok(used) => used,
        Err(fault) => return Err((fault, image.into_bytes())),
    };
    let mut bytes = image.into_bytes();
    if bytes.resize(blocks as usize * BLOCK, 0).is_err() {
        return Err((ResizeFault::NoMemory, bytes));
    }
    let mut image = Image::from_bytes(bytes);
    let geometry = Geometry {
        zone_end: blocks,
        ..geometry
    };
    Super { edition }.put_block_count(&mut image, blocks);
    rebuild(&mut image, &geometry, &used);
    Ok(image.into_bytes())
}

/// Returns the geometry of the volume in an image, and a mark for each of `blocks` blocks that a file uses, if it can have so many blocks.
fn used_for(
    alloc: Global,
    edition: Edition,
    image: &Image,
    blocks: u32,
) -> Result<UsedBlocks, ResizeFault>
    ensures used { IfOk result (λ found. CanHave edition blocks image.now found.geometry found.used.items) }
    ensures fault { IfErr result (IsResizeFault edition blocks image.now) }
{
    if blocks > edition.constants().block_limit {
        return Err(ResizeFault::TooMany);
    }
    let Ok(examined) = examine(alloc, edition, image, true) else {
        return Err(ResizeFault::NoMemory);
    };
    let geometry = match examined {
        Ok(examined) => examined.geometry,
        Err(rule) => return Err(ResizeFault::Unsound(rule)),
    };
    if geometry.zone_end == blocks {
        return Err(ResizeFault::Same);
    }
    let Ok(mut used) = named_blocks(alloc, image, &geometry) else {
        return Err(ResizeFault::NoMemory);
    };
    let least = least_blocks(&geometry, &used);
    if blocks < least {
        return Err(ResizeFault::Needs(least));
    }
    if used.resize(blocks as usize, false).is_err() {
        return Err(ResizeFault::NoMemory);
    }
    Ok(UsedBlocks { geometry, used })
}
