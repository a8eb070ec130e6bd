//! The image of a volume with more blocks, before it is repaired.
ghost use Rattle.std.specs.Prelude.{◌≡◌, ◌*◌, ◌<◌, ◌≤◌, IfErr, IfOk, length, true};
ghost use Rattle.std.specs.Result.{is_ok};
ghost use Rattle.vol_layout.specs.Edition.{constants};
ghost use Rattle.vol_layout.specs.Geometry.{block_count, geometry_read};
ghost use Rattle.vol_repair.specs.Longer.{IsLengthened, IsLonger};
ghost use Rattle.vol_repair.specs.declared.longer.LengthFault.TheVariants as faults;

use pdp_words::{BLOCK, Image};
use std::alloc::AllocError;
use vol_layout::{Edition, Geometry, Super};

/// The reason why an image wasn't made longer.
#[derive(Clone, Copy)]
pub enum LengthFault {
    /// The edition has no volume of so many blocks.
    TooMany,
    /// Memory ran out.
    NoMemory,
}

/// Returns the image of a volume with at least `blocks` blocks: the same if it has so many, or if it breaks rule 1 or 2; otherwise a longer one, whose
/// super-block has the new number of blocks. The appended blocks are zeros, and in no free list. Bytes after the volume are dropped then.
///
/// Takes memory for the longer image, while the other one is there. `TooMany` is checked first.
pub fn lengthened(edition: Edition, bytes: Vec<u8>, blocks: u32) -> Result<Vec<u8>, LengthFault>
    ensures lengthened { IfOk result (λ longer. IsLengthened edition blocks bytes.items longer.items) }
    ensures few { IfOk result (λ _. blocks ≤ (constants edition).block_limit) }
    ensures fault { IfErr result (λ fault. fault ≡ faults.TooMany → (constants edition).block_limit < blocks) }
    ensures memory { IfErr result (λ fault. fault ≡ faults.NoMemory → blocks ≤ (constants edition).block_limit) }
{
    if blocks > edition.constants().block_limit {
        return Err(LengthFault::TooMany);
    }
    let image = Image::from_bytes(bytes);
    match Geometry::read(edition, &image) {
        Ok(geometry) => with_least(edition, image.into_bytes(), geometry.zone_end, blocks),
        Err(_) => Ok(image.into_bytes()),
    }
}

/// Returns the image of a volume that has `own` blocks, or a longer one if that has fewer than `blocks`.
fn with_least(
    edition: Edition,
    bytes: Vec<u8>,
    own: u32,
    blocks: u32,
) -> Result<Vec<u8>, LengthFault>
    requires sized { is_ok (geometry_read edition bytes.items) ≡ true }
    requires whole { 512 * own ≤ length bytes.items }
    requires own { own ≡ block_count edition bytes.items }
    requires room { 2 ≤ own }
    requires limit { blocks ≤ (constants edition).block_limit }
    ensures lengthened { IfOk result (λ longer. IsLengthened edition blocks bytes.items longer.items) }
    ensures fault { IfErr result (λ fault. fault ≡ faults.NoMemory) }
{
    if blocks <= own {
        return Ok(bytes);
    }
    match longer(edition, bytes, own, blocks) {
        Ok(longer) => Ok(longer),
        Err(_) => Err(LengthFault::NoMemory),
    }
}

/// Returns a longer image of a volume that has `own` blocks.
fn longer(
    edition: Edition,
    mut bytes: Vec<u8>,
    own: u32,
    blocks: u32,
) -> Result<Vec<u8>, AllocError>
    requires sized { is_ok (geometry_read edition bytes.items) ≡ true }
    requires whole { 512 * own ≤ length bytes.items }
    requires own { own ≡ block_count edition bytes.items }
    requires room { 2 ≤ own }
    requires more { own < blocks }
    requires limit { blocks ≤ (constants edition).block_limit }
    ensures { IfOk result (λ longer. IsLonger edition blocks bytes.items longer.items) }
{
    bytes.truncate(BLOCK * own as usize);
    bytes.resize(BLOCK * blocks as usize, 0)?;
    let mut image = Image::from_bytes(bytes);
    Super { edition }.put_block_count(&mut image, blocks);
    Ok(image.into_bytes())
}
