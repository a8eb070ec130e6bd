//! Salvage of a volume that is sound except for its free list.

ghost use Rattle.std.specs.Prelude.{◌≡◌, false, IfOk, IfErr};
ghost use Rattle.vol_layout.specs.Geometry.{Fits, geometry_of};
ghost use Rattle.vol_judge.specs.Sound.{KeepsRules};
ghost use Rattle.vol_check.specs.SalvagedImages.{IsSalvaged, IsSalvageFault};

use pdp_words::Image;
use std::alloc::{AllocError, Global};
use thiserror::Error;
use vol_free::rebuild;
use vol_judge::{judge, named_blocks};
use vol_layout::{Edition, Geometry};

/// The reason why an image wasn't salvaged.
#[derive(Clone, Copy, Debug, Error)]
pub enum SalvageFault {
    /// The first broken rule that isn't about the free list.
    #[error("unsound, rule {0}")]
    Unsound(u8),
    /// Memory ran out.
    #[error("12 NoMemory")]
    NoMemory,
}

/// Rebuilds the free list from the data blocks that belong to no file, if the image breaks only the rules about the free list: rules 6 and 8, and
/// rule 7 for free blocks. The image is then sound, and its files and directories are as they were. If it fails, it hands back the same bytes.
///
/// Costs as much as judging an image. Takes memory to judge the image, and two bytes for each block.
pub fn salvage(
    alloc: Global,
    edition: Edition,
    bytes: Vec<u8>,
) -> Result<Vec<u8>, (SalvageFault, Vec<u8>)>
    ensures salvaged { IfOk result (λ salvaged. IsSalvaged edition bytes.items salvaged.items) }
    ensures fault { IfErr result (λ (fault, same). IsSalvageFault edition bytes.items fault) }
    ensures handed_back { IfErr result (λ (fault, same). same.items ≡ bytes.items) }
{
    let mut image = Image::from_bytes(bytes);
    match judge(alloc, edition, &image, false) {
        Ok(None) => {}
        Ok(Some(rule)) => return Err((SalvageFault::Unsound(rule), image.into_bytes())),
        Err(_) => return Err((SalvageFault::NoMemory, image.into_bytes())),
    }
    match remake(alloc, edition, &mut image) {
        Ok(()) => Ok(image.into_bytes()),
        Err(_) => Err((SalvageFault::NoMemory, image.into_bytes())),
    }
}

/// Rebuilds the free list of an image.
fn remake(alloc: Global, edition: Edition, image: &mut Image) -> Result<(), AllocError>
    requires { KeepsRules false edition image.old }
    ensures salvaged { IfOk result (λ done. IsSalvaged edition image.old image.new) }
    ensures same { IfErr result (λ refused. image.new ≡ image.old) }
{
    let geometry = whole_geometry(edition, image);
    let used = named_blocks(alloc, image, &geometry)?;
    rebuild(image, &geometry, &used);
    Ok(())
}

/// Returns the geometry of an image that keeps rules 1 and 2.
#[tactic(auto, using(crate::proofs::Remade::rules_read))]
fn whole_geometry(edition: Edition, image: &Image) -> Geometry
    requires { KeepsRules false edition image.now }
    ensures value { result ≡ geometry_of edition image.now }
    ensures fits { Fits result image.now }
{
    match Geometry::read(edition, image) {
        Ok(geometry) => geometry,
        Err(_) => unreachable!(),
    }
}
