//! The chain of the free list, link by link.
ghost use Rattle.std.specs.Prelude.{◌≡◌, ◌+◌, ◌*◌, ◌≤◌, ◌++◌, ◌∷◌, [], true, length, map, IfOk, OnOk};
ghost use Rattle.vol_layout.specs.Geometry.{Fits, in_zone};
ghost use Rattle.vol_inspect.specs.Inspect.{link_numbers};
ghost use Rattle.vol_inspect.specs.FreeChain.{InspectsChain, IsChainReport, link_head, link_of, shown_link, shown_from};

use crate::fault::InspectFault;
use crate::super_report::used;
use pdp_words::{BLOCK, Image};
use std::alloc::{AllocError, Global};
use vol_free::{FreeFault, FreeWalk};
use vol_layout::{Edition, Geometry, Super, number};

/// A link of the free list's chain.
#[derive(Drop)]
pub struct FreeLink {
    /// The block that contains the link; the super-block is block 1.
    pub block: u32,
    /// `nfree`: the number of block numbers in use in the link's array, as it is stored.
    pub count: u16,
    /// `free`: the numbers in use in the array, in order. The first is the number of the next chain block. If the count is above the array's length,
    /// all numbers of the array.
    pub numbers: Vec<u32>,
}

/// The chain of the free list, up to the list's first fault.
#[derive(Drop)]
pub struct ChainReport {
    /// The links; the first is the link in the super-block.
    pub links: Vec<FreeLink>,
    /// The number of blocks in the free list, up to its first fault.
    pub free_blocks: u32,
    /// The fault that ended the walk over the free list, if any, with the count or number at fault.
    pub fault: Option<(FreeFault, u32)>,
}

/// Returns the chain of the free list. The image must satisfy rules 1 and 2; otherwise it may have any bytes.
///
/// Reads the free list up to its first fault. Takes a byte for each block of the volume, and the memory of the links.
pub fn inspect_chain(
    alloc: Global,
    edition: Edition,
    image: &Image,
) -> Result<ChainReport, InspectFault>
    ensures { InspectsChain edition image.now result }
{
    let geometry = Geometry::read(edition, image).map_err(InspectFault::Unsound)?;
    Ok(chain(alloc, image, &geometry)?)
}

/// Returns the chain of the free list of an image with a geometry.
fn chain(alloc: Global, image: &Image, geometry: &Geometry) -> Result<ChainReport, AllocError>
    requires { Fits geometry.now image.now }
    ensures { IfOk result (IsChainReport geometry.now image.now) }
{
    let head = Super {
        edition: geometry.edition,
    }
    .free_head();
    let mut marks = vec![in alloc; false; geometry.zone_end as usize]?;
    let mut links = Vec::new(alloc);
    push_link(alloc, &mut links, image, geometry.edition, 1, head)?;
    let mut walk = FreeWalk::new(image, geometry);
    'walk: loop {
        let left = walk.count;
        match walk.next(image, geometry, &mut marks) {
            Some(Ok(b)) => push_met(alloc, &mut links, image, geometry, left, b)?,
            Some(Err(fault)) => {
                return Ok(ChainReport {
                    links,
                    free_blocks: walk.met,
                    fault: Some(fault),
                });
            }
            None => {
                return Ok(ChainReport {
                    links,
                    free_blocks: walk.met,
                    fault: None,
                });
            }
        }
    }
}

/// Appends the link in block `b`, if the walk took `b` as the last of the `left` numbers left in an array, and it is a data block.
fn push_met(
    alloc: Global,
    links: &mut Vec<FreeLink>,
    image: &Image,
    geometry: &Geometry,
    left: u16,
    b: u32,
) -> Result<(), AllocError>
    requires fits { Fits geometry.now image.now }
    requires zoned { in_zone geometry.now b ≡ true }
    ensures { OnOk result (map shown_link links.new.items ≡ map shown_link links.old.items ++ shown_from geometry.now image.now left b) }
{
    if left != 1 {
        return Ok(());
    }
    push_link(alloc, links, image, geometry.edition, b, BLOCK * b as usize)
}

/// Appends the link in a block whose count is at byte `head`.
fn push_link(
    alloc: Global,
    links: &mut Vec<FreeLink>,
    image: &Image,
    edition: Edition,
    block: u32,
    head: usize,
) -> Result<(), AllocError>
    requires room { head + 202 ≤ length image.now }
    requires held { head ≡ link_head edition block }
    ensures { OnOk result (map shown_link links.new.items ≡ map shown_link links.old.items ++ link_of edition image.now block ∷ []) }
{
    let numbers = link_numbers(alloc, image, edition, head)?;
    links.push(FreeLink {
        block,
        count: image.word(head),
        numbers,
    })?;
    Ok(())
}

/// Returns the numbers in use in the array after the count at byte `head`, in order.
pub(crate) fn link_numbers(
    alloc: Global,
    image: &Image,
    edition: Edition,
    head: usize,
) -> Result<Vec<u32>, AllocError>
    requires { head + 202 ≤ length image.now }
    ensures { IfOk result (λ numbers. numbers.items ≡ link_numbers edition image.now head) }
{
    image.fits_in_memory();
    let count = used(image.word(head), edition.constants().free_slots);
    let mut numbers = Vec::new(alloc);
    for k in 0..count {
        numbers.push(number(image, edition, head + 2, k as usize))?;
    }
    Ok(numbers)
}
