//! An i-node and its blocks.
ghost use Rattle.std.specs.Prelude.{◌≡◌, ◌≤◌, OnOk, IfOk, IfErr, take};
ghost use Rattle.vol_layout.specs.Geometry.{Fits};
ghost use Rattle.vol_inspect.specs.Inspect.{InspectsInode, node_in, IsImagesFault};

use crate::extent::Extent;
use crate::extents::extents;
use crate::fault::InspectFault;
use pdp_words::Image;
use std::alloc::Global;
use vol_layout::{Edition, Geometry, Inode, inode};

/// An i-node and its blocks.
#[derive(Drop)]
pub struct InodeReport {
    /// The volume's edition.
    pub edition: Edition,
    /// The i-number.
    pub number: u16,
    /// The fields.
    pub node: Inode,
    /// The blocks in the i-node's block map, in its order; each indirect block comes before the blocks below it. Empty for an i-node that isn't a
    /// regular file or directory.
    pub extents: Vec<Extent>,
}

impl InodeReport {
    ghost use Rattle.vol_layout.specs.Inode.{address_count};

    /// Returns the addresses that an i-node of the edition has.
    pub fn addresses(&self) -> &[u32]
        ensures { result.now ≡ take (address_count self.now.edition) self.now.node.addresses }
    {
        match self.edition {
            Edition::V6 => &self.node.addresses[..8],
            Edition::V7 => &self.node.addresses[..13],
        }
    }
}

/// Returns the report on i-node `number`. The image must satisfy rules 1 and 2; otherwise it may have any bytes. A free i-node is shown too.
///
/// Reads each number in the i-node's block map, even past the file's size. Takes memory for the extents.
pub fn inspect_inode(
    alloc: Global,
    edition: Edition,
    image: &Image,
    number: u16,
) -> Result<InodeReport, InspectFault>
    ensures { InspectsInode edition image.now number result }
{
    let geometry = open(edition, image, number)?;
    let node = inode(image, &geometry, number);
    let extents = extents(alloc, image, &geometry, number)?;
    Ok(InodeReport {
        edition: geometry.edition,
        number,
        node,
        extents,
    })
}

/// Returns the geometry of an image, or the reason why i-node `number` can't be shown.
#[tactic(auto, unfolding(crate::specs::Inspect::node_in))]
fn open(edition: Edition, image: &Image, number: u16) -> Result<Geometry, InspectFault>
    ensures exact { result ≡ node_in edition image.now number }
    ensures cause { IfErr result IsImagesFault }
    ensures fits { IfOk result (λ geometry. Fits geometry image.now) }
    ensures first { OnOk result (1 ≤ number) }
    ensures last { IfOk result (λ geometry. number ≤ geometry.last_inode) }
{
    let geometry = Geometry::read(edition, image).map_err(InspectFault::Unsound)?;
    if number == 0 || number > geometry.last_inode {
        return Err(InspectFault::NoEntry);
    }
    Ok(geometry)
}
