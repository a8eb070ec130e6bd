//! The edits that mend the copy of a damaged image. All that is proved of them is that the copy still has all blocks of the volume: it is judged, and
//! compared with the image, afterwards.
ghost use Rattle.std.specs.Prelude.{◌≡◌, ◌+◌, ◌≤◌, length};
ghost use Rattle.vol_layout.specs.Geometry.{Fits};

mod blocks;
mod entries;
mod nodes;
mod orphans;
mod tree;

use crate::claims::find_claims;
use blocks::mend_blocks;
use entries::mend_directories;
use nodes::mend_nodes;
use pdp_words::Image;
use std::alloc::{AllocError, Global};
use tree::mend_tree;
use vol_free::rebuild;
use vol_judge::find_entered;
use vol_layout::i_list::kind;
use vol_layout::{Geometry, Inode, Kind, inode, put_inode};

/// The last of the rules about i-nodes and blocks; those after it are about directories.
const LAST_OF_BLOCKS: u8 = 8;

/// Why an image can't be mended.
#[derive(Clone, Copy)]
pub(crate) enum EditFault {
    /// There is no free block or i-node for a directory, or no room in its block map.
    NoSpace,
    /// Memory ran out.
    NoMemory,
}

impl From<AllocError> for EditFault {
    fn from(_: AllocError) -> EditFault {
        EditFault::NoMemory
    }
}

/// Mends an image whose least broken rule is `rule`. New i-nodes get the time `now`, in seconds.
///
/// The edits, in this order: odd i-nodes are cleared, sizes cut to the limit, and a root that is no directory is made one; block numbers that can't stay
/// are cleared, or their blocks copied; entries that no directory may have are removed; each directory keeps one entry; orphans get a name in
/// `/lost+found`; `.` and `..` are set; the free list is rebuilt; and link counts are set.
pub(crate) fn mend(
    alloc: Global,
    image: &mut Image,
    geometry: &Geometry,
    rule: u8,
    now: u32,
) -> Result<(), EditFault>
    requires { Fits geometry.now image.old }
    ensures { Fits geometry.now image.new }
{
    mend_nodes(image, geometry, now);
    let mut claims = find_claims(alloc, image, geometry)?;
    mend_blocks(image, geometry, &claims.clashes, &mut claims.used);
    mend_directories(alloc, image, geometry)?;
    let taken = mend_tree(alloc, image, geometry, &mut claims.used, now)?;
    if taken || rule <= LAST_OF_BLOCKS {
        rebuild(image, geometry, &claims.used);
    }
    set_links(alloc, image, geometry)?;
    Ok(())
}

/// Sets the link count of each i-node to the number of its entries.
fn set_links(alloc: Global, image: &mut Image, geometry: &Geometry) -> Result<(), AllocError>
    requires { Fits geometry.now image.old }
    ensures { Fits geometry.now image.new }
{
    let ups = vec![in alloc; None; geometry.last_inode as usize + 1]?;
    let entered = find_entered(alloc, image, geometry, &ups)?;
    put_counts(image, geometry, &entered.counts);
    Ok(())
}

/// Sets the link count of each i-node to the count for its i-number.
fn put_counts(image: &mut Image, geometry: &Geometry, counts: &[u64])
    requires fits { Fits geometry.now image.old }
    requires room { length counts.now ≡ geometry.now.last_inode + 1 }
    ensures { Fits geometry.now image.new }
{
    for before in 0..geometry.last_inode {
        let i = before + 1;
        put_links(image, geometry, i, counts[i as usize]);
    }
}

/// Sets the link count of i-node `i`, unless it is free, or the edition can't have so many links.
fn put_links(image: &mut Image, geometry: &Geometry, i: u16, links: u64)
    requires fits { Fits geometry.now image.old }
    requires first { 1 ≤ i }
    requires last { i ≤ geometry.now.last_inode }
    ensures { Fits geometry.now image.new }
{
    let node = inode(image, geometry, i);
    if links > u64::from(geometry.edition.constants().link_limit) {
        return;
    }
    let links = links as u16;
    if node.links != links && kind(image, geometry, i) != Kind::Free {
        let linked = Inode { links, ..node };
        put_inode(image, geometry, i, &linked);
    }
}
