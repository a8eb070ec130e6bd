//! The reasons not to migrate a volume.
ghost use Rattle.std.specs.Prelude.{◌≡◌, ◌≤◌};
ghost use Rattle.vol_layout.specs.Geometry.{Fits};
ghost use Rattle.vol_dir.specs.Tree.{tree};
ghost use Rattle.vol_mkfs.specs.Mkfs.{is_size};
ghost use Rattle.vol_migrate.specs.Refuse.{has_refused, is_refused_at, has_above, is_node_at};

use crate::devices::Devices;
use pdp_words::Image;
use vol_layout::i_list::kind;
use vol_layout::{Edition, Geometry, Kind, inode};

/// True if a volume of the seventh edition can have this number of blocks and of i-list blocks.
pub(crate) fn is_size(blocks: u32, list_blocks: u16) -> bool
    ensures { result ≡ is_size Edition.V7 blocks list_blocks }
{
    let limits = Edition::V7.constants();
    1 <= list_blocks
        && list_blocks <= limits.list_block_limit
        && u32::from(list_blocks) + 2 < blocks
        && blocks <= limits.block_limit
}

/// True if a volume has a special file that isn't kept.
pub(crate) fn has_refused(image: &Image, geometry: &Geometry, devices: Devices) -> bool
    requires { Fits geometry.now image.now }
    ensures { result ≡ has_refused devices (tree geometry.now image.now) }
{
    for i in 1..=geometry.last_inode {
        if is_refused(image, geometry, i, devices) {
            return true;
        }
    }
    false
}

/// True if i-node `i` is a special file that isn't kept.
fn is_refused(image: &Image, geometry: &Geometry, i: u16, devices: Devices) -> bool
    requires fits { Fits geometry.now image.now }
    requires first { 1 ≤ i }
    requires last { i ≤ geometry.now.last_inode }
    ensures { result ≡ is_refused_at devices (tree geometry.now image.now) i }
{
    match kind(image, geometry, i) {
        Kind::Special => !devices.keep(&inode(image, geometry, i)),
        Kind::Free => false,
        Kind::Regular => false,
        Kind::Directory => false,
        Kind::Odd => false,
    }
}

/// True if the i-number of a node, plus one, is above `last`.
pub(crate) fn has_above(image: &Image, geometry: &Geometry, last: u16) -> bool
    requires { Fits geometry.now image.now }
    ensures { result ≡ has_above (tree geometry.now image.now) last }
{
    for i in 1..=geometry.last_inode {
        if last <= i && is_node(image, geometry, i) {
            return true;
        }
    }
    false
}

/// True if i-node `i` is a node of the tree.
fn is_node(image: &Image, geometry: &Geometry, i: u16) -> bool
    requires fits { Fits geometry.now image.now }
    requires first { 1 ≤ i }
    requires last { i ≤ geometry.now.last_inode }
    ensures { result ≡ is_node_at (tree geometry.now image.now) i }
{
    match kind(image, geometry, i) {
        Kind::Free => false,
        Kind::Odd => false,
        Kind::Regular => true,
        Kind::Directory => true,
        Kind::Special => true,
    }
}
