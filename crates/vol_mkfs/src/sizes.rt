//! The sizes of new volumes.
ghost use Rattle.std.specs.Prelude.{◌≡◌, true};
ghost use Rattle.vol_mkfs.specs.Mkfs.{is_size, volume_of, IsMakeable};

use vol_layout::{Edition, Geometry};

/// Returns the geometry of a volume with `blocks` blocks, of which `list_blocks` are the i-list.
pub(crate) fn volume_of(edition: Edition, blocks: u32, list_blocks: u16) -> Geometry
    requires { is_size edition blocks list_blocks ≡ true }
    ensures value { result ≡ volume_of edition blocks list_blocks }
    ensures makeable { IsMakeable result }
{
    Geometry {
        edition,
        zone_start: u32::from(list_blocks) + 2,
        zone_end: blocks,
        last_inode: edition.constants().inodes_per_block * list_blocks,
    }
}

/// True if a volume can have `blocks` blocks, of which `list_blocks` are the i-list.
pub(crate) fn is_size(edition: Edition, blocks: u32, list_blocks: u16) -> bool
    ensures { result ≡ is_size edition blocks list_blocks }
{
    let limits = edition.constants();
    1 <= list_blocks
        && list_blocks <= limits.list_block_limit
        && u32::from(list_blocks) + 2 < blocks
        && blocks <= limits.block_limit
}
