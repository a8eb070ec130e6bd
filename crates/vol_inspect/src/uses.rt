//! The use of each block of a volume.
ghost use Rattle.std.specs.Prelude.{◌≡◌, ◌+◌, ◌*◌, ◌<◌, length, map, IfOk, vec_len};
ghost use Rattle.std.specs.List.{range_with_len};
ghost use Rattle.vol_layout.specs.Geometry.{Fits};
ghost use Rattle.vol_inspect.specs.PlaceCounts.{CountsKind};
ghost use Rattle.vol_inspect.specs.Uses.{use_of, use_in, data_use, is_listed, named_in};

use crate::free_list::{Listed, listed_blocks};
use crate::place_counts::count_kind;
use pdp_words::Image;
use std::alloc::{AllocError, Global};
use vol_layout::{Geometry, Kind};

/// The use of a block.
#[derive(Clone, Copy)]
pub enum Use {
    /// Block 0, the boot block.
    Boot,
    /// Block 1, the super-block.
    SuperBlock,
    /// A block of the i-list.
    IList,
    /// A data block of a directory.
    Directory,
    /// A data block of a regular file.
    File,
    /// An indirect block of a file or directory.
    Pointer,
    /// A block in the free list.
    Free,
    /// A chain block of the free list, with the list's next count and array.
    Chain,
    /// A block that no block-map position points to and that isn't in the free list.
    Lost,
    /// A block that two block-map positions point to, or one if it is also in the free list.
    Twice,
    /// A block that couldn't be read. No block of an image has this use; it is for pictures of what is left of a volume.
    Unreadable,
    /// A block whose use isn't known, since blocks that couldn't be read may show it. It is for such pictures too.
    Unknown,
}

/// Returns the use of each block of a volume, from block 0 to the last, computed from the block maps of all files and from the free list up to its
/// first fault. The image may have any bytes otherwise.
///
/// Reads each indirect block at most twice for each level at which it occurs in directories, and twice for each level at which it occurs in regular
/// files, however they are linked. Takes about ten bytes for each block.
pub fn block_uses(alloc: Global, image: &Image, geometry: &Geometry) -> Result<Vec<Use>, AllocError>
    requires { Fits geometry.now image.now }
    ensures { IfOk result (λ uses. uses.items ≡ map (use_of geometry.now image.now) (range_with_len 0 geometry.now.zone_end)) }
{
    let directories = counts(alloc, image, geometry, Kind::Directory)?;
    let files = counts(alloc, image, geometry, Kind::Regular)?;
    let listed = listed_blocks(alloc, image, geometry)?;
    let mut uses = Vec::new(alloc);
    for b in 0..geometry.zone_end {
        uses.push(use_at(geometry, &directories, &files, &listed, b))?;
    }
    Ok(uses)
}

/// Returns the number of block-map positions of i-nodes of a kind that point to each block, by the levels of blocks below it, counted up to two.
pub(crate) fn counts(
    alloc: Global,
    image: &Image,
    geometry: &Geometry,
    kind: Kind,
) -> Result<Vec<u8>, AllocError>
    requires { Fits geometry.now image.now }
    ensures len { IfOk result (λ counts. vec_len counts ≡ 4 * geometry.now.zone_end) }
    ensures each { IfOk result (λ counts. CountsKind geometry.now image.now kind counts.items) }
{
    let mut counts = vec![in alloc; 0; 4 * geometry.zone_end as usize]?;
    count_kind(&mut counts, image, geometry, kind);
    Ok(counts)
}

/// Returns the use of block `b`, computed from the counts.
fn use_at(geometry: &Geometry, directories: &[u8], files: &[u8], listed: &[Listed], b: u32) -> Use
    requires directories { length directories.now ≡ 4 * geometry.now.zone_end }
    requires files { length files.now ≡ 4 * geometry.now.zone_end }
    requires listed { length listed.now ≡ geometry.now.zone_end }
    requires end { b < geometry.now.zone_end }
    ensures { result ≡ use_in geometry.now directories.now files.now listed.now b }
{
    if b == 0 {
        return Use::Boot;
    }
    if b == 1 {
        return Use::SuperBlock;
    }
    if b < geometry.zone_start {
        return Use::IList;
    }
    let at = 4 * b as usize;
    let named = named_in(directories, at) + named_in(files, at);
    data_use(named, listed[b as usize], directories[at], files[at])
}

/// Returns the number of block-map positions that point to a block, each level counted up to two.
pub(crate) fn named_in(counts: &[u8], at: usize) -> u64
    requires { at + 3 < length counts.now }
    ensures value { result ≡ named_in counts.now at }
    ensures bound { result < 2000 }
{
    u64::from(counts[at])
        + u64::from(counts[at + 1])
        + u64::from(counts[at + 2])
        + u64::from(counts[at + 3])
}

/// Returns the use of a data block to which `named` block-map positions point, including `directories` positions of directories and `files` positions
/// of regular files that point to it as data.
fn data_use(named: u64, listed: Listed, directories: u8, files: u8) -> Use
    ensures { result ≡ data_use named (is_listed listed) listed directories files }
{
    match listed {
        _ if named > 1 => Use::Twice,
        Listed::Plain | Listed::Linking if named == 1 => Use::Twice,
        Listed::Plain => Use::Free,
        Listed::Linking => Use::Chain,
        Listed::Absent if named == 0 => Use::Lost,
        Listed::Absent if directories == 1 => Use::Directory,
        Listed::Absent if files == 1 => Use::File,
        Listed::Absent => Use::Pointer,
    }
}
