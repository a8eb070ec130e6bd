//! The blocks that belong to files more than once.
ghost use Rattle.std.specs.Prelude.{◌≡◌, ◌+◌, ◌*◌, ◌<◌, length, IfOk};
ghost use Rattle.vol_layout.specs.Geometry.{Fits};
ghost use Rattle.vol_inspect.specs.SharedBlocks.{is_counted_twice, shared_blocks};

use crate::uses::{counts, named_in};
use pdp_words::Image;
use std::alloc::{AllocError, Global};
use vol_layout::{Geometry, Kind};

/// Returns the data blocks to which at least two block-map positions of regular files and directories point, for data or as an indirect block, in
/// ascending order. The image may have any bytes otherwise.
///
/// Reads each indirect block at most twice for each level at which it occurs in directories, and twice for each level at which it occurs in regular
/// files, however they are linked. Takes eight bytes for each block, and four for each that is found.
pub fn shared_blocks(
    alloc: Global,
    image: &Image,
    geometry: &Geometry,
) -> Result<Vec<u32>, AllocError>
    requires { Fits geometry.now image.now }
    ensures { IfOk result (λ blocks. blocks.items ≡ shared_blocks geometry.now image.now) }
{
    let directories = counts(alloc, image, geometry, Kind::Directory)?;
    let files = counts(alloc, image, geometry, Kind::Regular)?;
    let mut shared = Vec::new(alloc);
    for b in geometry.zone_start..geometry.zone_end {
        if is_counted_twice(&directories, &files, b) {
            shared.push(b)?;
        }
    }
    Ok(shared)
}

/// True if block `b` was counted at least twice.
fn is_counted_twice(directories: &[u8], files: &[u8], b: u32) -> bool
    requires directories { 4 * b + 3 < length directories.now }
    requires files { 4 * b + 3 < length files.now }
    ensures { result ≡ is_counted_twice directories.now files.now b }
{
    let at = 4 * b as usize;
    named_in(directories, at) + named_in(files, at) > 1
}
