//! Finds the volumes that are in the way of one that grows inside a pack.
ghost use Rattle.std.specs.Prelude.{◌≡◌, IfOk, List};
ghost use Rattle.std.specs.List.{find};
ghost use Rattle.vol_identify.specs.Packs.{IsScanned};
ghost use Rattle.vol_identify.specs.declared.pack_scan.Part.{Part};
ghost use Rattle.pack_files.specs.PackFiles.{blocks_in};
ghost use Rattle.pack_files.specs.OtherVolumes.{FindsOther, is_in_way};

use crate::judged_packs::{PackFault, blocks_in, scanned_parts};
use host_files::{ImageFiles, noted_reader, open_sized};
use std::alloc::Global;
use std::io::Read;
use vol_identify::Part;

/// The growth of a volume in a pack.
#[derive(Clone, Copy)]
pub struct Growth {
    /// The block that the volume begins at.
    pub at: u32,
    /// The number of blocks that it has.
    pub had: u32,
    /// The number of blocks that it gets.
    pub gets: u32,
}

/// Returns the first other volume of the pack in a file that has one of the blocks which a volume would get. The file is a regular one, or a device,
/// of which all blocks up to its end are read.
///
/// Reads the file to its end. A scan keeps less than 66 KiB.
pub fn other_volume<R: ImageFiles + AllocGlobal>(
    rt: &R,
    path: &str,
    growth: Growth,
) -> Result<Option<Part>, PackFault>
    ensures { IfOk result (FindsOther R.File.remaining R.had growth) }
{
    match open_sized(rt, path) {
        Ok((file, stamp)) => find_in_way(rt.alloc(), file, blocks_in(stamp.size), growth),
        Err(why) => Err(PackFault::Unread(Some(why))),
    }
}

/// Returns the first volume in the way of a growth, of the pack of `blocks` blocks in an open file.
fn find_in_way<F: Read + Drop>(
    alloc: Global,
    file: F,
    blocks: u32,
    growth: Growth,
) -> Result<Option<Part>, PackFault>
    ensures { IfOk result (λ found. (new : F) × (parts : List Part) × IsScanned blocks (F.remaining file) (F.remaining new) parts
        × (found ≡ find (is_in_way growth) parts)) }
{
    let mut source = noted_reader(file);
    match scanned_parts(alloc, &mut source, blocks)? {
        Some(parts) => Ok(first_in_way(&parts, growth)),
        None => Err(PackFault::Short),
    }
}

/// Returns the first volume in the way of a growth.
fn first_in_way(parts: &[Part], growth: Growth) -> Option<Part>
    ensures { result ≡ find (is_in_way growth) parts.now }
{
    parts.iter().copied().find(|part| is_in_way(growth, *part))
}

/// True if a part of a pack is another volume than the one that grows, and has one of the blocks that this gets.
fn is_in_way(growth: Growth, part: Part) -> bool
    ensures { result ≡ is_in_way growth part }
{
    match part {
        Part::Volume { block, volume } => {
            let end = u64::from(block) + u64::from(volume.blocks);
            let at = u64::from(growth.at);
            block != growth.at
                && u64::from(block) < at + u64::from(growth.gets)
                && at + u64::from(growth.had) < end
        }
        Part::Between { .. } => false,
    }
}
