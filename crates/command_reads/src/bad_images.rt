//! The image of which some blocks couldn't be read, as a map of GNU ddrescue or a list says, and its lost blocks.
ghost use Rattle.std.specs.Prelude.{◌≡◌, ℕ, Bool, List, Option, IfErr, IfOk};
ghost use Rattle.command_faults.specs.Streams.{still};
ghost use Rattle.command_reads.specs.BadImages.{IsBadRescued, TellsBadUnread};
ghost use Rattle.command_reads.specs.BadLooks.{IsSizedRescue, TellsUnrescued, is_unsized};

use crate::bad_looks::{BadBlocks, misread, unrescued, unsized_ending};
use bad_maps::{ReadRange, read_map};
use command_faults::Ending;
use std::alloc::Global;
use vol_layout::Edition;
use vol_losses::{CutImage, VolumeSizes, is_lost, rescued};

/// Returns the image of a volume of which only some blocks were read, and its lost blocks: a block of which a byte wasn't read is lost, whatever the bytes
/// have in its place. If `sizes` are given, the super-block is lost too, and states these sizes. The error is the ending of a command that has no image
/// then: its status is 2 if no volume of the edition has the sizes, 3 if the map can't be read, 4 if memory ran out, and 6 if too many blocks are missing,
/// or the super-block is lost and no sizes are given.
///
/// Costs the map, and what [`rescued`] costs.
pub fn rescue_image(
    alloc: Global,
    edition: Edition,
    bytes: Vec<u8>,
    bad: BadBlocks<'_>,
    sizes: Option<VolumeSizes>,
) -> Result<CutImage, Ending>
    ensures read { IfOk result (λ read. IsBadRescued edition bytes.items sizes read.image read.lost.items bad.entry) }
    ensures fault { IfErr result (λ ending. (known : Option (List ℕ)) (failed : Bool)
        → TellsBadUnread edition bytes.items sizes (still known failed ending.fault) ending.status bad.entry) }
{
    let map = match bad {
        BadBlocks::Outside(ranges) => {
            return rescue_from(alloc, edition, bytes, &ranges, 0, sizes);
        }
        BadBlocks::Map(map) => map,
    };
    match read_map(alloc, &map.text) {
        Ok(ranges) => rescue_from(alloc, edition, bytes, &ranges, map.at, sizes),
        Err(fault) => Err(misread(alloc, map.name, fault)),
    }
}

/// Returns the image of a volume, which begins at block `at` of a file, of which only the bytes in the ranges of that file were read.
fn rescue_from(
    alloc: Global,
    edition: Edition,
    bytes: Vec<u8>,
    ranges: &[ReadRange],
    at: u32,
    sizes: Option<VolumeSizes>,
) -> Result<CutImage, Ending>
    ensures read { IfOk result (λ read. IsSizedRescue edition ranges.now at sizes bytes.items read.image read.lost.items) }
    ensures fault { IfErr result (λ ending. (known : Option (List ℕ)) (failed : Bool)
        → TellsUnrescued edition ranges.now at sizes bytes.items (still known failed ending.fault) ending.status) }
{
    match rescued(alloc, edition, bytes, ranges, at, sizes) {
        Ok(read) if is_unsized(sizes, &read.lost) => Err(unsized_ending(alloc)),
        Ok(read) => Ok(read),
        Err(fault) => Err(unrescued(alloc, fault)),
    }
}

/// True if the super-block is lost and no sizes are given, so that nothing says how large the volume and its i-list are.
fn is_unsized(sizes: Option<VolumeSizes>, lost: &[bool]) -> bool
    ensures { result ≡ is_unsized sizes lost.now }
{
    sizes.is_none() && is_lost(lost, 1)
}
