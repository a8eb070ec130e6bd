//! Looks at an image with lost blocks whose path leads to no directory.
ghost use Rattle.std.specs.Prelude.{◌≡◌, Bool, Err, IfErr, IfOk};
ghost use Rattle.command_faults.specs.Faults.{line_after};
ghost use Rattle.command_reads.specs.Export.{begun};
ghost use Rattle.command_reads.specs.Unreached.{IsUnreached, IsUnreachedFault};

use crate::export::unstarted;
use crate::print::Shown;
use crate::statuses::SHORT;
use crate::ways::way_lines;
use command_faults::{Ending, Fault};
use pdp_words::Image;
use std::alloc::Global;
use vol_dir::DirectoryFault;
use vol_layout::Edition;

/// Returns what a look shows whose path leads to no directory for this reason: if something is lost on the way, no text, with the lines about that and
/// status 5; else the fault.
///
/// Costs [`way_lines`].
pub(crate) fn unreached(
    alloc: Global,
    edition: Edition,
    image: &Image,
    lost: &[bool],
    path: &[u8],
    why: DirectoryFault,
) -> Result<Shown, Fault>
    ensures shown { (orphans : Bool) → begun orphans edition image.now path.now ≡ Err why
        → IfOk result (λ shown. IsUnreached orphans edition image.now lost.now path.now shown.text.items shown.ending.status (line_after shown.ending.fault)) }
    ensures fault { (orphans : Bool) → begun orphans edition image.now path.now ≡ Err why
        → IfErr result (λ fault. IsUnreachedFault orphans edition image.now lost.now path.now fault) }
{
    match way_lines(alloc, edition, image, lost, path, why)? {
        Some(lines) => Ok(Shown {
            text: Vec::new(alloc),
            ending: Ending {
                status: SHORT,
                fault: Some(Fault::Worded { rule: None, lines }),
            },
        }),
        None => Err(unstarted(why)),
    }
}
