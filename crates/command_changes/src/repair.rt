//! `repair` makes a sound copy of a damaged image, and returns the bytes to save, and the lines of all that differs.
ghost use Rattle.std.specs.Prelude.{◌⊎◌, IfErr, IfOk};
ghost use Rattle.vol_repair.specs.Longer.{IsLengthened};
ghost use Rattle.vol_repair.specs.declared.repaired_volume.RepairFault.TheVariants as repairs;
ghost use Rattle.command_changes.specs.Repair.{IsLongerReported, IsLongerUnrepaired, IsRepairReported, IsUnlengthened, IsUnrepaired, TellsRepair};

use crate::salvage::ReportedVolume;
use command_faults::Fault;
use command_terms::Repairing;
use pdp_words::Image;
use std::alloc::{AllocError, Global};
use vol_dir::Refusal;
use vol_layout::Edition;
use vol_repair::{LengthFault, RepairFault, lengthened, repair, text_of};

/// The line for an image that is kept as it is, since its copy isn't sound, or a file that fits would have changed.
pub const NOT_REPAIRED: &[u8] = b"unixvol: 112 NotRepaired\n";

/// Repairs an image, and reports all that differs in the copy, in lines. If the volume has fewer than `blocks` blocks, the image is made longer before, and
/// the lines tell what differs from that. The fault is `Bounds` if the edition has no volume of so many blocks; rule 1 or 2 if the image breaks that;
/// `NoSpace` if there is no room for a directory or an entry; the line [`NOT_REPAIRED`]; or out of memory.
///
/// Takes the memory of [`lengthened`] and [`vol_repair::repair`], and that of the lines twice.
pub fn repair_with_report(
    alloc: Global,
    edition: Edition,
    image: Vec<u8>,
    repairing: Repairing,
) -> Result<ReportedVolume, Fault>
    ensures repaired { IfOk result (λ made. IsRepairReported edition repairing.blocks image.items made.bytes.items made.report.items) }
    ensures fault { IfErr result (IsUnrepaired edition repairing.blocks image.items) }
{
    let old = longer_image(edition, image, repairing.blocks)?;
    repair_image(alloc, edition, &old, repairing.now)
}

/// Returns the image of a volume with at least `blocks` blocks, as [`lengthened`] does.
pub(crate) fn longer_image(edition: Edition, image: Vec<u8>, blocks: u32) -> Result<Image, Fault>
    ensures longer { IfOk result (IsLengthened edition blocks image.items) }
    ensures fault { IfErr result (IsUnlengthened edition blocks) }
{
    match lengthened(edition, image, blocks) {
        Ok(longer) => Ok(Image::from_bytes(longer)),
        Err(LengthFault::TooMany) => Err(Fault::Bounds),
        Err(LengthFault::NoMemory) => Err(Fault::Refused(Refusal::NoMemory)),
    }
}

/// Repairs an image as [`repair_with_report`] does, whose length stays.
pub(crate) fn repair_image(
    alloc: Global,
    edition: Edition,
    old: &Image,
    now: u32,
) -> Result<ReportedVolume, Fault>
    ensures repaired { IfOk result (λ made. IsLongerReported edition old.now made.bytes.items made.report.items) }
    ensures fault { IfErr result (IsLongerUnrepaired edition old.now) }
{
    match repair(alloc, edition, old, now) {
        Ok(repaired) => {
            let report = text_of(alloc, &repaired.lines)?;
            Ok(ReportedVolume {
                bytes: repaired.image.into_bytes(),
                report,
            })
        }
        Err(why) => Err(unrepaired(alloc, why)),
    }
}

/// Returns the fault of an image that isn't repaired for this reason, or out of memory if there is too little memory for its line.
fn unrepaired(alloc: Global, why: RepairFault) -> Fault
    ensures { TellsRepair why result ⊎ TellsRepair repairs.NoMemory result }
{
    match worded(alloc, why) {
        Ok(fault) => fault,
        Err(refused) => Fault::from(refused),
    }
}

/// Returns the fault of an image that isn't repaired for this reason.
fn worded(alloc: Global, why: RepairFault) -> Result<Fault, AllocError>
    ensures { IfOk result (TellsRepair why) }
{
    match why {
        RepairFault::Unsized(rule) => Ok(Fault::Unsound(rule)),
        RepairFault::NotRepaired => Ok(Fault::Worded {
            rule: None,
            lines: Vec::from_slice(alloc, NOT_REPAIRED)?,
        }),
        RepairFault::NoSpace => Ok(Fault::Refused(Refusal::NoSpace)),
        RepairFault::NoMemory => Ok(Fault::Refused(Refusal::NoMemory)),
    }
}
