//! `repair` of an image of which some blocks are lost: the bytes to save, and the lines of all that differs and of all that is lost.
ghost use Rattle.std.specs.Prelude.{◌≡◌, ◌++◌, IfErr, IfOk, length};
ghost use Rattle.vol_layout.specs.Geometry.{Fits, geometry_of};
ghost use Rattle.vol_judge.specs.Sound.{IsSound};
ghost use Rattle.command_faults.specs.Faults.{line_after};
ghost use Rattle.command_changes.specs.Repair.{IsLongerUnrepaired, IsUnrepaired};
ghost use Rattle.command_changes.specs.RepairLosses.{IsLostReported, IsRescueReported, TellsLost, losses_status};

use crate::repair::{longer_image, repair_image};
use crate::salvage::ReportedVolume;
use command_faults::status::DONE;
use command_faults::{Ending, Fault};
use command_terms::Repairing;
use pdp_words::Image;
use std::alloc::{AllocError, Global};
use vol_layout::{Edition, Geometry};
use vol_losses::CutImage;
use vol_rescue::tell_repaired;

/// The copy is sound, but blocks are lost.
const LOST: u8 = 5;

/// A repaired volume to save, with a report, and the lines about what is lost.
#[derive(Drop)]
pub struct RescuedVolume {
    /// The volume, and the lines of what differs from the image that was read.
    pub made: ReportedVolume,
    /// The lines about what is lost; none if no block is.
    pub losses: Vec<u8>,
}

/// Repairs an image of which some blocks are lost, as [`repair_with_report`](crate::repair::repair_with_report) does, and names what is lost, by the paths in
/// the copy. The lost blocks have zeros in the image. If the volume has fewer than `blocks` blocks, those that are appended aren't lost.
///
/// A file that fits and of which nothing is lost is right in the copy, whatever the lost blocks held: that is the law
/// [`rescued_files_are_right`](crate::laws::rescued_files_are_right).
pub fn repair_rescued(
    alloc: Global,
    edition: Edition,
    read: CutImage,
    repairing: Repairing,
) -> Result<RescuedVolume, Fault>
    ensures repaired { IfOk result (λ done. IsRescueReported edition repairing.blocks read.image read.lost.items done.made.bytes.items done.made.report.items
        done.losses.items) }
    ensures fault { IfErr result (IsUnrepaired edition repairing.blocks read.image) }
{
    let CutImage { image, lost } = read;
    let old = longer_image(edition, image.into_bytes(), repairing.blocks)?;
    repair_lost(alloc, edition, &old, &lost, repairing.now)
}

/// Repairs an image as [`repair_rescued`] does, whose length stays.
fn repair_lost(
    alloc: Global,
    edition: Edition,
    old: &Image,
    lost: &[bool],
    now: u32,
) -> Result<RescuedVolume, Fault>
    ensures repaired { IfOk result (λ done. IsLostReported edition old.now lost.now done.made.bytes.items done.made.report.items done.losses.items) }
    ensures fault { IfErr result (IsLongerUnrepaired edition old.now) }
{
    let made = repair_image(alloc, edition, old, now)?;
    let ReportedVolume { bytes, report } = made;
    let new = Image::from_bytes(bytes);
    let losses = lost_lines(alloc, edition, old, &new, lost)?;
    let bytes = new.into_bytes();
    Ok(RescuedVolume {
        made: ReportedVolume { bytes, report },
        losses,
    })
}

/// Returns the lines about what is lost of an image that was repaired to a copy; none if no block is lost.
fn lost_lines(
    alloc: Global,
    edition: Edition,
    old: &Image,
    new: &Image,
    lost: &[bool],
) -> Result<Vec<u8>, AllocError>
    requires sound { IsSound edition new.now }
    requires same { length new.now ≡ length old.now }
    ensures { IfOk result (λ lines. TellsLost edition old.now new.now lines.items lost.now) }
{
    if lost.is_empty() {
        return Ok(Vec::new(alloc));
    }
    match Geometry::read(edition, new) {
        Ok(geometry) => {
            let root = edition.constants().root;
            let lines = tell_repaired(alloc, old, new, &geometry, lost, root)?;
            Ok(lines)
        }
        Err(_) => unreachable!(),
    }
}

/// Returns the ending of a repair with these lines about what is lost. Its status is 5 if there are any, else 0.
pub fn ending_with(losses: Vec<u8>) -> Ending
    ensures status { result.status ≡ losses_status losses.items }
    ensures line { line_after result.fault ≡ losses.items }
{
    if losses.is_empty() {
        return Ending {
            status: DONE,
            fault: None,
        };
    }
    Ending {
        status: LOST,
        fault: Some(Fault::Worded {
            rule: None,
            lines: losses,
        }),
    }
}

/// Returns the ending of a repair with these lines about what is lost, and its report before them.
pub fn ending_with_report(report: Vec<u8>, losses: &[u8]) -> Result<Ending, AllocError>
    ensures status { IfOk result (λ ending. ending.status ≡ losses_status losses.now) }
    ensures line { IfOk result (λ ending. line_after ending.fault ≡ report.items ++ losses.now) }
{
    let status = if losses.is_empty() { DONE } else { LOST };
    let mut lines = report;
    lines.extend_from_slice(losses)?;
    Ok(Ending {
        status,
        fault: Some(Fault::Worded { rule: None, lines }),
    })
}
