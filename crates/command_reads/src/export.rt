//! The command that writes everything below a directory as an archive.
ghost use Rattle.std.specs.Prelude.{◌≡◌, ◌==◌, ℕ, Bool, List, Option, false, All, IfOk, if◌then◌else◌, length};
ghost use Rattle.vol_layout.specs.Geometry.{Fits};
ghost use Rattle.vol_dir.specs.Entries.{IsDirectory};
ghost use Rattle.command_faults.specs.Faults.{line_after};
ghost use Rattle.command_faults.specs.Streams.{still, streams};
ghost use Rattle.vol_inspect.specs.Lost.{IsInList};
ghost use Rattle.command_reads.specs.Remarks.{AreOutOfReach};
ghost use Rattle.command_reads.specs.Losses.{IsUnreadEnding};
ghost use Rattle.command_reads.specs.Export.{AreFound, begun, Exports, ExportsFrom, ExportsTo, ExportsBelow, TellsUnstarted, WritesBelow, told_status, unstarted, unstarted_status, unwritten};

use crate::faults::unmeasured;
use crate::losses::{is_graded, read_as, remarks_on, short_fault};
use crate::remarks::Remarks;
use crate::statuses::{NO_VOLUME, SHORT};
use crate::ways::way_lines;
use command_faults::status::{DONE, REFUSED};
use command_faults::{Ending, Fault};
use command_terms::ExportOptions;
use pdp_words::{Image, Sink};
use std::alloc::{AllocError, Global};
use vol_archive::{Rescue, WriteFault, lost_start_of, put_noted, rescue_below, walk};
use vol_dir::{DirectoryFault, FoundDirectory, Refusal, find_directory};
use vol_inspect::lost_inodes;
use vol_layout::{Edition, Geometry};
use vol_listing::Screen;
use vol_losses::{CutFault, CutImage};
use vol_rescue::{notes_on, without_damaged};

/// Writes an archive of everything below the directory at a path. As an option, the archive also has the i-nodes that no entry names and those that are
/// out of reach, as in a ring of directories, with everything below them, under `lost+found`; then the path may lead to a root that is no directory,
/// and the archive has only these, with the root's own bytes. The image must keep rules 1 and 2, and may be any bytes otherwise. The status is 0 for a
/// sound image whose entries are all in the archive; 1 if the image isn't sound, an entry is left out or the path leads to no directory. A graded
/// status is 5 instead if an entry or an i-node isn't exported, and 6 if the image breaks rule 1 or 2. It is 3 if `output` failed, 4 if memory ran out.
/// The fault has a line for each entry that is left out, with unprintable bytes escaped, for each i-node that no entry names or, as an option, is out
/// of reach, and for each other flaw of the image. An archive is never written to a terminal.
///
/// As another option, the image may be shorter than its volume. If blocks of it are lost, each file that isn't whole is left out, or is exported with
/// zeros in place of the lost bytes and a comment that names them; the fault then has the lines about what is lost, and no others, and the status is 5 if anything is damaged or left
/// out, else 1. If the path leads to no directory but something is lost on the way, nothing is exported, the lines are about that, and the status is 5. If
/// more than [`vol_losses::MOST_MISSING`] blocks are missing, the status is 6.
///
/// Costs the walk, [`vol_judge::judge`], for an unsound image [`lost_inodes`], and writing the bytes. All memory except for one header at a time is
/// taken before the first byte is written.
pub(crate) fn export<O: Sink>(
    alloc: Global,
    edition: Edition,
    image: Vec<u8>,
    path: &str,
    options: ExportOptions,
    screen: Screen,
    output: &mut O,
) -> Ending
    ensures { Exports edition image.items path.now options screen (streams O.contents O.failed output.old output.new result.fault) result.status }
{
    match read_as(alloc, edition, image, options.losses.cut) {
        Ok(read) => export_read(alloc, edition, &read, path, options, screen, output),
        Err(fault) => unread(alloc, fault),
    }
}

/// Returns the ending of an export whose image isn't completed for this reason.
pub(crate) fn unread(alloc: Global, fault: CutFault) -> Ending
    ensures { IsUnreadEnding fault result.status result.fault }
{
    let CutFault::TooShort { there, blocks } = fault else {
        return Ending::from(Fault::Refused(Refusal::NoMemory));
    };
    match short_fault(alloc, there, blocks) {
        Ok(fault) => Ending {
            status: NO_VOLUME,
            fault: Some(fault),
        },
        Err(_) => Ending::from(Fault::Refused(Refusal::NoMemory)),
    }
}

/// Writes the archive of everything below the directory at a path of an image that was read.
pub(crate) fn export_read<O: Sink>(
    alloc: Global,
    edition: Edition,
    read: &CutImage,
    path: &str,
    options: ExportOptions,
    screen: Screen,
    output: &mut O,
) -> Ending
    ensures { ExportsFrom edition read.now.image read.now.lost.items path.now options screen (streams O.contents O.failed output.old output.new result.fault) result.status
        (begun options.lost edition read.now.image path.now) }
{
    let image = &read.image;
    match begun(edition, image, path.as_bytes(), options.lost) {
        Ok(start) => export_to(
            alloc, edition, image, &read.lost, &start, options, screen, output,
        ),
        Err(why) => unstarted_ending(
            alloc,
            edition,
            image,
            &read.lost,
            path.as_bytes(),
            options,
            why,
        ),
    }
}

/// Returns the ending of an export whose path leads to no directory for this reason. If something is lost on the way, its lines are about that.
fn unstarted_ending(
    alloc: Global,
    edition: Edition,
    image: &Image,
    lost: &[bool],
    path: &[u8],
    options: ExportOptions,
    why: DirectoryFault,
) -> Ending
    ensures { (known : Option (List ℕ)) (failed : Bool)
        → TellsUnstarted edition image.now lost.now path.now options (still known failed result.fault) result.status why }
{
    match way_lines(alloc, edition, image, lost, path, why) {
        Ok(Some(lines)) => Ending {
            status: told_status(is_graded(options.graded, lost), true),
            fault: Some(Fault::Worded { rule: None, lines }),
        },
        Ok(None) => Ending {
            status: unstarted_status(options.graded, why),
            fault: Some(unstarted(why)),
        },
        Err(_) => Ending::from(Fault::Refused(Refusal::NoMemory)),
    }
}

/// Writes the archive of everything below a directory, unless the output is a terminal.
#[tactic(auto, using(crate::proofs::Printed::kept_same))]
fn export_to<O: Sink>(
    alloc: Global,
    edition: Edition,
    image: &Image,
    lost: &[bool],
    start: &FoundDirectory,
    options: ExportOptions,
    screen: Screen,
    output: &mut O,
) -> Ending
    requires fits { Fits start.now.geometry image.now }
    requires directory { options.lost ≡ false → IsDirectory start.now.geometry image.now start.now.inode }
    ensures { ExportsTo edition image.now lost.now start.now options (streams O.contents O.failed output.old output.new result.fault) result.status screen }
{
    match screen {
        Screen::Terminal { .. } => Ending::from(Fault::Output),
        Screen::Stream => export_below(alloc, edition, image, lost, start, options, output),
    }
}

/// Writes the archive of everything below a directory, and returns its remarks as a fault.
fn export_below<O: Sink>(
    alloc: Global,
    edition: Edition,
    image: &Image,
    lost: &[bool],
    start: &FoundDirectory,
    options: ExportOptions,
    output: &mut O,
) -> Ending
    requires fits { Fits start.now.geometry image.now }
    requires directory { options.lost ≡ false → IsDirectory start.now.geometry image.now start.now.inode }
    ensures { ExportsBelow edition image.now lost.now start.now options (streams O.contents O.failed output.old output.new result.fault) result.status }
{
    match write_below(alloc, edition, image, lost, start, options, output) {
        Ok(remarks) => ending_with(is_graded(options.graded, lost), remarks),
        Err(fault) => Ending::from(fault),
    }
}

/// Writes the archive of everything below a directory, without the damaged files or with notes on them, and returns the remarks on it.
fn write_below<O: Sink>(
    alloc: Global,
    edition: Edition,
    image: &Image,
    lost: &[bool],
    start: &FoundDirectory,
    options: ExportOptions,
    output: &mut O,
) -> Result<Remarks, Fault>
    requires fits { Fits start.now.geometry image.now }
    requires directory { options.lost ≡ false → IsDirectory start.now.geometry image.now start.now.inode }
    ensures { WritesBelow edition image.now lost.now start.now options (O.contents output.old) (O.contents output.new)
        (O.failed output.old) (O.failed output.new) result }
{
    let geometry = &start.geometry;
    let rescue = walk_all(alloc, image, geometry, start.inode, options.lost)?;
    let remarks = remarks_on(alloc, edition, image, lost, start, &rescue, options)?;
    let damaged = options.losses.damaged;
    let notes = notes_on(alloc, image, geometry, lost, damaged)?;
    let kept = without_damaged(alloc, image, geometry, lost, damaged, rescue.founds)?;
    match put_noted(alloc, image, geometry, &kept, &notes, output) {
        Ok(()) => Ok(remarks),
        Err(fault) => Err(unwritten(fault)),
    }
}

/// Returns the directory to which a path leads. With `lost`, returns the root even if it is no directory.
pub(crate) fn begun(
    edition: Edition,
    image: &Image,
    path: &[u8],
    lost: bool,
) -> Result<FoundDirectory, DirectoryFault>
    ensures exact { result ≡ begun lost edition image.now path.now }
    ensures fits { IfOk result (λ start. Fits start.geometry image.now) }
    ensures directory { lost ≡ false → IfOk result (λ start. IsDirectory start.geometry image.now start.inode) }
{
    if lost {
        lost_start_of(edition, image, path)
    } else {
        find_directory(edition, image, path)
    }
}

/// Returns everything below a directory. With `lost`, also returns the i-nodes that no entry names and those that are out of reach, with everything
/// below them; only these, if the start is no directory.
#[tactic(auto, using(crate::proofs::OutOfReach::in_list))]
pub(crate) fn walk_all(
    alloc: Global,
    image: &Image,
    geometry: &Geometry,
    start: u16,
    lost: bool,
) -> Result<Rescue, AllocError>
    requires fits { Fits geometry.now image.now }
    requires directory { lost ≡ false → IsDirectory geometry.now image.now start }
    ensures founds { IfOk result (λ rescue. AreFound lost geometry.now image.now start rescue.founds.items) }
    ensures unreached { IfOk result (λ rescue. AreOutOfReach lost geometry.now image.now rescue.unreached.items) }
    ensures numbers { IfOk result (λ rescue. All (IsInList geometry.now) rescue.unreached.items) }
{
    if lost {
        let orphans = lost_inodes(alloc, image, geometry)?;
        return rescue_below(alloc, image, geometry, start, &orphans);
    }
    Ok(Rescue {
        founds: walk(alloc, image, geometry, start)?,
        unreached: Vec::new(alloc),
    })
}

/// Returns the result of an export with some remarks or none.
pub(crate) fn ending_with(graded: bool, remarks: Remarks) -> Ending
    ensures status { result.status ≡ (if length remarks.lines.items == 0 then 0 else told_status graded remarks.is_short) }
    ensures line { line_after result.fault ≡ remarks.lines.items }
{
    let Remarks {
        rule,
        lines,
        is_short,
    } = remarks;
    if lines.is_empty() {
        return Ending {
            status: DONE,
            fault: None,
        };
    }
    Ending {
        status: told_status(graded, is_short),
        fault: Some(Fault::Worded { rule, lines }),
    }
}

/// Returns the status of an export with remarks. `is_short` is true if something isn't exported.
fn told_status(graded: bool, is_short: bool) -> u8
    ensures { result ≡ told_status graded is_short }
{
    if graded && is_short { SHORT } else { REFUSED }
}

/// Returns the status of an export that can't start for this reason.
fn unstarted_status(graded: bool, fault: DirectoryFault) -> u8
    ensures { result ≡ unstarted_status graded fault }
{
    match fault {
        DirectoryFault::Unsound(_) if graded => NO_VOLUME,
        _ => unstarted(fault).status(),
    }
}

/// Returns the fault of an export that can't start for this reason.
pub(crate) fn unstarted(fault: DirectoryFault) -> Fault
    ensures { result ≡ unstarted fault }
{
    match fault {
        DirectoryFault::Unsound(fault) => unmeasured(fault),
        DirectoryFault::Refused(refusal) => Fault::Refused(refusal),
    }
}

/// Returns the fault of an export that stopped for this reason.
pub(crate) fn unwritten(fault: WriteFault) -> Fault
    ensures { result ≡ unwritten fault }
{
    match fault {
        WriteFault::NoMemory => Fault::Refused(Refusal::NoMemory),
        WriteFault::Output => Fault::Output,
    }
}
