//! Exports of images with lost blocks: how such an image is read, and the remarks.
ghost use Rattle.std.specs.Prelude.{◌≡◌, true, All, IfErr, IfOk, string_bytes};
ghost use Rattle.vol_layout.specs.Geometry.{Fits};
ghost use Rattle.vol_inspect.specs.Lost.{IsInList};
ghost use Rattle.vol_losses.specs.CutImages.{IsIncomplete};
ghost use Rattle.vol_rescue.specs.Lines.{TellsLosses};
ghost use Rattle.command_faults.specs.Faults.{fault_line};
ghost use Rattle.command_reads.specs.Losses.{IsReadAs, TellsExport, is_graded, short_line};
ghost use Rattle.command_reads.specs.Remarks.{AreOutOfReach};

use crate::remarks::{Remarks, tell_all};
use command_faults::Fault;
use command_terms::ExportOptions;
use pdp_words::Image;
use std::alloc::{AllocError, Global};
use vol_archive::{MetEntry, Rescue};
use vol_dir::FoundDirectory;
use vol_layout::Edition;
use vol_losses::{CutFault, CutImage, completed};
use vol_rescue::tell_losses;

/// Returns the image that these bytes are read as, and its lost blocks. With `cut`, an image that was cut off is completed with zeros; else the bytes
/// are the image, and no block is lost.
///
/// Takes memory as [`completed`] does.
pub(crate) fn read_as(
    alloc: Global,
    edition: Edition,
    bytes: Vec<u8>,
    cut: bool,
) -> Result<CutImage, CutFault>
    ensures read { IfOk result (λ read. IsReadAs cut edition bytes.items read.image read.lost.items) }
    ensures fault { IfErr result (λ fault. (cut ≡ true) × IsIncomplete edition bytes.items fault) }
{
    if cut {
        return completed(alloc, edition, bytes);
    }
    Ok(CutImage {
        image: Image::from_bytes(bytes),
        lost: Vec::new(alloc),
    })
}

/// Returns the fault of an image that has only these first blocks of those that its super-block states.
pub(crate) fn short_fault(alloc: Global, there: usize, blocks: u32) -> Result<Fault, AllocError>
    ensures { IfOk result (λ fault. fault_line fault ≡ short_line there blocks) }
{
    let line = short_line(alloc, there, blocks)?;
    Ok(Fault::Worded {
        rule: None,
        lines: line.into_bytes(),
    })
}

/// Returns the line of an image that has only these first blocks of those that its super-block states.
#[tactic(auto, unfolding(crate::specs::Losses::short_line))]
fn short_line(alloc: Global, there: usize, blocks: u32) -> Result<String, AllocError>
    ensures { IfOk result (λ line. string_bytes line ≡ short_line there blocks) }
{
    format!(in alloc; "unixvol: the image has {there} of {blocks} blocks\n")
}

/// Returns all remarks on an export: what is lost, if there are lost blocks, else what is wrong with the volume.
///
/// Costs [`tell_losses`] or [`tell_all`].
pub(crate) fn remarks_on(
    alloc: Global,
    edition: Edition,
    image: &Image,
    lost: &[bool],
    start: &FoundDirectory,
    rescue: &Rescue,
    options: ExportOptions,
) -> Result<Remarks, AllocError>
    requires fits { Fits start.now.geometry image.now }
    requires unreached { AreOutOfReach options.lost start.now.geometry image.now rescue.now.unreached.items }
    requires numbers { All (IsInList start.now.geometry) rescue.now.unreached.items }
    ensures { IfOk result (λ remarks. TellsExport edition image.now lost.now start.now rescue.now.founds.items options remarks.lines.items remarks.is_short) }
{
    let geometry = &start.geometry;
    if lost.is_empty() {
        return tell_all(alloc, edition, image, geometry, rescue, options);
    }
    losses_on(alloc, image, lost, start, &rescue.founds)
}

/// Returns the remarks on what is lost of the entries below a directory.
///
/// Costs [`tell_losses`].
pub(crate) fn losses_on(
    alloc: Global,
    image: &Image,
    lost: &[bool],
    start: &FoundDirectory,
    founds: &[MetEntry],
) -> Result<Remarks, AllocError>
    requires { Fits start.now.geometry image.now }
    ensures { IfOk result (λ remarks. TellsLosses start.now.geometry image.now lost.now start.now.inode founds.now remarks.lines.items remarks.is_short) }
{
    let told = tell_losses(alloc, image, &start.geometry, lost, start.inode, founds)?;
    Ok(Remarks {
        rule: None,
        lines: told.lines,
        is_short: told.is_short,
    })
}

/// True if the status of an export says that something isn't exported: it is graded, or there are lost blocks.
pub(crate) fn is_graded(graded: bool, lost: &[bool]) -> bool
    ensures { result ≡ is_graded graded lost.now }
{
    graded || !lost.is_empty()
}
