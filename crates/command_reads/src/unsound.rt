//! `ls --unsound` and `get --unsound`: show what is there in an image that need not be sound.
ghost use Rattle.std.specs.Prelude.{◌≡◌, ◌≤◌, IfErr, IfOk, OnOk};
ghost use Rattle.vol_layout.specs.Geometry.{Fits};
ghost use Rattle.command_faults.specs.Streams.{streams};
ghost use Rattle.command_reads.specs.Print.{IsSight, Shows, telling};
ghost use Rattle.command_reads.specs.Unsound.{IsFileAt, IsUnfound, IsUnshown, IsUnsoundFile, IsUnsoundListing, TellsRule, listable, readable};

use crate::cat::{open, show};
use crate::export::ending_with;
use crate::node::{NodeFault, number_of};
use crate::print::Shown;
use crate::remarks::Remarks;
use command_faults::{Ending, Fault};
use command_terms::NodeName;
use pdp_words::{Image, Sink};
use std::alloc::{AllocError, Global};
use vol_archive::is_directory;
use vol_dir::Refusal;
use vol_judge::judge;
use vol_layout::{Edition, Geometry};
use vol_listing::{ListOptions, Screen};

/// Returns the listing of the file or directory at a path, as [`list_image`](crate::ls::list_image) does, of an image that must keep rules 1 and 2, and
/// may be any bytes otherwise. The status is 0 if the image is sound, else 1, with the line of the first rule that it breaks. Fails if the image breaks
/// rule 1 or 2, the path leads nowhere, a bare listing's path leads to no directory, or memory ran out.
///
/// Costs [`judge`], a walk of the path, and what [`vol_listing::list`] costs.
pub(crate) fn list_unsound(
    alloc: Global,
    edition: Edition,
    image: &Image,
    path: &str,
    listing: ListOptions,
    screen: Screen,
) -> Result<Shown, Fault>
    ensures { IsSight (telling 1 (IsUnsoundListing edition image.now path.now listing screen)
        (IsUnshown edition image.now path.now (listable listing edition image.now))) result }
{
    let node = NodeName::Path(path);
    let inode = number_of(edition, image, node).map_err(|why| why.as_fault())?;
    let geometry = listable(edition, image, inode, listing).map_err(|why| why.as_fault())?;
    let path = path.as_bytes();
    let text = vol_listing::list(alloc, image, &geometry, path, inode, listing, screen)?;
    let remarks = rule_remarks(alloc, edition, image)?;
    let ending = ending_with(false, remarks);
    Ok(Shown { text, ending })
}

/// Returns the geometry of an image if a listing can begin with i-node `ino`.
pub(crate) fn listable(
    edition: Edition,
    image: &Image,
    ino: u16,
    listing: ListOptions,
) -> Result<Geometry, NodeFault>
    ensures exact { result ≡ listable listing edition image.now ino }
    ensures fits { IfOk result (λ geometry. Fits geometry image.now) }
{
    let geometry = Geometry::read(edition, image).map_err(NodeFault::Unsound)?;
    if listing.is_bare() && !is_directory(image, &geometry, ino) {
        return Err(NodeFault::Refused(Refusal::NotDirectory));
    }
    Ok(geometry)
}

/// Returns the remarks on an image: the line of the first rule that it breaks, if any.
fn rule_remarks(alloc: Global, edition: Edition, image: &Image) -> Result<Remarks, AllocError>
    ensures { IfOk result (λ remarks. TellsRule edition image.now remarks.lines.items) }
{
    let rule = judge(alloc, edition, image, true)?;
    let lines = match rule {
        Some(rule) => Vec::from_slice(alloc, Fault::Unsound(rule).line())?,
        None => Vec::new(alloc),
    };
    Ok(Remarks {
        rule,
        lines,
        is_short: false,
    })
}

/// Prints the bytes of the regular file at a path of an image that must keep rules 1 and 2, and may be any bytes otherwise. The status is 0 if the image is
/// sound; 1, with the line of the first rule that it breaks, if it isn't, and 1 if it breaks rule 1 or 2 or the path leads to no regular file; 3 if
/// `output` failed, 4 if memory ran out. With 3 some of the bytes may have been printed.
///
/// Costs [`judge`], a walk of the path, and the bytes written: the body is copied through a buffer of 64 KiB.
#[tactic(auto, using(crate::proofs::Printed::kept_same))]
pub(crate) fn read_unsound<O: Sink>(
    alloc: Global,
    edition: Edition,
    image: &Image,
    path: &str,
    output: &mut O,
) -> Ending
    ensures { Shows (telling 1 (IsUnsoundFile edition image.now path.now) (IsUnshown edition image.now path.now (readable edition image.now)))
        (streams O.contents O.failed output.old output.new result.fault) result.status }
{
    let file = match file_at(edition, image, path) {
        Ok(file) => file,
        Err(why) => return Ending::from(why.as_fault()),
    };
    let remarks = match rule_remarks(alloc, edition, image) {
        Ok(remarks) => remarks,
        Err(_) => return Ending::from(Fault::Refused(Refusal::NoMemory)),
    };
    match show(image, &file.geometry, file.inode, output) {
        Ok(()) => ending_with(false, remarks),
        Err(_) => Ending::from(Fault::Output),
    }
}

/// A node of an image: a regular file, or whatever else a command shows.
#[derive(Clone, Copy)]
pub(crate) struct FoundFile {
    /// The geometry of the image.
    pub(crate) geometry: Geometry,
    /// The i-number of the node.
    pub(crate) inode: u16,
}

/// Returns the regular file to which a path leads in an image, which may have any bytes.
pub(crate) fn file_at(edition: Edition, image: &Image, path: &str) -> Result<FoundFile, NodeFault>
    ensures found { IfOk result (λ file. IsFileAt edition image.now path.now file.geometry file.inode) }
    ensures fits { IfOk result (λ file. Fits file.geometry image.now) }
    ensures first { IfOk result (λ file. 1 ≤ file.inode) }
    ensures last { IfOk result (λ file. file.inode ≤ file.geometry.last_inode) }
    ensures fault { IfErr result (IsUnfound edition image.now path.now (readable edition image.now)) }
{
    let inode = number_of(edition, image, NodeName::Path(path))?;
    let geometry = readable(edition, image, inode)?;
    Ok(FoundFile { geometry, inode })
}

/// Returns the geometry of an image whose i-node `ino` is a regular file.
fn readable(edition: Edition, image: &Image, ino: u16) -> Result<Geometry, NodeFault>
    ensures exact { result ≡ readable edition image.now ino }
    ensures fits { IfOk result (λ geometry. Fits geometry image.now) }
    ensures first { OnOk result (1 ≤ ino) }
    ensures last { IfOk result (λ geometry. ino ≤ geometry.last_inode) }
{
    let geometry = open(edition, image, ino)?;
    if is_directory(image, &geometry, ino) {
        return Err(NodeFault::Refused(Refusal::IsDirectory));
    }
    Ok(geometry)
}
