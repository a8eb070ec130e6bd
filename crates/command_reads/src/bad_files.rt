//! `get` and `cat` of an image with lost blocks.
ghost use Rattle.std.specs.Prelude.{◌≡◌, ◌≤◌, ◌||◌, ℕ, IfErr, IfOk, Result, option_map};
ghost use Rattle.vol_layout.specs.Geometry.{Fits};
ghost use Rattle.vol_layout.specs.declared.edition.Edition.{Edition};
ghost use Rattle.vol_layout.specs.declared.geometry.Geometry.{Geometry};
ghost use Rattle.vol_losses.specs.Losses.{is_whole};
ghost use Rattle.vol_rescue.specs.Lines.{TellsNamed};
ghost use Rattle.command_faults.specs.Faults.{line_after};
ghost use Rattle.command_faults.specs.Streams.{streams};
ghost use Rattle.command_reads.specs.BadFiles.{IsBody, IsBodyFault, IsFileUnreached, IsFileUnreachedFault, IsOpened, TellsUnopened, as_start, cat_sights, file_sights, get_sights, place_of, told_entries, told_of, way_entries};
ghost use Rattle.command_reads.specs.Cat.{file_of};
ghost use Rattle.command_reads.specs.Node.{number_of};
ghost use Rattle.command_reads.specs.Print.{Shows, plainly};
ghost use Rattle.command_reads.specs.Unsound.{IsUnopened};
ghost use Rattle.command_reads.specs.Ways.{unsure_on};
ghost use Rattle.command_reads.specs.declared.node.NodeFault.{NodeFault};

use crate::cat::{open, show};
use crate::export::ending_with;
use crate::node::{NodeFault, number_of};
use crate::print::{Shown, print};
use crate::remarks::Remarks;
use crate::statuses::SHORT;
use crate::unsound::{FoundFile, file_at, read_unsound};
use crate::ways::{number_entry, number_lines, unsure_on, way_lines};
use command_faults::status::DONE;
use command_faults::{Ending, Fault};
use command_terms::NodeName;
use pdp_words::{Bytes, Image, Sink};
use std::alloc::{AllocError, Global};
use vol_archive::{MetEntry, Role};
use vol_dir::{DirectoryFault, Refusal};
use vol_layout::{Edition, Geometry};
use vol_losses::is_whole;
use vol_rescue::tell_named;

/// Prints the bytes of the regular file at a path of an image of which blocks may be lost: if none is, as [`read_unsound`] does, else as [`read_known`]
/// does.
pub(crate) fn read_in<O: Sink>(
    alloc: Global,
    edition: Edition,
    image: &Image,
    lost: &[bool],
    path: &str,
    damaged: bool,
    output: &mut O,
) -> Ending
    ensures { Shows (get_sights edition image.now lost.now path.now damaged) (streams O.contents O.failed output.old output.new result.fault) result.status }
{
    if lost.is_empty() {
        return read_unsound(alloc, edition, image, path, output);
    }
    let found = file_at(edition, image, path);
    let node = NodeName::Path(path);
    read_known(alloc, edition, image, lost, node, found, damaged, output)
}

/// Prints the bytes of an i-node of an image of which blocks may be lost: if none is, as [`cat`](crate::cat::cat) does, else as [`read_known`] does.
pub(crate) fn print_in<O: Sink>(
    alloc: Global,
    edition: Edition,
    image: &Image,
    lost: &[bool],
    node: NodeName<'_>,
    damaged: bool,
    output: &mut O,
) -> Ending
    ensures { Shows (cat_sights edition image.now lost.now node.entry damaged) (streams O.contents O.failed output.old output.new result.fault) result.status }
{
    let found = body_at(edition, image, node);
    if lost.is_empty() {
        return print_body(image, found, output);
    }
    read_known(alloc, edition, image, lost, node, found, damaged, output)
}

/// Returns the i-node that a command names, if its bytes can be printed.
fn body_at(edition: Edition, image: &Image, node: NodeName<'_>) -> Result<FoundFile, NodeFault>
    ensures opened { IsOpened (number_of edition image.now node.entry) (file_of edition image.now) result }
    ensures fits { IfOk result (λ file. Fits file.geometry image.now) }
    ensures first { IfOk result (λ file. 1 ≤ file.inode) }
    ensures last { IfOk result (λ file. file.inode ≤ file.geometry.last_inode) }
{
    let inode = number_of(edition, image, node)?;
    let geometry = open(edition, image, inode)?;
    Ok(FoundFile { geometry, inode })
}

/// Prints the bytes of an i-node that was found, or reports why there is none.
fn print_body<O: Sink>(image: &Image, found: Result<FoundFile, NodeFault>, output: &mut O) -> Ending
    requires fits { IfOk found (λ file. Fits file.geometry image.now) }
    requires first { IfOk found (λ file. 1 ≤ file.inode) }
    requires last { IfOk found (λ file. file.inode ≤ file.geometry.last_inode) }
    ensures { (edition : Edition) (number : Result ℕ NodeFault) → IsOpened number (file_of edition image.now) found
        → Shows (plainly (IsBody edition image.now number) (IsBodyFault edition image.now number))
        (streams O.contents O.failed output.old output.new result.fault) result.status }
{
    let file = match found {
        Ok(file) => file,
        Err(why) => return Ending::from(why.as_fault()),
    };
    match show(image, &file.geometry, file.inode, output) {
        Ok(()) => Ending {
            status: DONE,
            fault: None,
        },
        Err(_) => Ending::from(Fault::Output),
    }
}

/// Prints the bytes of a file of an image with lost blocks, which a command names and which was found. If some of its bytes are lost, prints nothing, or with
/// `damaged` zeros in their place. The lines are about what is lost of the file and on the way to it; the status is 5 if there is any such line, else 1. If
/// there is no file but something is lost on the way, or its i-node is and it is named by its number, prints nothing, with the lines about that and
/// status 5. Otherwise the status is 1 if there is no file, 3 if `output` failed, 4 if memory ran out.
///
/// Costs two walks of the path, [`is_whole`] of each directory on it and of the file, and the bytes written.
fn read_known<O: Sink>(
    alloc: Global,
    edition: Edition,
    image: &Image,
    lost: &[bool],
    node: NodeName<'_>,
    found: Result<FoundFile, NodeFault>,
    damaged: bool,
    output: &mut O,
) -> Ending
    requires fits { IfOk found (λ file. Fits file.geometry image.now) }
    requires first { IfOk found (λ file. 1 ≤ file.inode) }
    requires last { IfOk found (λ file. file.inode ≤ file.geometry.last_inode) }
    ensures { (opened : ℕ → Result Geometry NodeFault) → IsOpened (number_of edition image.now node.entry) opened found
        → Shows (file_sights edition image.now lost.now (place_of node.entry) (number_of edition image.now node.entry) opened damaged)
        (streams O.contents O.failed output.old output.new result.fault) result.status }
{
    let file = match found {
        Ok(file) => file,
        Err(why) => {
            let shown = unreached(alloc, edition, image, lost, node, why);
            return print(shown, output);
        }
    };
    let remarks = match remarks_on(alloc, image, lost, node, &file) {
        Ok(remarks) => remarks,
        Err(_) => return Ending::from(Fault::Refused(Refusal::NoMemory)),
    };
    if !is_shown(image, lost, &file, damaged) {
        return ending_with(true, remarks);
    }
    match show(image, &file.geometry, file.inode, output) {
        Ok(()) => ending_with(true, remarks),
        Err(_) => Ending::from(Fault::Output),
    }
}

/// True if the bytes of a file are shown: none of them is lost, or damaged files are shown too.
fn is_shown(image: &Image, lost: &[bool], file: &FoundFile, damaged: bool) -> bool
    requires fits { Fits file.now.geometry image.now }
    requires first { 1 ≤ file.now.inode }
    requires last { file.now.inode ≤ file.now.geometry.last_inode }
    ensures { result ≡ (damaged || is_whole file.now.geometry image.now lost.now file.now.inode) }
{
    damaged || is_whole(image, &file.geometry, lost, file.inode)
}

/// Returns what is shown of a node that isn't opened for this reason.
pub(crate) fn unreached(
    alloc: Global,
    edition: Edition,
    image: &Image,
    lost: &[bool],
    node: NodeName<'_>,
    why: NodeFault,
) -> Result<Shown, Fault>
    ensures shown { (opened : ℕ → Result Geometry NodeFault) → IsUnopened (number_of edition image.now node.entry) opened why
        → IfOk result (λ shown. IsFileUnreached edition image.now lost.now (place_of node.entry) (number_of edition image.now node.entry) opened
        shown.text.items shown.ending.status (line_after shown.ending.fault)) }
    ensures fault { (opened : ℕ → Result Geometry NodeFault) → IsUnopened (number_of edition image.now node.entry) opened why
        → IfErr result (IsFileUnreachedFault edition image.now lost.now (place_of node.entry) (number_of edition image.now node.entry) opened) }
{
    match unopened_lines(alloc, edition, image, lost, node, why)? {
        Some(lines) => Ok(Shown {
            text: Vec::new(alloc),
            ending: Ending {
                status: SHORT,
                fault: Some(Fault::Worded { rule: None, lines }),
            },
        }),
        None => Err(why.as_fault()),
    }
}

/// Returns the lines about what is lost on the way to a node that isn't opened for this reason, or of its i-node if it is named by its number.
fn unopened_lines(
    alloc: Global,
    edition: Edition,
    image: &Image,
    lost: &[bool],
    node: NodeName<'_>,
    why: NodeFault,
) -> Result<Option<Vec<u8>>, AllocError>
    ensures { IfOk result (λ told. TellsUnopened edition image.now lost.now why (option_map (λ lines. lines.items) told) (place_of node.entry)
        (number_of edition image.now node.entry)) }
{
    match node {
        NodeName::Path(path) => {
            way_lines(alloc, edition, image, lost, path.as_bytes(), as_start(why))
        }
        NodeName::Number(i) => number_lines(alloc, edition, image, lost, i),
    }
}

/// Returns the reason why there is no node, as one why there is no directory.
fn as_start(why: NodeFault) -> DirectoryFault
    ensures { result ≡ as_start why }
{
    match why {
        NodeFault::Unsound(fault) => DirectoryFault::Unsound(fault),
        NodeFault::Refused(refusal) => DirectoryFault::Refused(refusal),
    }
}

/// Returns the remarks on a file: what is lost of it, and of the last node on its path, if it is named by one, from which it can't be trusted where paths
/// lead.
fn remarks_on(
    alloc: Global,
    image: &Image,
    lost: &[bool],
    node: NodeName<'_>,
    file: &FoundFile,
) -> Result<Remarks, AllocError>
    requires { Fits file.now.geometry image.now }
    ensures { IfOk result (λ remarks. TellsNamed file.now.geometry image.now lost.now
        (told_of file.now.geometry image.now lost.now (place_of node.entry) file.now.inode) remarks.lines.items remarks.is_short) }
{
    let geometry = &file.geometry;
    let founds = told_of(alloc, image, geometry, lost, node, file.inode)?;
    let told = tell_named(alloc, image, geometry, lost, &founds)?;
    Ok(Remarks {
        rule: None,
        lines: told.lines,
        is_short: told.is_short,
    })
}

/// Returns what is told of a file: if it is named by its number, the file alone.
fn told_of(
    alloc: Global,
    image: &Image,
    geometry: &Geometry,
    lost: &[bool],
    node: NodeName<'_>,
    inode: u16,
) -> Result<Vec<MetEntry>, AllocError>
    requires { Fits geometry.now image.now }
    ensures { IfOk result (λ founds. founds.items ≡ told_of geometry.now image.now lost.now (place_of node.entry) inode) }
{
    match node {
        NodeName::Path(path) => told_entries(alloc, image, geometry, lost, path.as_bytes(), inode),
        NodeName::Number(_) => {
            let mut founds = Vec::new(alloc);
            founds.push(number_entry(alloc, inode)?)?;
            Ok(founds)
        }
    }
}

/// Returns what is told of a file at a path: the last node on its path from which it can't be trusted where paths lead, if there is one, and the file.
pub(crate) fn told_entries(
    alloc: Global,
    image: &Image,
    geometry: &Geometry,
    lost: &[bool],
    path: &[u8],
    inode: u16,
) -> Result<Vec<MetEntry>, AllocError>
    requires { Fits geometry.now image.now }
    ensures { IfOk result (λ founds. founds.items ≡ told_entries geometry.now image.now lost.now path.now inode) }
{
    let mut founds = way_entries(alloc, image, geometry, lost, path)?;
    founds.push(MetEntry {
        path: Bytes::from_slice(alloc, path)?,
        inode,
        role: Role::File,
    })?;
    Ok(founds)
}

/// Returns the last node on a path from which it can't be trusted where paths lead, if there is one.
pub(crate) fn way_entries(
    alloc: Global,
    image: &Image,
    geometry: &Geometry,
    lost: &[bool],
    path: &[u8],
) -> Result<Vec<MetEntry>, AllocError>
    requires { Fits geometry.now image.now }
    ensures { IfOk result (λ founds. founds.items ≡ way_entries (unsure_on geometry.now image.now lost.now path.now)) }
{
    let mut founds = Vec::new(alloc);
    if let Some(found) = unsure_on(alloc, image, geometry, lost, path)? {
        founds.push(found)?;
    }
    Ok(founds)
}
