//! Looks at an image of which some blocks couldn't be read, as a map of GNU ddrescue or a list says.
ghost use Rattle.std.specs.Prelude.{◌≡◌, IfOk, string_bytes};
ghost use Rattle.command_faults.specs.Streams.{streams};
ghost use Rattle.command_reads.specs.BadLooks.{IsMisreadEnding, IsUnrescuedEnding, IsUnsizedEnding, LooksBad, ShowsRescued, line_start, map_line, sizes_line};

use crate::bad_files::{print_in, read_in};
use crate::bad_images::rescue_image;
use crate::bad_lists::list_in;
use crate::bad_owners::block_in;
use crate::bad_uses::{map_in, show_uses_in};
use crate::check::check_in;
use crate::export::{export_read, unread};
use crate::find::find_in;
use crate::print::print;
use crate::statuses::NO_VOLUME;
use crate::sums::sums_of;
use bad_maps::{LineFault, MapFault, ReadRange};
use command_faults::status::{BAD_COMMAND_LINE, BAD_FILE};
use command_faults::{Ending, Fault};
use command_terms::BadLook;
use escaped_text::push_escaped;
use pdp_words::Sink;
use std::alloc::{AllocError, Global};
use vol_dir::Refusal;
use vol_layout::Edition;
use vol_listing::Screen;
use vol_losses::{CutImage, RescueFault, VolumeSizes};

/// The line about an image whose super-block is lost, if no sizes are given.
const UNSIZED_LINE: &[u8] = b"unixvol: the super-block is lost: give --sizes or --like\n";

/// A map of the bytes of a file that were read, and the place of the volume in that file.
#[derive(Drop)]
pub struct BadMap<'a> {
    /// The path of the map's file.
    pub name: &'a str,
    /// The text of the map.
    pub text: Vec<u8>,
    /// The number of the block that the volume begins at in the file that the map is of.
    pub at: u32,
}

/// What says which blocks of an image couldn't be read.
#[derive(Drop)]
pub enum BadBlocks<'a> {
    /// A map: each block of which it doesn't have all bytes.
    Map(BadMap<'a>),
    /// Ranges of bytes of the volume: each block of which no range has all bytes.
    Outside(Vec<ReadRange>),
}

/// Shows part of an image of which only some blocks were read. A block of which a byte wasn't read is lost, whatever the image has in its place. An
/// export is as [`look`](crate::look) makes it with `cut`. If blocks are lost, the fault of the other looks has the lines about what is lost, and the
/// status is 5 if something that is shown is damaged or left out, else 1. A check has no such lines, and the status of its report. If `sizes` are given, the super-block is lost too, and states these sizes;
/// if no volume of the edition has them, nothing is shown, and the status is 2; if it is lost and no sizes are given, the status is 6. If a map can't be read, nothing is shown, the fault names the line and
/// what is wrong with it, and the status is 3.
///
/// Costs the map, and what the look costs.
pub fn look_bad<O: Sink>(
    alloc: Global,
    edition: Edition,
    image: Vec<u8>,
    bad: BadBlocks<'_>,
    sizes: Option<VolumeSizes>,
    look: BadLook<'_>,
    screen: Screen,
    output: &mut O,
) -> Ending
    ensures { LooksBad edition image.items sizes look.entry screen (streams O.contents O.failed output.old output.new result.fault) result.status bad.entry }
{
    match rescue_image(alloc, edition, image, bad, sizes) {
        Ok(read) => show_rescued(alloc, edition, &read, look, screen, output),
        Err(ending) => ending,
    }
}

/// Shows part of an image that was rescued.
fn show_rescued<O: Sink>(
    alloc: Global,
    edition: Edition,
    read: &CutImage,
    look: BadLook<'_>,
    screen: Screen,
    output: &mut O,
) -> Ending
    ensures { ShowsRescued edition read.now.image read.now.lost.items screen (streams O.contents O.failed output.old output.new result.fault) result.status look.entry }
{
    match look {
        BadLook::Export { path, options } => {
            export_read(alloc, edition, read, path, options, screen, output)
        }
        BadLook::Find {
            path,
            name,
            lost,
            form,
        } => {
            let shown = find_in(
                alloc,
                edition,
                &read.image,
                &read.lost,
                path,
                name,
                lost,
                form,
                screen,
            );
            print(shown, output)
        }
        BadLook::Sums { path, form, lost } => {
            let shown = sums_of(alloc, edition, &read.image, &read.lost, path, form, lost);
            print(shown, output)
        }
        BadLook::Check { graded, form } => {
            let shown = check_in(alloc, edition, &read.image, &read.lost, graded, form);
            print(shown, output)
        }
        BadLook::Block { block, form } => {
            let shown = block_in(alloc, edition, &read.image, &read.lost, block, form);
            print(shown, output)
        }
        BadLook::Map { picture } => {
            let shown = map_in(alloc, edition, &read.image, &read.lost, picture, screen);
            print(shown, output)
        }
        BadLook::Uses => show_uses_in(alloc, edition, &read.image, &read.lost, output),
        BadLook::List { path, listing } => {
            let shown = list_in(
                alloc,
                edition,
                &read.image,
                &read.lost,
                path,
                listing,
                screen,
            );
            print(shown, output)
        }
        BadLook::Read { path, damaged } => {
            let (image, lost) = (&read.image, &read.lost);
            read_in(alloc, edition, image, lost, path, damaged, output)
        }
        BadLook::Body { node, damaged } => {
            let (image, lost) = (&read.image, &read.lost);
            print_in(alloc, edition, image, lost, node, damaged, output)
        }
    }
}

/// Returns the ending of a look at an image that isn't rescued for this reason.
pub(crate) fn unrescued(alloc: Global, fault: RescueFault) -> Ending
    ensures { IsUnrescuedEnding fault result.status result.fault }
{
    let sizes = match fault {
        RescueFault::Cut(fault) => return unread(alloc, fault),
        RescueFault::Sizes(sizes) => sizes,
    };
    match sizes_line(alloc, sizes.blocks, sizes.list_blocks) {
        Ok(line) => Ending {
            status: BAD_COMMAND_LINE,
            fault: Some(Fault::Worded {
                rule: None,
                lines: line.into_bytes(),
            }),
        },
        Err(_) => Ending::from(Fault::Refused(Refusal::NoMemory)),
    }
}

/// Returns the ending of a look at an image whose super-block is lost, if no sizes are given.
pub(crate) fn unsized_ending(alloc: Global) -> Ending
    ensures { IsUnsizedEnding result.status result.fault }
{
    match Vec::from_slice(alloc, UNSIZED_LINE) {
        Ok(lines) => Ending {
            status: NO_VOLUME,
            fault: Some(Fault::Worded { rule: None, lines }),
        },
        Err(_) => Ending::from(Fault::Refused(Refusal::NoMemory)),
    }
}

/// Returns the line about sizes that no volume of the edition has.
#[tactic(auto, unfolding(crate::specs::BadLooks::sizes_line))]
fn sizes_line(alloc: Global, blocks: u32, list_blocks: u16) -> Result<String, AllocError>
    ensures { IfOk result (λ line. string_bytes line ≡ sizes_line blocks list_blocks) }
{
    format!(in alloc; "unixvol: no volume has {blocks} blocks with an i-list of {list_blocks}\n")
}

/// Returns the ending of a look whose map can't be read for this reason.
pub(crate) fn misread(alloc: Global, name: &str, fault: MapFault) -> Ending
    ensures { IsMisreadEnding name.now fault result.status result.fault }
{
    let MapFault::Line { number, fault } = fault else {
        return Ending::from(Fault::Refused(Refusal::NoMemory));
    };
    match map_line(alloc, name, number, fault) {
        Ok(lines) => Ending {
            status: BAD_FILE,
            fault: Some(Fault::Worded { rule: None, lines }),
        },
        Err(_) => Ending::from(Fault::Refused(Refusal::NoMemory)),
    }
}

/// Returns the line of a map in which a line can't be read.
fn map_line(alloc: Global, name: &str, number: u64, fault: LineFault) -> Result<Vec<u8>, AllocError>
    ensures { IfOk result (λ line. line.items ≡ map_line name.now number fault) }
{
    let mut line = Vec::from_slice(alloc, b"unixvol: ")?;
    push_escaped(&mut line, name.as_bytes())?;
    let start = line_start(alloc, number)?;
    line.extend_from_slice(start.as_bytes())?;
    line.extend_from_slice(fault.text())?;
    line.push(b'\n')?;
    Ok(line)
}

/// Returns the words for a line by its number.
#[tactic(auto, unfolding(crate::specs::BadLooks::line_start))]
fn line_start(alloc: Global, number: u64) -> Result<String, AllocError>
    ensures { IfOk result (λ text. string_bytes text ≡ line_start number) }
{
    format!(in alloc; ": line {number}: ")
}
