//! Shows the part of an image that the command line names.
ghost use Rattle.std.specs.Prelude.{Option};
ghost use Rattle.command_faults.specs.Streams.{Hears, heard, streams};
ghost use Rattle.command_faults.specs.declared.fault.Fault.{Fault};
ghost use Rattle.command_reads.specs.Look.{Looks};

use crate::block::block_text;
use crate::check::check;
use crate::dump::dump_text;
use crate::export::export;
use crate::find::find;
use crate::free::free_text;
use crate::inode::show_inode;
use crate::ls::list_image;
use crate::map::map_text;
use crate::map_json::show_uses;
use crate::print::{plain, plain_string, print};
use crate::slots::show_slots;
use crate::sums::sums;
use crate::super_block::{SuperPart, super_text};
use crate::unsound::{list_unsound, read_unsound};
use command_faults::Ending;
use command_faults::answer::tell;
use command_terms::Look;
use pdp_words::{Image, Sink};
use std::alloc::Global;
use vol_layout::Edition;
use vol_listing::Screen;

/// Shows part of an image as [`perform`] does, writes the line of a fault to `errors`, and returns the status.
pub fn look<O: Sink, E: Sink>(
    alloc: Global,
    edition: Edition,
    image: Vec<u8>,
    look: Look<'_>,
    screen: Screen,
    output: &mut O,
    errors: &mut E,
) -> u8
    ensures { (fault : Option Fault) × Hears (heard E.contents E.failed errors.old errors.new) fault
        × Looks edition image.items screen (streams O.contents O.failed output.old output.new fault) result look.entry }
{
    let ending = perform(alloc, edition, image, look, screen, output);
    tell(&ending.fault, errors);
    ending.status
}

/// Shows part of an image, which may be any bytes, on `output`. The status is 0; 1 if the image isn't sound enough for the command, or the named part
/// doesn't exist; 5 or 6 only if the status is graded; 3 if `output` failed, 4 if memory ran out. Costs as much as the command that runs, and needs
/// no right to wait.
pub fn perform<O: Sink>(
    alloc: Global,
    edition: Edition,
    image: Vec<u8>,
    look: Look<'_>,
    screen: Screen,
    output: &mut O,
) -> Ending
    ensures { Looks edition image.items screen (streams O.contents O.failed output.old output.new result.fault) result.status look.entry }
{
    let image = Image::from_bytes(image);
    show(alloc, edition, image, look, screen, output)
}

/// Shows part of an image, as [`perform`] does.
fn show<O: Sink>(
    alloc: Global,
    edition: Edition,
    image: Image,
    look: Look<'_>,
    screen: Screen,
    output: &mut O,
) -> Ending
    ensures { Looks edition image screen (streams O.contents O.failed output.old output.new result.fault) result.status look.entry }
{
    let shown = match look {
        Look::Export { path, options } => {
            let bytes = image.into_bytes();
            return export(alloc, edition, bytes, path, options, screen, output);
        }
        Look::Inode { node, form } => {
            return show_inode(alloc, edition, &image, node, form, output);
        }
        Look::Uses => return show_uses(alloc, edition, &image, output),
        Look::Slots { path, form } => {
            return show_slots(alloc, edition, &image, path, form, screen, output);
        }
        Look::ReadUnsound { path } => return read_unsound(alloc, edition, &image, path, output),
        Look::Sums { path, form, lost } => sums(alloc, edition, &image, path, form, lost),
        Look::Block { block, form } => plain_string(block_text(
            alloc, edition, &image, block, form,
        )),
        Look::Dump { target, form } => plain(dump_text(alloc, edition, &image, target, form)),
        Look::Free { form } => plain_string(free_text(alloc, edition, &image, form)),
        Look::Find {
            path,
            name,
            lost,
            form,
        } => { find(alloc, edition, &image, path, name, lost, form, screen) }
        Look::Super { form } => {
            plain_string(super_text(alloc, edition, &image, SuperPart::Fields, form))
        }
        Look::Df { form } => {
            plain_string(super_text(alloc, edition, &image, SuperPart::Space, form))
        }
        Look::Map { picture, file } => plain_string(map_text(
            alloc, edition, &image, picture, file, screen,
        )),
        Look::Check { graded, form } => check(alloc, edition, &image, graded, form),
        Look::List { path, listing } => {
            plain(list_image(alloc, edition, &image, path, listing, screen))
        }
        Look::ListUnsound { path, listing } => {
            list_unsound(alloc, edition, &image, path, listing, screen)
        }
    };
    print(shown, output)
}
