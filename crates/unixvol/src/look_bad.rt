//! Commands that show part of an image of which some blocks couldn't be read.
ghost use Rattle.std.specs.Prelude.{IfErr, IfOk};
ghost use Rattle.std.specs.Process.{exit_status};
ghost use Rattle.command_faults.specs.Streams.{streams};
ghost use Rattle.unixvol.specs.FileFaults.{file_status, run_fault, run_status};
ghost use Rattle.unixvol.specs.LookBad.{IsBadRead, IsKnownRead, LooksBadToEnd, RunsLookBad};
ghost use Rattle.unixvol.specs.Runs.{IsUnread, host_files};

use crate::explain::{explain_rules, finish_printed, tell_end};
use crate::file_fault::{FailedRun, FileFault, NamedFile};
use crate::host::Surroundings;
use crate::read::{read_blocks, read_file, read_stamped};
use crate::subject::Subject;
use command_faults::Ending;
use command_line::VolumeFile;
use command_reads::bad_looks::look_bad;
use command_reads::{BadBlocks, BadMap};
use command_terms::BadLook;
use command_words::{BadImage, GivenBad};
use host_files::{ImageFiles, Stamp, noted_writer};
use pdp_words::{BLOCK, Image, IntoWrite, Sink};
use std::io::{self, Write};
use std::process::ExitCode;
use vol_layout::{Edition, Geometry};
use vol_listing::Screen;
use vol_losses::VolumeSizes;

/// Shows part of the image in a file of which only some blocks were read, and returns the exit code. Output is written to `output`, which is standard
/// output, as `screen` shows it; a fault is printed as lines on standard error. `errors` writes to standard error too.
pub fn run_to_end<R: ImageFiles + Eprint + AllocGlobal, O: Write + Drop, E: Write + Drop>(
    host: &Surroundings<'_, R>,
    screen: Screen,
    output: O,
    errors: E,
    volume: VolumeFile<'_>,
    image: BadImage<'_>,
    look: BadLook<'_>,
) -> ExitCode
    ensures { LooksBadToEnd (host_files volume.entry.at R.File.remaining R.File.contents R.had R.stood) screen (O.contents output) (E.contents errors)
        volume.entry image.entry look.entry (exit_status result) }
{
    let mut errors = IntoWrite::new(errors);
    let mut output = noted_writer(output);
    let ended = run(host.rt, screen, &mut output, volume, image, look);
    let subject = Subject::of_bad_look(volume, look);
    let status = tell_end(host, &mut errors, &ended, output.error(), Some(subject));
    let is_reported = matches!(&ended, Ok(ending) if ending.fault.is_none());
    explain_rules(
        host,
        is_reported && matches!(look, BadLook::Check { .. }),
        status,
    );
    ExitCode::from(finish_printed(host, output.into_inner().into_inner(), status))
}

/// Shows part of the image, and returns the result of the run, which holds if [`finish_printed`] succeeds.
fn run<'a, R: ImageFiles + AllocGlobal, O: Sink>(
    rt: &R,
    screen: Screen,
    output: &mut O,
    volume: VolumeFile<'a>,
    image: BadImage<'a>,
    look: BadLook<'_>,
) -> Result<Ending, FailedRun<'a>>
    ensures { RunsLookBad (streams O.contents O.failed output.old output.new (run_fault result))
        (host_files volume.entry.at R.File.remaining R.File.contents R.had R.stood) screen volume.entry image.entry look.entry (run_status result) }
{
    let bad = read_bad(rt, volume, image.bad)?;
    let (bytes, _) = read_known(rt, volume, &bad, image.sizes)?;
    Ok(look_bad(
        rt.alloc(),
        volume.edition,
        bytes,
        bad,
        image.sizes,
        look,
        screen,
        output,
    ))
}

/// Reads the image of the volume in a file: up to the end that its super-block states, or if sizes are given, that they state; and returns it with the file's
/// stamp. If a list of lost blocks has a number or a range that begins behind the volume, the fault is that of a file that can't be read.
pub(crate) fn read_known<'a, R: ImageFiles + AllocGlobal>(
    rt: &R,
    volume: VolumeFile<'a>,
    bad: &BadBlocks<'_>,
    sizes: Option<VolumeSizes>,
) -> Result<(Vec<u8>, Stamp), FileFault<'a>>
    ensures given { IfOk result (λ read. IsKnownRead (host_files volume.entry.at R.File.remaining R.File.contents R.had R.stood) volume.entry read.0.items sizes) }
    ensures fault { IfErr result (λ fault. IsUnread R.File.remaining (file_status fault)) }
{
    let (bytes, stamp) = match sizes {
        None => read_stamped(rt, volume)?,
        Some(sizes) => read_blocks(rt, volume, sizes.blocks)?,
    };
    let image = Image::from_bytes(bytes);
    match known_blocks(volume.edition, &image, sizes) {
        Some(blocks) if has_listed(bad, blocks) => {
            let why = io::Error::other(NOT_THERE);
            Err(FileFault::Unread(NamedFile::File(volume.image), why))
        }
        _ => Ok((image.into_bytes(), stamp)),
    }
}

/// The message for a list of lost blocks that names others than the volume's.
const NOT_THERE: &str = "--bad-blocks names a block that the volume hasn't";

/// Returns the number of blocks of a volume, if it is known: by the sizes that are given, or by the super-block of an image that keeps rules 1 and 2.
fn known_blocks(edition: Edition, image: &Image, sizes: Option<VolumeSizes>) -> Option<u32> {
    match sizes {
        Some(sizes) => Some(sizes.blocks),
        None => Geometry::read(edition, image)
            .ok()
            .map(|geometry| geometry.zone_end),
    }
}

/// True if a list has a number or a range of lost blocks that begins at this block or after it. Each range that was read ends where lost blocks begin, but for
/// the last one, which has no end.
fn has_listed(bad: &BadBlocks<'_>, blocks: u32) -> bool {
    let end = BLOCK as u64 * u64::from(blocks);
    match bad {
        BadBlocks::Outside(ranges) => ranges
            .iter()
            .any(|range| end <= range.end && range.end != u64::MAX),
        BadBlocks::Map(_) => false,
    }
}

/// Returns what says which blocks couldn't be read: the map, which is read from its file, or the ranges themselves.
pub(crate) fn read_bad<'a, R: ImageFiles + AllocGlobal>(
    rt: &R,
    volume: VolumeFile<'_>,
    bad: GivenBad<'a>,
) -> Result<BadBlocks<'a>, FileFault<'a>>
    ensures read { IfOk result (λ read. IsBadRead (host_files volume.entry.at R.File.remaining R.File.contents R.had R.stood) volume.entry bad.entry read) }
    ensures fault { IfErr result (λ fault. IsUnread R.File.remaining (file_status fault)) }
{
    let map = match bad {
        GivenBad::Outside(ranges) => return Ok(BadBlocks::Outside(ranges)),
        GivenBad::Map(map) => map,
    };
    let text = read_file(rt, map)?;
    Ok(BadBlocks::Map(BadMap {
        name: map,
        text,
        at: volume.at,
    }))
}
