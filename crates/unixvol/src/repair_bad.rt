//! `repair` of an image of which some blocks couldn't be read.
ghost use Rattle.std.specs.Prelude.{IfErr, IfOk};
ghost use Rattle.std.specs.Process.{exit_status};
ghost use Rattle.command_faults.specs.Streams.{streams};
ghost use Rattle.host_files.specs.Save.{IsTaken};
ghost use Rattle.unixvol.specs.FileFaults.{file_status, run_fault, run_status};
ghost use Rattle.unixvol.specs.LookBad.{IsBadRead};
ghost use Rattle.unixvol.specs.RepairBad.{RepairsBadToEnd, RepairsRescued, RunsRepairBad, SavesRescued};
ghost use Rattle.unixvol.specs.Runs.{IsUnread, host_files};

use crate::commands::is_output;
use crate::explain::{finish_printed, tell_end};
use crate::file_fault::{FailedRun, FileFault};
use crate::host::Surroundings;
use crate::look_bad::{read_bad, read_known};
use crate::save::{expect_apart, expect_new, save_over};
use crate::subject::Subject;
use command_changes::repair_losses::{ending_with, ending_with_report};
use command_changes::salvage::ReportedVolume;
use command_changes::{RescuedVolume, repair_rescued};
use command_faults::{Ending, Fault};
use command_line::{MadeFile, VolumeFile};
use command_reads::print::print_text;
use command_reads::{BadBlocks, rescue_image};
use command_terms::Repairing;
use command_words::{BadImage, GivenBad};
use host_files::{ImageFiles, Stamp, noted_writer};
use pdp_words::{IntoWrite, Sink};
use std::io::Write;
use std::process::ExitCode;
use std::rt::Clock;
use vol_dir::Refusal;
use vol_losses::CutImage;

/// Repairs the image in a file of which only some blocks were read, to a copy in memory; saves it in the file `copy`, if one is named; prints all that differs
/// and all that is lost, and returns the exit code. Output is written to `output`, which is standard output; a fault is printed as lines on standard error.
/// `errors` writes to standard error too.
pub fn run_to_end<R: ImageFiles + Clock + Eprint + AllocGlobal, O: Write + Drop, E: Write + Drop>(
    host: &Surroundings<'_, R>,
    output: O,
    errors: E,
    volume: VolumeFile<'_>,
    image: BadImage<'_>,
    copy: Option<MadeFile<'_>>,
    repairing: Repairing,
) -> ExitCode
    ensures { RepairsBadToEnd (host_files volume.entry.at R.File.remaining R.File.contents R.had R.stood) (O.contents output) (E.contents errors)
        volume.entry image.entry copy.entry repairing (exit_status result) }
{
    let mut errors = IntoWrite::new(errors);
    let mut output = noted_writer(output);
    let ended = run(host, &mut output, volume, image, copy, repairing);
    let subject = Subject::of_repair(volume);
    let status = tell_end(host, &mut errors, &ended, output.error(), Some(subject));
    ExitCode::from(finish_printed(host, output.into_inner().into_inner(), status))
}

/// Repairs the image, and returns the result of the run, which holds if [`finish_printed`] succeeds.
fn run<'a, R: ImageFiles + Clock + Eprint + AllocGlobal, O: Sink>(
    host: &Surroundings<'_, R>,
    output: &mut O,
    volume: VolumeFile<'a>,
    image: BadImage<'a>,
    copy: Option<MadeFile<'a>>,
    repairing: Repairing,
) -> Result<Ending, FailedRun<'a>>
    ensures { RunsRepairBad (streams O.contents O.failed output.old output.new (run_fault result))
        (host_files volume.entry.at R.File.remaining R.File.contents R.had R.stood) volume.entry image.entry copy.entry repairing (run_status result) }
{
    let bad = read_apart(host.rt, volume, image.bad, copy)?;
    let (bytes, stamp) = read_known(host.rt, volume, &bad, image.sizes)?;
    match rescue_image(host.rt.alloc(), volume.edition, bytes, bad, image.sizes) {
        Ok(read) => repair_read(host, output, volume, read, stamp, copy, repairing),
        Err(ending) => Ok(ending),
    }
}

/// Reads what says which blocks couldn't be read, as [`read_bad`] does, unless the copy is to replace the map.
fn read_apart<'a, R: ImageFiles + AllocGlobal>(
    rt: &R,
    volume: VolumeFile<'_>,
    bad: GivenBad<'a>,
    copy: Option<MadeFile<'a>>,
) -> Result<BadBlocks<'a>, FileFault<'a>>
    ensures read { IfOk result (λ read. IsBadRead (host_files volume.entry.at R.File.remaining R.File.contents R.had R.stood) volume.entry bad.entry read) }
    ensures fault { IfErr result (λ fault. IsUnread R.File.remaining (file_status fault)) }
{
    if let (GivenBad::Map(map), Some(copy)) = (&bad, copy) {
        expect_apart(rt, map, copy.path)?;
    }
    read_bad(rt, volume, bad)
}

/// Repairs an image with lost blocks, and saves and reports the copy. The file with the stamp `old`, from which the image was read, isn't replaced.
fn repair_read<'a, R: ImageFiles + Clock + Eprint + AllocGlobal, O: Sink>(
    host: &Surroundings<'_, R>,
    output: &mut O,
    volume: VolumeFile<'_>,
    read: CutImage,
    old: Stamp,
    copy: Option<MadeFile<'a>>,
    repairing: Repairing,
) -> Result<Ending, FailedRun<'a>>
    ensures { RepairsRescued (streams O.contents O.failed output.old output.new (run_fault result))
        (host_files volume.entry.at R.File.remaining R.File.contents R.had R.stood) volume.entry read.image read.lost.items copy.entry repairing (run_status result) }
{
    let repaired = match repair_rescued(host.rt.alloc(), volume.edition, read, repairing) {
        Ok(repaired) => repaired,
        Err(fault) => return Ok(Ending::from(fault)),
    };
    match copy {
        Some(copy) => save_rescued(host, output, copy, old, repaired),
        None => {
            let RescuedVolume { made, losses } = repaired;
            let ending = ending_with(losses);
            Ok(print_text(&made.report, ending, output))
        }
    }
}

/// Saves a repaired copy in the file `copy`, unless that must be new and something exists at its path; then prints the report, and returns how the run ends. If
/// the file is standard output, the report goes to standard error.
fn save_rescued<'a, R: ImageFiles + Clock + Eprint + AllocGlobal, O: Sink>(
    host: &Surroundings<'_, R>,
    output: &mut O,
    copy: MadeFile<'a>,
    old: Stamp,
    repaired: RescuedVolume,
) -> Result<Ending, FailedRun<'a>>
    ensures { SavesRescued (streams O.contents O.failed output.old output.new (run_fault result)) (IsTaken R.File.contents) R.stood repaired.made.bytes.items
        repaired.made.report.items repaired.losses.items (run_status result) }
{
    expect_new(host.rt, copy)?;
    let RescuedVolume { made, losses } = repaired;
    let ReportedVolume { bytes, report } = made;
    let is_output = is_output(host.rt, copy.path);
    save_over(host, copy.path, old, &bytes)?;
    if !is_output {
        let ending = ending_with(losses);
        return Ok(print_text(&report, ending, output));
    }
    match ending_with_report(report, &losses) {
        Ok(ending) => Ok(print_text(b"", ending, output)),
        Err(_) => Ok(Ending::from(Fault::Refused(Refusal::NoMemory))),
    }
}
