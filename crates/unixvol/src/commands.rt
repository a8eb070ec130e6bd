//! `cat`, `get`, `mkfs`, `build`, `migrate`, `resize`, `salvage -n`, `salvage -o` and `repair`, which print all or nothing: the files they open and save.
ghost use Rattle.std.specs.Prelude.{◌≡◌, ◌≢◌, ◌≤◌, ℕ, Bool, true, List, None, Option, IfOk};
ghost use Rattle.std.specs.Io.KnownBytes.{Keeps};
ghost use Rattle.std.specs.Process.{exit_status};
ghost use Rattle.command_faults.specs.Faults.{line_after};
ghost use Rattle.command_faults.specs.Streams.{still, streams};
ghost use Rattle.unixvol.specs.FileFaults.{run_fault, run_status};
ghost use Rattle.unixvol.specs.Reports.{IsOneFile, may_report, may_report_read};
ghost use Rattle.unixvol.specs.Runs.{IsPlainCommand, IsUnread, GaveAt, PrintsBody, RunsMigrate, RunsMkfs, RunsRepair, RunsSalvage, Runs, RunsRead, SavesCopy, RunsToEnd, Ends, but_remarks, host_files, made_in, new_place_at, read_at, volume_at};
ghost use Rattle.host_files.specs.Save.{IsTaken};

use crate::build::run_build;
use crate::explain::{explain_cat, explain_command_line, finish, tell_end};
use crate::file_fault::{FailedRun, after_saving};
use crate::host::Surroundings;
use crate::looks::run_get;
use crate::read::{read_stamped, read_volume};
use crate::resize::run_resize;
use crate::save::{expect_new, save_answer_over, save_made, save_over};
use crate::subject::Subject;
use clap::Error;
use command_changes::migrate::migrate_image;
use command_changes::mkfs::make_volume;
use command_changes::repair::repair_with_report;
use command_changes::salvage::{ReportedVolume, salvage_with_report};
use command_faults::answer::{conclude, unremarked};
use command_faults::status::DONE;
use command_faults::{Ending, Fault};
use command_line::{Invocation, MadeFile, NewPlace, VolumeFile};
use command_reads::cat::print_file;
use command_reads::print::print_with;
use command_terms::{Migration, NodeName, Repairing};
use host_files::{ImageFiles, Stamp, UpTo, noted_writer};
use pdp_words::{Image, IntoWrite, Sink};
use std::io::Write;
use std::process::ExitCode;
use std::rt::Clock;
use vol_layout::Edition;
use vol_mkfs::NewVolume;

/// Runs the command line that was read, and returns the exit code. Output is written to `output`, which is standard output; a fault is printed as one
/// line on standard error, or as clap's text. `errors` writes to standard error too.
pub fn run_to_end<R: ImageFiles + Clock + Eprint + AllocGlobal, O: Write + Drop, E: Write + Drop>(
    host: &Surroundings<'_, R>,
    output: O,
    errors: E,
    read: Result<Invocation<'_>, Error>,
) -> ExitCode
    requires { IfOk read IsPlainCommand }
    ensures { RunsToEnd (host_files (read_at read.entry) R.File.remaining R.File.contents R.had R.stood) (O.contents output) (E.contents errors) read.entry (exit_status result) }
{
    let mut errors = IntoWrite::new(errors);
    let mut output = noted_writer(output);
    let subject = Subject::of_read(&read);
    let ended = run(host, &mut output, read);
    let status = tell_end(host, &mut errors, &ended, output.error(), subject);
    ExitCode::from(finish(host, output.into_inner().into_inner(), status))
}

/// Runs the command line that was read, and returns the result of the run, which holds if [`finish`] succeeds.
fn run<'a, R: ImageFiles + Clock + Eprint + AllocGlobal, O: Sink>(
    host: &Surroundings<'_, R>,
    output: &mut O,
    read: Result<Invocation<'a>, Error>,
) -> Result<Ending, FailedRun<'a>>
    requires { IfOk read IsPlainCommand }
    ensures runs { RunsRead (streams O.contents O.failed output.old output.new (run_fault result)) (host_files (read_at read.entry) R.File.remaining R.File.contents R.had R.stood) (run_status result) read.entry }
    ensures ends { Ends (but_remarks (may_report_read read.entry) (streams O.contents O.failed output.old output.new (run_fault result))) (run_status result) }
{
    match read {
        Ok(invocation) => carry_out(host, output, invocation),
        Err(error) => Ok(Ending {
            status: explain_command_line(host, output, &error),
            fault: None,
        }),
    }
}

/// Runs a command, and returns the result of the run.
fn carry_out<'a, R: ImageFiles + Clock + Eprint + AllocGlobal, O: Sink>(
    host: &Surroundings<'_, R>,
    output: &mut O,
    invocation: Invocation<'a>,
) -> Result<Ending, FailedRun<'a>>
    requires { IsPlainCommand invocation }
    ensures runs { Runs (streams O.contents O.failed output.old output.new (run_fault result)) (host_files (volume_at invocation.entry) R.File.remaining R.File.contents R.had R.stood) (run_status result) invocation.entry }
    ensures ends { Ends (but_remarks (may_report invocation.entry) (streams O.contents O.failed output.old output.new (run_fault result))) (run_status result) }
{
    match invocation {
        Invocation::Cat { volume, node } => run_cat(host, output, volume, node),
        Invocation::Get { volume, path } => run_get(host.rt, output, volume, path),
        Invocation::Mkfs { place, volume } => run_mkfs(host, place, volume),
        Invocation::Build { list, new } => run_build(host, list, new),
        Invocation::Migrate {
            old,
            at,
            new,
            migration,
        } => run_migrate(host, old, at, new, migration),
        Invocation::Salvage { volume, copy } => run_salvage(host, output, volume, copy),
        Invocation::Repair {
            volume,
            copy,
            repairing,
        } => run_repair(host, output, volume, copy, repairing),
        Invocation::Resize {
            volume,
            blocks,
            is_trial,
        } => run_resize(host, volume, blocks, is_trial),
        Invocation::Identify { .. }
        | Invocation::Diff { .. }
        | Invocation::LookBad { .. }
        | Invocation::RepairBad { .. }
        | Invocation::Look { .. }
        | Invocation::Change { .. }
        | Invocation::Copy { .. }
        | Invocation::Work { .. }
        | Invocation::Serve { .. } => unreachable!(),
    }
}

/// Prints the body of an i-node of the volume in a file, and returns the result of the run.
fn run_cat<'a, R: ImageFiles + Eprint + AllocGlobal, O: Sink>(
    host: &Surroundings<'_, R>,
    output: &mut O,
    volume: VolumeFile<'a>,
    node: NodeName<'_>,
) -> Result<Ending, FailedRun<'a>>
    ensures shown { PrintsBody (IsUnread R.File.remaining) (GaveAt volume.entry.at (UpTo.Volume volume.entry.edition) R.File.remaining) (O.contents output.old) (O.contents output.new)
        (O.failed output.old) (O.failed output.new) volume.entry.edition node.entry (run_status result) }
    ensures whole { run_status result ≡ 0 → O.failed output.new ≡ O.failed output.old }
    ensures silent { run_status result ≢ 0 → run_status result ≢ 3 → Keeps (O.contents output.old) (O.contents output.new) }
    ensures within { run_status result ≤ 4 }
    ensures quiet { run_fault result ≡ None }
{
    let image = Image::from_bytes(read_volume(host.rt, volume)?);
    match print_file(volume.edition, node, &image, output) {
        Ok(()) => Ok(Ending {
            status: DONE,
            fault: None,
        }),
        Err(fault) => Ok(explain_cat(host, fault, Subject::of_cat(volume, node))),
    }
}

/// Makes a new volume, saves it in its place, and returns the result of the run.
fn run_mkfs<'a, R: ImageFiles + Clock + Eprint + AllocGlobal>(
    host: &Surroundings<'_, R>,
    place: NewPlace<'a>,
    volume: NewVolume,
) -> Result<Ending, FailedRun<'a>>
    ensures { (known : Option (List ℕ)) (failed : Bool)
        → RunsMkfs (still known failed (run_fault result)) (made_in (host_files (new_place_at place.entry) R.File.remaining R.File.contents R.had R.stood) place.entry volume.blocks) volume (run_status result) }
{
    let made = make_volume(host.rt.alloc(), volume);
    let saved = save_made(host, place, volume.blocks, &made);
    after_saving(saved, made.status, made.fault)
}

/// Makes a volume of the seventh edition from the one that begins at block `at` of the file `old`, saves it in a file, and returns the result of the run.
fn run_migrate<'a, R: ImageFiles + Clock + Eprint + AllocGlobal>(
    host: &Surroundings<'_, R>,
    old: &'a str,
    at: u32,
    new: MadeFile<'a>,
    migration: Migration,
) -> Result<Ending, FailedRun<'a>>
    ensures runs { (known : Option (List ℕ)) (failed : Bool)
        → RunsMigrate (still known failed (run_fault result)) (host_files at R.File.remaining R.File.contents R.had R.stood) migration (run_status result) }
    ensures ends { (known : Option (List ℕ)) (failed : Bool) → Ends (still known failed (run_fault result)) (run_status result) }
{
    let volume = VolumeFile {
        edition: Edition::V6,
        is_any: false,
        image: old,
        at,
    };
    let (image, stamp) = read_stamped(host.rt, volume)?;
    let alloc = host.rt.alloc();
    let answer = conclude(unremarked(alloc, migrate_image(alloc, image, migration)));
    let saved = save_answer_over(host, new, stamp, &answer);
    after_saving(saved, answer.status, answer.fault)
}

/// Salvages the volume in a file, in memory; saves it in the file `copy`, if one is named; prints how its free list changed, and returns how the run ends.
fn run_salvage<'a, R: ImageFiles + Clock + Eprint + AllocGlobal, O: Sink>(
    host: &Surroundings<'_, R>,
    output: &mut O,
    volume: VolumeFile<'a>,
    copy: Option<&'a str>,
) -> Result<Ending, FailedRun<'a>>
    ensures { RunsSalvage (streams O.contents O.failed output.old output.new (run_fault result)) (host_files volume.entry.at R.File.remaining R.File.contents R.had R.stood) volume.entry.edition copy.entry (run_status result) }
{
    let (image, stamp) = read_stamped(host.rt, volume)?;
    let salvaged = match salvage_with_report(host.rt.alloc(), volume.edition, image) {
        Ok(salvaged) => salvaged,
        Err(fault) => return Ok(Ending::from(fault)),
    };
    match copy {
        Some(copy) => save_copy(host, output, copy, stamp, salvaged),
        None => Ok(print_with(&salvaged.report, DONE, output)),
    }
}

/// Repairs the volume in a file, to a copy in memory; saves it in the file `copy`, if one is named; prints all that differs, and returns how the run ends.
fn run_repair<'a, R: ImageFiles + Clock + Eprint + AllocGlobal, O: Sink>(
    host: &Surroundings<'_, R>,
    output: &mut O,
    volume: VolumeFile<'a>,
    copy: Option<MadeFile<'a>>,
    repairing: Repairing,
) -> Result<Ending, FailedRun<'a>>
    ensures { RunsRepair (streams O.contents O.failed output.old output.new (run_fault result)) (host_files volume.entry.at R.File.remaining R.File.contents R.had R.stood) volume.entry.edition copy.entry repairing (run_status result) }
{
    let (image, stamp) = read_stamped(host.rt, volume)?;
    let repaired = match repair_with_report(host.rt.alloc(), volume.edition, image, repairing) {
        Ok(repaired) => repaired,
        Err(fault) => return Ok(Ending::from(fault)),
    };
    match copy {
        Some(copy) => save_unless_kept(host, output, copy, stamp, repaired),
        None => Ok(print_with(&repaired.report, DONE, output)),
    }
}

/// Saves a volume as [`save_copy`] does, unless the file must be new and something exists at its path.
fn save_unless_kept<'a, R: ImageFiles + Clock + Eprint + AllocGlobal, O: Sink>(
    host: &Surroundings<'_, R>,
    output: &mut O,
    copy: MadeFile<'a>,
    old: Stamp,
    made: ReportedVolume,
) -> Result<Ending, FailedRun<'a>>
    ensures { SavesCopy (streams O.contents O.failed output.old output.new (run_fault result)) (IsTaken R.File.contents) R.stood made.bytes.items made.report.items (run_status result) }
{
    expect_new(host.rt, copy)?;
    save_copy(host, output, copy.path, old, made)
}

/// Saves a volume in the file `copy`, prints its report, and returns how the run ends. The file with the stamp `old`, from which
/// it was made, isn't replaced. If the file is standard output, the report goes to standard error.
fn save_copy<'a, R: ImageFiles + Clock + Eprint + AllocGlobal, O: Sink>(
    host: &Surroundings<'_, R>,
    output: &mut O,
    copy: &'a str,
    old: Stamp,
    made: ReportedVolume,
) -> Result<Ending, FailedRun<'a>>
    ensures { SavesCopy (streams O.contents O.failed output.old output.new (run_fault result)) (IsTaken R.File.contents) R.stood made.bytes.items made.report.items (run_status result) }
{
    let is_output = is_output(host.rt, copy);
    save_over(host, copy, old, &made.bytes)?;
    if is_output {
        return Ok(tell_report(made.report));
    }
    Ok(print_with(&made.report, DONE, output))
}

/// Returns the result of a run that succeeds, and has a report for standard error.
fn tell_report(report: Vec<u8>) -> Ending
    ensures status { result.status ≡ 0 }
    ensures line { line_after result.fault ≡ report.items }
{
    Ending {
        status: DONE,
        fault: Some(Fault::Worded {
            rule: None,
            lines: report,
        }),
    }
}

/// The path of standard output.
const OUTPUT: &str = "/dev/stdout";

/// True if the file at `path`, perhaps through symbolic links, is the one that standard output writes to.
pub(crate) fn is_output<R: ImageFiles>(rt: &R, path: &str) -> bool
    ensures { result ≡ true → IsOneFile R.stood }
{
    match (rt.stamp_at(path), rt.stamp_at(OUTPUT)) {
        (Ok(file), Ok(output)) => file.is_of(output),
        _ => false,
    }
}
