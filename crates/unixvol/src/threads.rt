//! The commands that run in several threads. Their contracts say nothing about runs that don't return.
ghost use Rattle.std.specs.Prelude.{◌≤◌, length};
ghost use Rattle.std.specs.Process.{exit_status};
ghost use Rattle.command_words.specs.Invocations.{IsWorkable};
ghost use Rattle.command_faults.specs.Streams.{streams};
ghost use Rattle.unixvol.specs.FileFaults.{run_fault, run_status};
ghost use Rattle.unixvol.specs.Runs.{IsEnd, RunsCheck, RunsPlay, RunsWork, WorksToEnd, host_files};

use crate::explain::{finish_printed, tell_end};
use crate::file_fault::{FailedRun, after_saving};
use crate::host::Surroundings;
use crate::read::{expect_volume, read_image, read_scripts, read_volume};
use crate::save::save_played;
use crate::subject::Subject;
use command_faults::Ending;
use command_line::{VolumeFile, Work};
use command_reads::checkers;
use command_terms::{OutputForm, PlayForm};
use host_files::{ImageFiles, noted_writer};
use pdp_words::{IntoWrite, Sink};
use std::io::Write;
use std::process::ExitCode;
use std::rt::Clock;
use std::sync::Wait;
use std::thread::Threads;
use vol_check::{Checker, MOST_WORKERS, Open};
use vol_listing::Screen;

/// Runs a command with several threads on the volume in a file, and returns the exit code. Output is written to `output`, which is standard output,
/// as `screen` shows it; a fault is printed as one line on standard error. `errors` writes to standard error too.
pub fn run_to_end<
    R: ImageFiles + Clock + Eprint + AllocGlobal + Threads + Wait + Sync,
    O: Write + Drop,
    E: Write + Drop,
>(
    host: &Surroundings<'_, R>,
    screen: Screen,
    output: O,
    errors: E,
    volume: VolumeFile<'_>,
    work: Work<'_>,
) -> ExitCode
    requires { IsWorkable work }
    ensures { WorksToEnd (host_files volume.entry.at R.File.remaining R.File.contents R.had R.stood) screen (O.contents output) (E.contents errors)
        volume.entry.edition work.entry (exit_status result) }
{
    let mut errors = IntoWrite::new(errors);
    let mut output = noted_writer(output);
    let ended = run(host, screen, &mut output, volume, &work);
    let subject = Subject::of_work(volume, &work);
    let status = tell_end(host, &mut errors, &ended, output.error(), Some(subject));
    ExitCode::from(finish_printed(host, output.into_inner().into_inner(), status))
}

/// Runs a command with several threads on the volume in a file, and returns the result of the run, which holds if [`finish_printed`] succeeds.
fn run<'a, R: ImageFiles + Clock + Eprint + AllocGlobal + Threads + Wait + Sync, O: Sink>(
    host: &Surroundings<'_, R>,
    screen: Screen,
    output: &mut O,
    volume: VolumeFile<'a>,
    work: &Work<'a>,
) -> Result<Ending, FailedRun<'a>>
    requires { IsWorkable work.now }
    ensures runs { RunsWork (streams O.contents O.failed output.old output.new (run_fault result)) (host_files volume.entry.at R.File.remaining R.File.contents R.had R.stood) screen volume.entry.edition work.now (run_status result) }
    ensures ends { IsEnd (streams O.contents O.failed output.old output.new (run_fault result)) (run_status result) }
{
    match work {
        Work::Check {
            checker,
            workers,
            form,
        } => run_check(host.rt, screen, output, volume, *checker, *workers, *form),
        Work::Play {
            scripts,
            journal,
            form,
        } => run_play(host, output, volume, scripts, *journal, *form),
    }
}

/// Prints a checker's findings on the volume in a file, found by `workers` threads, and returns the result of the run.
fn run_check<'a, R: ImageFiles + AllocGlobal + Threads + Wait + Sync, O: Sink>(
    rt: &R,
    screen: Screen,
    output: &mut O,
    volume: VolumeFile<'a>,
    checker: Checker,
    workers: usize,
    form: OutputForm,
) -> Result<Ending, FailedRun<'a>>
    requires first { 1 ≤ workers }
    requires last { workers ≤ MOST_WORKERS }
    ensures { RunsCheck (streams O.contents O.failed output.old output.new (run_fault result)) (host_files volume.entry.at R.File.remaining R.File.contents R.had R.stood) screen volume.entry.edition checker form (run_status result) }
{
    let image = read_volume(rt, volume)?;
    Ok(checkers::perform(
        rt,
        rt.alloc(),
        volume.edition,
        image,
        checker,
        workers,
        form,
        screen,
        output,
    ))
}

/// Plays the scripts in some files on the volume in a file, each in its own thread, prints the results in this form, saves the volume, and returns the
/// result of the run.
fn run_play<'a, R: ImageFiles + Clock + Eprint + AllocGlobal + Threads + Wait + Sync, O: Sink>(
    host: &Surroundings<'_, R>,
    output: &mut O,
    volume: VolumeFile<'a>,
    scripts: &[&'a str],
    journal: bool,
    form: PlayForm,
) -> Result<Ending, FailedRun<'a>>
    requires first { 1 ≤ length scripts.now }
    requires last { length scripts.now ≤ 64 }
    ensures { RunsPlay (streams O.contents O.failed output.old output.new (run_fault result)) (host_files volume.entry.at R.File.remaining R.File.contents R.had R.stood) volume.entry.edition (length scripts.now) journal form (run_status result) }
{
    expect_volume(host.rt, volume)?;
    let files = read_scripts(host.rt, scripts)?;
    // The image's file stays open, and so locked, until the result is saved.
    let (image, stamp, _locked) = read_image(host, volume)?;
    let answer = vol_play::perform(
        host.rt,
        host.rt.alloc(),
        volume.edition,
        image,
        files,
        journal,
        form,
        &Open,
        output,
    );
    let saved = save_played(host.rt, volume, stamp, &answer);
    after_saving(saved, answer.status, answer.fault)
}
