//! The commands that show part of an image, sound or not, which may print something with any status; and `get`, which prints the whole file or
//! nothing.
ghost use Rattle.std.specs.Prelude.{◌≡◌, ◌≤◌, IfErr, IfOk};
ghost use Rattle.std.specs.Process.{exit_status};
ghost use Rattle.command_faults.specs.Streams.{streams};
ghost use Rattle.unixvol.specs.FileFaults.{file_status, run_fault, run_status};
ghost use Rattle.unixvol.specs.Runs.{Ends, IsEndWithin, IsSeen, IsShownBy, IsUnread, LooksToEnd, RunsGetOne, RunsLook, highest_status, host_files};

use crate::explain::{explain_rules, finish_printed, tell_end};
use crate::file_fault::{FailedRun, FileFault};
use crate::host::Surroundings;
use crate::read::{read_checked, read_volume};
use crate::subject::Subject;
use command_faults::Ending;
use command_line::VolumeFile;
use command_reads::get::show_file;
use command_reads::show::perform;
use command_terms::Look;
use host_files::{ImageFiles, noted_writer};
use pdp_words::{IntoWrite, Sink};
use std::env::{self, Env};
use std::io::Write;
use std::process::ExitCode;
use vol_listing::Screen;

/// The width of a terminal if COLUMNS doesn't set it.
const COLUMNS: u16 = 80;

/// Returns the screen that standard output writes to: a terminal, with the width in the variable COLUMNS, or no terminal.
pub fn screen<R: Env + AllocGlobal>(rt: &R, is_terminal: bool) -> Screen
    ensures { IsShownBy is_terminal result }
{
    if !is_terminal {
        return Screen::Stream;
    }
    Screen::Terminal {
        columns: terminal_width(rt),
        colours: has_colours(rt),
    }
}

/// True unless the variable NO_COLOR is set and not empty, or TERM is `dumb`.
fn has_colours<R: Env + AllocGlobal>(rt: &R) -> bool {
    let refused = match env::var(rt, "NO_COLOR") {
        Ok(text) => !text.is_empty(),
        Err(_) => false,
    };
    !refused && !is_variable(rt, "TERM", "dumb")
}

/// True if the second line of faults is wanted: if the variable UNIXVOL_EXPLAIN is 1, or standard error is a terminal and it isn't 0.
pub fn wants_meanings<R: Env + AllocGlobal>(rt: &R, is_watched: bool) -> bool {
    let unasked = is_watched && !is_variable(rt, "UNIXVOL_EXPLAIN", "0");
    unasked || is_variable(rt, "UNIXVOL_EXPLAIN", "1")
}

/// True if a line may show how much of a file is read or written: if standard error is a terminal that knows how to wipe it, the variable UNIXVOL_PROGRESS
/// isn't 0, and no word is `--json`.
pub fn wants_progress<R: Env + AllocGlobal>(rt: &R, words: &[String], is_watched: bool) -> bool {
    let is_refused = words.iter().any(|word| word.as_str() == "--json")
        || is_variable(rt, "UNIXVOL_PROGRESS", "0")
        || is_variable(rt, "TERM", "dumb");
    is_watched && !is_refused
}

/// True if a variable of the environment has this value.
fn is_variable<R: Env + AllocGlobal>(rt: &R, name: &str, value: &str) -> bool {
    match env::var(rt, name) {
        Ok(text) => text.as_str() == value,
        Err(_) => false,
    }
}

/// Returns the width of the terminal in the variable COLUMNS; 80 if it isn't a number, or 0.
fn terminal_width<R: Env + AllocGlobal>(rt: &R) -> u16
    ensures { 1 ≤ result }
{
    let columns = match env::var(rt, "COLUMNS") {
        Ok(text) => text.parse().unwrap_or(0),
        Err(_) => 0,
    };
    if columns == 0 { COLUMNS } else { columns }
}

/// Shows part of the image in a file, and returns the exit code. Output is written to `output`, which is standard output, as `screen` shows it; a
/// fault is printed as one line on standard error. `errors` writes to standard error too.
pub fn run_to_end<R: ImageFiles + Eprint + AllocGlobal, O: Write + Drop, E: Write + Drop>(
    host: &Surroundings<'_, R>,
    screen: Screen,
    output: O,
    errors: E,
    volume: VolumeFile<'_>,
    look: Look<'_>,
) -> ExitCode
    ensures { LooksToEnd (host_files volume.entry.at R.File.remaining R.File.contents R.had R.stood) screen (O.contents output) (E.contents errors)
        volume.entry.edition look.entry (exit_status result) }
{
    let mut errors = IntoWrite::new(errors);
    let mut output = noted_writer(output);
    let ended = run(host.rt, screen, &mut output, volume, look);
    let subject = Subject::of_look(volume, look);
    let status = tell_end(host, &mut errors, &ended, output.error(), Some(subject));
    explain_rules(host, matches!(look, Look::Check { .. }), status);
    ExitCode::from(finish_printed(host, output.into_inner().into_inner(), status))
}

/// Shows part of the image in a file, and returns the result of the run, which holds if [`finish_printed`] succeeds.
fn run<'a, R: ImageFiles + AllocGlobal, O: Sink>(
    rt: &R,
    screen: Screen,
    output: &mut O,
    volume: VolumeFile<'a>,
    look: Look<'_>,
) -> Result<Ending, FailedRun<'a>>
    ensures runs { RunsLook (streams O.contents O.failed output.old output.new (run_fault result)) (host_files volume.entry.at R.File.remaining R.File.contents R.had R.stood) screen volume.entry.edition look.entry (run_status result) }
    ensures ends { IsEndWithin (highest_status look.entry) (streams O.contents O.failed output.old output.new (run_fault result)) (run_status result) }
{
    let image = read_seen(rt, volume, look)?;
    Ok(perform(rt.alloc(), volume.edition, image, look, screen, output))
}

/// Reads the image to show.
fn read_seen<'a, R: ImageFiles + AllocGlobal>(
    rt: &R,
    volume: VolumeFile<'a>,
    look: Look<'_>,
) -> Result<Vec<u8>, FileFault<'a>>
    ensures given { IfOk result (λ image. IsSeen (host_files volume.entry.at R.File.remaining R.File.contents R.had R.stood) volume.entry.edition look.entry image.items) }
    ensures fault { IfErr result (λ fault. IsUnread R.File.remaining (file_status fault)) }
{
    match look {
        Look::Check { .. } => read_checked(rt, volume),
        Look::List { .. }
        | Look::Export { .. }
        | Look::Sums { .. }
        | Look::Inode { .. }
        | Look::Super { .. }
        | Look::Free { .. }
        | Look::Block { .. }
        | Look::Dump { .. }
        | Look::Df { .. }
        | Look::Find { .. }
        | Look::Map { .. }
        | Look::Uses
        | Look::Slots { .. }
        | Look::ListUnsound { .. }
        | Look::ReadUnsound { .. } => read_volume(rt, volume),
    }
}

/// Prints the file at a path of the volume in a file, and returns the result of the run.
pub fn run_get<'a, R: ImageFiles + AllocGlobal, O: Sink>(
    rt: &R,
    output: &mut O,
    volume: VolumeFile<'a>,
    path: &str,
) -> Result<Ending, FailedRun<'a>>
    ensures runs { RunsGetOne (streams O.contents O.failed output.old output.new (run_fault result)) (host_files volume.entry.at R.File.remaining R.File.contents R.had R.stood) volume.entry.edition path.now (run_status result) }
    ensures ends { Ends (streams O.contents O.failed output.old output.new (run_fault result)) (run_status result) }
{
    let image = read_volume(rt, volume)?;
    Ok(show_file(rt.alloc(), volume.edition, image, path, output))
}
