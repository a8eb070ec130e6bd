//! `diff`, which shows how the volumes in two files differ.
ghost use Rattle.std.specs.Prelude.{◌≡◌, IfErr, IfOk};
ghost use Rattle.std.specs.Process.{exit_status};
ghost use Rattle.command_faults.specs.Streams.{streams};
ghost use Rattle.unixvol.specs.Compare.{ComparesToEnd, RunsDiff};
ghost use Rattle.unixvol.specs.FileFaults.{file_status, run_fault, run_status};
ghost use Rattle.unixvol.specs.Runs.{IsUnread, host_files};

use crate::explain::{finish_printed, tell_end};
use crate::file_fault::{FailedRun, FileFault};
use crate::host::Surroundings;
use crate::read::read_volume;
use crate::subject::Subject;
use command_faults::{Ending, Fault};
use command_line::VolumeFile;
use command_reads::diff::{NamedImage, push_unsound_line};
use command_reads::show_comparison;
use command_terms::Comparison;
use host_files::{ImageFiles, noted_writer};
use pdp_words::{IntoWrite, Sink};
use std::alloc::Global;
use std::io::Write;
use std::process::ExitCode;

/// Shows how the volumes in two files differ, and returns the exit code. Output is written to `output`, which is standard output; a
/// fault and remarks are printed on standard error. `errors` writes to standard error too.
pub fn run_to_end<R: ImageFiles + Eprint + AllocGlobal, O: Write + Drop, E: Write + Drop>(
    host: &Surroundings<'_, R>,
    output: O,
    errors: E,
    volume: VolumeFile<'_>,
    other: &str,
    by: Comparison,
) -> ExitCode
    ensures { ComparesToEnd (host_files volume.entry.at R.File.remaining R.File.contents R.had R.stood) (O.contents output) (E.contents errors)
        volume.entry other.now by (exit_status result) }
{
    let mut errors = IntoWrite::new(errors);
    let mut output = noted_writer(output);
    let ended = run(host.rt, &mut output, volume, other, by);
    let subject = subject_of(host.rt.alloc(), volume, other, &ended);
    let status = tell_end(host, &mut errors, &ended, output.error(), Some(subject));
    ExitCode::from(finish_printed(host, output.into_inner().into_inner(), status))
}

/// Returns the subject of a comparison: the image that the last line of its fault names, or else the old one.
fn subject_of<'a>(
    alloc: Global,
    volume: VolumeFile<'a>,
    other: &'a str,
    ended: &Result<Ending, FailedRun<'_>>,
) -> Subject<'a> {
    let image = match ended {
        Ok(
            Ending {
                fault: Some(
                    Fault::Worded {
                        rule: Some(rule),
                        lines,
                    },
                ),
                ..
            },
        ) if is_about(alloc, lines, *rule, other) => other,
        _ => volume.image,
    };
    Subject::of_diff(VolumeFile { image, ..volume })
}

/// True if the last of some lines is that of an image in a file of this name, which breaks a rule.
fn is_about(alloc: Global, lines: &[u8], rule: u8, name: &str) -> bool {
    let mut line = Vec::new(alloc);
    match push_unsound_line(alloc, &mut line, rule, name) {
        Ok(()) => lines.ends_with(&line),
        Err(_) => false,
    }
}

/// Shows how the volumes in two files differ, and returns the result of the run, which holds if [`finish_printed`] succeeds.
fn run<'a, R: ImageFiles + AllocGlobal, O: Sink>(
    rt: &R,
    output: &mut O,
    volume: VolumeFile<'a>,
    other: &'a str,
    by: Comparison,
) -> Result<Ending, FailedRun<'a>>
    ensures { RunsDiff (streams O.contents O.failed output.old output.new (run_fault result))
        (host_files volume.entry.at R.File.remaining R.File.contents R.had R.stood) volume.entry other.now by (run_status result) }
{
    let old = read_named(rt, volume)?;
    let second = VolumeFile {
        image: other,
        ..volume
    };
    let new = read_named(rt, second)?;
    Ok(show_comparison(rt.alloc(), volume.edition, old, new, by, output))
}

/// Reads the image in a file.
fn read_named<'a, R: ImageFiles + AllocGlobal>(
    rt: &R,
    volume: VolumeFile<'a>,
) -> Result<NamedImage<'a>, FileFault<'a>>
    ensures given { IfOk result (λ image. (host_files volume.entry.at R.File.remaining R.File.contents R.had R.stood).shown volume.entry.edition image.bytes.items) }
    ensures name { IfOk result (λ image. image.name.now ≡ volume.entry.image.now) }
    ensures fault { IfErr result (λ fault. IsUnread R.File.remaining (file_status fault)) }
{
    let bytes = read_volume(rt, volume)?;
    Ok(NamedImage {
        name: volume.image,
        bytes,
    })
}
