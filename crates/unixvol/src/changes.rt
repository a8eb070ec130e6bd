//! The commands that change a volume: opening and saving their files.
ghost use Rattle.std.specs.Prelude.{◌≡◌, ◌+◌, ◌*◌, ◌/◌, ◌^◌, ◌≤◌, min, ℕ, IfErr, IfOk, List};
ghost use Rattle.std.specs.Process.{exit_status};
ghost use Rattle.command_faults.specs.Streams.{streams};
ghost use Rattle.unixvol.specs.FileFaults.{file_status, run_fault, run_status};
ghost use Rattle.unixvol.specs.Runs.{ChangesToEnd, EndsWith, GaveArchive, GavePut, IsGivenTo, IsUngiven, IsUnread, RunsChange, host_files, host_input, wants_terminal};

use crate::explain::{finish, tell_end};
use crate::file_fault::{FailedRun, FileFault, NamedFile};
use crate::host::Surroundings;
use crate::packed::packed_words;
use crate::read::{expect_volume, read_given, read_image, read_open};
use crate::save::save_traced;
use crate::subject::Subject;
use command_changes::change::perform;
use command_changes::{GivenFile, Kept};
use command_faults::Ending;
use command_line::VolumeFile;
use command_terms::{Change, Needs};
use host_files::{FileKind, ImageFiles, UpTo, noted_writer};
use pdp_words::{IntoWrite, Sink};
use std::io::{self, Read, Write};
use std::process::ExitCode;
use std::rt::Clock;

/// The message if an archive is needed from standard input, but standard input is a terminal.
const TERMINAL: &str = "it is a terminal, which gives no archive";

/// The number of blocks that an archive may have with an image of any size: 64 MiB.
const LEAST_ROOM: u32 = 131_072;

/// The number of further blocks that an archive may have for each block of the image: a member may have several header blocks, and use an i-node and
/// a directory entry.
const ROOM: u32 = 64;

/// More blocks than any volume has.
const GREATEST: u64 = 1 << 24;

/// Changes the volume in a file, and returns the exit code. An archive is read from `input`, which is standard input; if this is a terminal, nothing
/// is opened. A fault is printed as one line on standard error; `errors` writes to standard error too. If `trace`, what each call changed is written to
/// `output`, which is standard output, once the volume is saved; otherwise nothing is.
pub fn run_to_end<
    R: ImageFiles + Clock + Eprint + AllocGlobal,
    I: Read + Drop,
    O: Write + Drop,
    E: Write + Drop,
>(
    host: &Surroundings<'_, R>,
    input: I,
    is_terminal: bool,
    output: O,
    errors: E,
    volume: VolumeFile<'_>,
    change: Change<'_>,
    trace: bool,
) -> ExitCode
    ensures { ChangesToEnd (host_files volume.entry.at R.File.remaining R.File.contents R.had R.stood) (host_input I.remaining) is_terminal (O.contents output) (E.contents errors)
        volume.entry.edition change.entry trace (exit_status result) }
{
    let mut errors = IntoWrite::new(errors);
    let mut output = noted_writer(output);
    let mut packed = None;
    let ended = run(
        host,
        input,
        is_terminal,
        &mut output,
        volume,
        change,
        trace,
        &mut packed,
    );
    let subject = Subject::of_change(volume, change).with_packed(packed);
    let status = tell_end(host, &mut errors, &ended, output.error(), Some(subject));
    ExitCode::from(finish(host, output.into_inner().into_inner(), status))
}

/// Changes the volume in a file, saves it, prints its trace if `trace`, and returns the result of the run. If the bytes to import are a compressed file, sets
/// `packed` to the message for it.
fn run<'a, R: ImageFiles + Clock + Eprint + AllocGlobal, I: Read + Drop, O: Sink>(
    host: &Surroundings<'_, R>,
    input: I,
    is_terminal: bool,
    output: &mut O,
    volume: VolumeFile<'a>,
    change: Change<'a>,
    trace: bool,
    packed: &mut Option<&'static str>,
) -> Result<Ending, FailedRun<'a>>
    ensures { (lines : List ℕ)
        × RunsChange (streams O.contents O.failed output.old output.new (run_fault result)) (host_files volume.entry.at R.File.remaining R.File.contents R.had R.stood) (host_input I.remaining) is_terminal volume.entry.edition change.entry trace lines (run_status result)
        × EndsWith lines (streams O.contents O.failed output.old output.new (run_fault result)) (run_status result) }
{
    let needs = change.needs();
    if wants_terminal(is_terminal, needs) {
        let why = io::Error::other(TERMINAL);
        return Err(FailedRun::from(FileFault::Unread(NamedFile::Input, why)));
    }
    expect_volume(host.rt, volume)?;
    let given = given_to(host.rt, volume, input, needs)?;
    // The image's file stays open, and so locked, until the result is saved.
    let (image, stamp, _locked) = read_image(host, volume)?;
    *packed = packed_words(&given.bytes);
    let outcome = perform(host.rt.alloc(), volume.edition, image, given, change, trace);
    save_traced(host.rt, volume, stamp, outcome, output)
}

/// True if an archive is needed from standard input, which is a terminal.
fn wants_terminal(is_terminal: bool, needs: Needs<'_>) -> bool
    ensures { result ≡ wants_terminal is_terminal needs.entry }
{
    matches!(needs, Needs::Archive) && is_terminal
}

/// Returns the bytes that a change needs, with what is kept of their file; none if it needs nothing.
fn given_to<'a, R: ImageFiles + AllocGlobal, I: Read + Drop>(
    rt: &R,
    volume: VolumeFile<'_>,
    input: I,
    needs: Needs<'a>,
) -> Result<GivenFile, FileFault<'a>>
    ensures given { IfOk result (IsGivenTo (GavePut volume.entry.edition R.File.remaining) (GaveArchive I.remaining) needs.entry) }
    ensures fault { IfErr result (λ fault. IsUngiven (IsUnread R.File.remaining) (IsUnread I.remaining) needs.entry (file_status fault)) }
{
    match needs {
        Needs::File { file, keep } => read_given(rt, volume.edition, file, keep),
        Needs::Archive => {
            let up_to = UpTo::Archive(archive_room(rt, volume.image));
            let read = read_open(rt.alloc(), NamedFile::Input, up_to, input)?;
            Ok(with_nothing(read.bytes))
        }
        Needs::Nothing => Ok(with_nothing(Vec::new(rt.alloc()))),
    }
}

/// Returns bytes that aren't those of a file to put.
fn with_nothing(bytes: Vec<u8>) -> GivenFile
    ensures bytes { result.bytes ≡ bytes }
    ensures kept { result.kept ≡ Kept.Nothing }
{
    GivenFile {
        bytes,
        kept: Kept::Nothing,
    }
}

/// Returns the number of blocks that an archive may have if it is imported into the image at a path. If the image isn't a regular file, this is the
/// number for the largest volume.
fn archive_room<R: ImageFiles>(rt: &R, path: &str) -> u32
    ensures { 131072 ≤ result }
{
    match rt.stamp_at(path) {
        Ok(stamp) if stamp.kind == FileKind::Regular => room_for(stamp.size),
        _ => room_for(u64::MAX),
    }
}

/// Returns the number of blocks that an archive may have if it is imported into an image of `size` bytes.
fn room_for(size: u64) -> u32
    ensures { result ≡ 131072 + 64 * min (size / 512) (2 ^ 24) }
{
    LEAST_ROOM + ROOM * (size / 512).min(GREATEST) as u32
}
