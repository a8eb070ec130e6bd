//! `serve` serves a volume to a kernel until it is unmounted.
ghost use Rattle.std.specs.Prelude.{◌≡◌, ◌⊎◌, IfOk, option_map};
ghost use Rattle.std.specs.Process.{exit_status};
ghost use Rattle.command_faults.specs.Streams.{heard, says};
ghost use Rattle.command_faults.specs.declared.fault.Fault.TheVariants as faults;
ghost use Rattle.vol_layout.specs.Geometry.{Fits};
ghost use Rattle.unixvol.specs.Runs.{host_files};
ghost use Rattle.unixvol.specs.Serve.{EndsServe, Measures, RunsReadOnly, RunsServe, ServesToEnd, messages};

use crate::explain::{reason_of, tell_fault, tell_file};
use crate::file_fault::{FileFault, NamedFile};
use crate::host::Surroundings;
use crate::mounted;
use crate::read::read_volume;
use crate::subject::Subject;
use command_faults::Fault;
use command_faults::status::{DONE, NO_MEMORY, REFUSED};
use command_line::{Serving, VolumeFile};
use host_files::ImageFiles;
use pdp_words::{Image, IntoWrite, Sink};
use std::env::Env;
use std::io::{self, Read, Write};
use std::process::ExitCode;
use std::rt::Clock;
use vol_dir::Refusal;
use vol_judge::judge;
use vol_layout::Geometry;
use vol_serve::{Replies, ReplyWriter, RequestReader, Requests, ServeFault, serve};

/// The error that reading /dev/fuse returns once the volume is unmounted (ENODEV).
const UNMOUNTED: i32 = 19;

/// Serves the volume in a file, and returns the exit code. Each read of `input`, which is standard input, returns one request; each reply is written
/// with one write to `output`, which is standard output. This ends when the input ends, or when the system reports that the volume is unmounted. A
/// fault, or the first rule that the image breaks, is printed as one line on standard error; `errors` writes to standard error too.
pub fn run_to_end<
    R: ImageFiles + Env + Clock + Eprint + AllocGlobal,
    I: Read + Drop,
    O: Write + Drop,
    E: Write + Drop,
>(
    host: &Surroundings<'_, R>,
    input: I,
    output: O,
    errors: E,
    volume: VolumeFile<'_>,
    serving: Serving<'_>,
) -> ExitCode
    ensures { ServesToEnd (host_files volume.entry.at R.File.remaining R.File.contents R.had R.stood) (E.contents errors) volume.entry.edition serving.entry (exit_status result) }
{
    let mut errors = IntoWrite::new(errors);
    let mut requests = RequestReader::new(input);
    let mut replies = ReplyWriter::new(output);
    let outcome = run(
        host,
        &mut requests,
        &mut replies,
        &mut errors,
        volume,
        serving,
    );
    let (input, output) = (requests.into_fault(), replies.into_fault());
    ExitCode::from(status_of(host, outcome, input, output))
}

/// Serves the volume in a file. The inner result is the server's; the outer error is the exit status if nothing was served, or if the changes
/// couldn't be saved.
fn run<R: ImageFiles + Env + Clock + Eprint + AllocGlobal, Q: Requests, P: Replies, E: Sink>(
    host: &Surroundings<'_, R>,
    requests: &mut Q,
    replies: &mut P,
    errors: &mut E,
    volume: VolumeFile<'_>,
    serving: Serving<'_>,
) -> Result<Result<(), ServeFault>, u8>
    ensures { RunsServe (host_files volume.entry.at R.File.remaining R.File.contents R.had R.stood) volume.entry.edition serving.entry
        (says (heard E.contents E.failed errors.old errors.new)) (messages Q.taken P.sent requests.old requests.new replies.old replies.new) result }
{
    match serving {
        Serving::ReadOnly => run_read_only(host, requests, replies, errors, volume),
        Serving::Changes { is_mine, rescue } => {
            mounted::run(host, requests, replies, errors, volume, is_mine, rescue)
        }
    }
}

/// Serves the volume in a file read-only, as [`run`] does.
fn run_read_only<R: ImageFiles + Eprint + AllocGlobal, Q: Requests, P: Replies, E: Sink>(
    host: &Surroundings<'_, R>,
    requests: &mut Q,
    replies: &mut P,
    errors: &mut E,
    volume: VolumeFile<'_>,
) -> Result<Result<(), ServeFault>, u8>
    ensures { RunsReadOnly (host_files volume.entry.at R.File.remaining R.File.contents R.had R.stood) volume.entry.edition
        (says (heard E.contents E.failed errors.old errors.new)) (messages Q.taken P.sent requests.old requests.new replies.old replies.new) result }
{
    let image = match read_volume(host.rt, volume) {
        Ok(image) => Image::from_bytes(image),
        Err(fault) => return Err(tell_file(host, &fault)),
    };
    let geometry = measure(host, errors, &image, volume)?;
    Ok(serve(host.rt.alloc(), &image, &geometry, requests, replies))
}

/// Returns the geometry of an image that can be served. Prints the line of the first rule that the image breaks, if any. If that rule is 1 or 2,
/// returns the status as an error. If memory ran out, prints that and returns its status.
fn measure<R: ImageFiles + Eprint + AllocGlobal, E: Sink>(
    host: &Surroundings<'_, R>,
    errors: &mut E,
    image: &Image,
    volume: VolumeFile<'_>,
) -> Result<Geometry, u8>
    ensures measures { Measures volume.entry.edition image.now (says (heard E.contents E.failed errors.old errors.new)) result }
    ensures fits { IfOk result (λ geometry. Fits geometry image.now) }
{
    let subject = Some(Subject::of_serve(volume));
    let Ok(least) = judge(host.rt.alloc(), volume.edition, image, true) else {
        let fault = Some(Fault::Refused(Refusal::NoMemory));
        tell_fault(host, errors, &fault, None, subject);
        return Err(NO_MEMORY);
    };
    tell_fault(host, errors, &broken(least), None, subject);
    match Geometry::read(volume.edition, image) {
        Ok(geometry) => Ok(geometry),
        Err(_) => Err(REFUSED),
    }
}

/// Returns the fault for a broken rule, if there is one.
fn broken(least: Option<u8>) -> Option<Fault>
    ensures { result ≡ option_map faults.Unsound least }
{
    match least {
        Some(rule) => Some(Fault::Unsound(rule)),
        None => None,
    }
}

/// Returns the exit status. `input` is the error that ended the requests, if any, and `output` is the error of a reply that couldn't be written.
/// Prints that a stream failed, or that memory ran out.
fn status_of<R: Eprint + AllocGlobal>(
    host: &Surroundings<'_, R>,
    outcome: Result<Result<(), ServeFault>, u8>,
    input: Option<io::Error>,
    output: Option<io::Error>,
) -> u8
    ensures { EndsServe outcome result }
{
    match outcome {
        Ok(Ok(())) => status_at_end(host, input),
        Ok(Err(ServeFault::Send)) => {
            let why = reason_of(output);
            tell_file(host, &FileFault::Unwritten(NamedFile::Output, why))
        }
        Ok(Err(ServeFault::NoMemory)) => tell_file(host, &FileFault::NoMemory),
        Ok(Err(ServeFault::Requests)) => {
            tell_file(host, &FileFault::Unread(NamedFile::Input, reason_of(input)))
        }
        Err(status) => status,
    }
}

/// Returns the status after the last request. If a read failed, prints the fault, unless the volume was unmounted.
fn status_at_end<R: Eprint + AllocGlobal>(
    host: &Surroundings<'_, R>,
    input: Option<io::Error>,
) -> u8
    ensures { (result ≡ 0) ⊎ (result ≡ 3) }
{
    match input {
        Some(why) if why.raw_os_error() != Some(UNMOUNTED) => {
            tell_file(host, &FileFault::Unread(NamedFile::Input, why))
        }
        _ => DONE,
    }
}
