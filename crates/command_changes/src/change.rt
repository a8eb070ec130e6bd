//! Makes the change that the command line requests.
ghost use Rattle.command_faults.specs.Outcomes.{IsAmong, Concludes};
ghost use Rattle.command_faults.specs.Streams.{Hears, heard, streams};
ghost use Rattle.command_changes.specs.Changes.{changed};

use crate::boot::boot;
use crate::chmod::chmod;
use crate::chown::chown;
use crate::import::import_archive;
use crate::kept::GivenFile;
use crate::ln::ln;
use crate::mkdir::{mkdir, mkdir_all};
use crate::mknod::mknod;
use crate::mv::mv;
use crate::put::put;
use crate::rm::{rm, rm_all};
use crate::rmdir::rmdir;
use crate::salvage::salvage;
use crate::touch::touch;
use crate::traced::traced;
use command_faults::answer::{conclude, tell, unremarked};
use command_faults::{Answer, Fault, Remarked};
use command_terms::Change;
use pdp_words::Sink;
use std::alloc::Global;
use vol_dir::Cred;
use vol_layout::Edition;

/// Makes a change as [`perform`] does, and writes the line of a fault to `errors`. Writes nothing to `_output`.
pub fn do_change<O: Sink, E: Sink>(
    alloc: Global,
    edition: Edition,
    image: Vec<u8>,
    given: GivenFile,
    change: Change<'_>,
    trace: bool,
    _output: &mut O,
    errors: &mut E,
) -> Answer
    ensures outcome { Concludes (changed edition image.items given change.entry trace)
        (streams O.contents O.failed _output.old _output.new result.fault) result }
    ensures told { Hears (heard E.contents E.failed errors.old errors.new) result.fault }
{
    let answer = conclude(perform(alloc, edition, image, given, change, trace));
    tell(&answer.fault, errors);
    answer
}

/// Makes a change of the volume in an image, with calls as user 0, all or none. `given` holds the bytes of the file to put and what it gets besides
/// them, or those of the boot program or of the archive to import. If `trace` is true, the outcome has the trace of the calls; `salvage` and `boot` have
/// none.
///
/// Takes memory to mount the image and for the calls, costs as much as the calls, and needs no right to wait. For a trace, takes the memory and the time of
/// [`vol_trace::trace_of`] too.
pub fn perform(
    alloc: Global,
    edition: Edition,
    image: Vec<u8>,
    given: GivenFile,
    change: Change<'_>,
    trace: bool,
) -> Result<Remarked, Fault>
    ensures { IsAmong (changed edition image.items given change.entry trace) result }
{
    let GivenFile { bytes, kept } = given;
    let made = match change {
        Change::Import { path, options, now } => {
            return import_archive(alloc, edition, image, bytes, path, options, now, trace);
        }
        Change::Salvage => return unremarked(alloc, salvage(alloc, edition, image)),
        Change::Boot { .. } => return unremarked(alloc, boot(alloc, edition, image, &bytes)),
        Change::Put {
            path,
            owner,
            now,
            ..
        } => {
            let file = GivenFile { bytes, kept };
            put(alloc, edition, image, path, file, owner, now)
        }
        Change::RmAll { path, now } => rm_all(alloc, edition, image, path, now),
        Change::MkdirAll { path, owner, now } => {
            mkdir_all(alloc, edition, image, path, owner, now)
        }
        Change::Mv { from, to, now } => mv(alloc, edition, image, from, to, now),
        Change::Touch { path, now } => touch(alloc, edition, image, path, now),
        Change::Rm { path, now } => rm(alloc, edition, image, path, now),
        Change::Rmdir { path, now } => rmdir(alloc, edition, image, path, now),
        Change::Mkdir { path, owner, now } => mkdir(alloc, edition, image, path, owner, now),
        Change::Ln { from, to, now } => ln(alloc, edition, image, from, to, now),
        Change::Chmod { path, change, now } => chmod(alloc, edition, image, path, change, now),
        Change::Chown {
            path,
            uid,
            gid,
            now,
        } => chown(alloc, edition, image, path, Cred { uid, gid }, now),
        Change::Mknod {
            path,
            device,
            change,
            owner,
            now,
        } => mknod(alloc, edition, image, path, device, change, owner, now),
    };
    traced(alloc, made, trace)
}
