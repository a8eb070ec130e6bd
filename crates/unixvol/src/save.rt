//! Saves the result of a command in its file.
ghost use Rattle.std.specs.Prelude.{◌≡◌, ◌≢◌, IfErr, IfSome, IsSome, OnOk};
ghost use Rattle.command_faults.specs.Faults.{line_after};
ghost use Rattle.command_faults.specs.Streams.{streams};
ghost use Rattle.unixvol.specs.FileFaults.{file_status, run_fault, run_status, saved_status};
ghost use Rattle.unixvol.specs.Runs.{IsStatusOfFileOrMemory, IsMadeAt, IsSavedAs, IsStored, EndsPlayed, host_files, made_in, new_place_at};
ghost use Rattle.unixvol.specs.Traces.{EndsTraced, IsQuiet, PrintsText, PrintsTrace};
ghost use Rattle.host_files.specs.Save.{IsTaken};

use crate::file_fault::{FailedRun, FileFault, NamedFile};
use crate::host::Surroundings;
use crate::place::{expect_device, expect_room};
use crate::replaced::{held_at, tell_replaced};
use command_changes::MadeVolume;
use command_faults::answer::conclude;
use command_faults::status::{BAD_FILE, DONE};
use command_faults::{Answer, Ending, Fault, Remarked};
use command_line::{MadeFile, NewPlace, VolumeFile};
use host_files::{
    Content, FileKind, ImageFiles, Marks, OpenFault, Stamp, VolumePart, open_image, save_file,
    save_marked, save_volume,
};
use pack_files::Growth;
use pdp_words::{BLOCK, Sink, write_all};
use std::io;
use std::rt::Clock;
use vol_mkfs::BlankVolume;

/// The message if the file to write holds what was read.
const WAS_READ: &str = "it holds what was read, which is kept";

/// Saves the result of a command in its place in the volume's file, if there is a result and the file still has the stamp `read`.
pub fn save_answer<'a, R: ImageFiles + AllocGlobal>(
    rt: &R,
    volume: VolumeFile<'a>,
    read: Stamp,
    answer: &Answer,
) -> Result<(), FileFault<'a>>
    ensures saved { OnOk result (IfSome answer.now.image (λ bytes. IsStored volume.entry.at bytes.items R.File.remaining R.File.contents R.had × R.stood read)) }
    ensures fault { IfErr result (λ fault. IsSome answer.now.image × IsStatusOfFileOrMemory (file_status fault)) }
{
    match &answer.image {
        Some(bytes) => save_bytes(rt, volume, read, bytes),
        None => Ok(()),
    }
}

/// Saves the bytes of a volume in its place in the volume's file, if the file still has the stamp `read`.
pub fn save_bytes<'a, R: ImageFiles + AllocGlobal>(
    rt: &R,
    volume: VolumeFile<'a>,
    read: Stamp,
    bytes: &[u8],
) -> Result<(), FileFault<'a>>
    ensures saved { OnOk result (IsStored volume.entry.at bytes.now R.File.remaining R.File.contents R.had × R.stood read) }
    ensures fault { IfErr result (λ fault. IsStatusOfFileOrMemory (file_status fault)) }
{
    match save_volume(rt, volume.image, read, part_of(volume, bytes)) {
        Ok(()) => Ok(()),
        Err(why) => Err(FileFault::unsaved(volume.image, why)),
    }
}

/// Ends the run of a command with this outcome: saves the volume as [`save_answer`] does, and then prints the trace on `output`, if there is one. If
/// standard output fails, the volume is saved, and the status is 3.
pub fn save_traced<'a, R: ImageFiles + AllocGlobal, O: Sink>(
    rt: &R,
    volume: VolumeFile<'a>,
    read: Stamp,
    outcome: Result<Remarked, Fault>,
    output: &mut O,
) -> Result<Ending, FailedRun<'a>>
    ensures { EndsTraced (λ bytes. IsStored volume.entry.at bytes R.File.remaining R.File.contents R.had × R.stood read) outcome
        (streams O.contents O.failed output.old output.new (run_fault result)) (run_status result) }
{
    let answer = conclude(outcome);
    match save_answer(rt, volume, read, &answer) {
        Ok(()) => Ok(print_trace(answer, output)),
        Err(file) => Err(FailedRun {
            file,
            fault: answer.fault,
        }),
    }
}

/// Prints the trace of an answer whose bytes, if it has any, were saved, if it has one, and returns the result of the run.
#[tactic(auto, using(crate::proofs::Traced::kept_same))]
fn print_trace<O: Sink>(answer: Answer, output: &mut O) -> Ending
    ensures unsaved { answer.status ≢ 0
        → IsQuiet answer.status (line_after answer.fault) (streams O.contents O.failed output.old output.new result.fault) result.status }
    ensures saved { answer.status ≡ 0
        → PrintsTrace answer.trace (line_after answer.fault) (streams O.contents O.failed output.old output.new result.fault) result.status }
{
    let Answer {
        status,
        trace,
        fault,
        ..
    } = answer;
    if status != DONE {
        return Ending { status, fault };
    }
    match trace {
        Some(text) => print_text(&text, fault, output),
        None => Ending { status, fault },
    }
}

/// Prints a text, and returns the result of a run with these lines, if any; or that standard output failed.
fn print_text<O: Sink>(text: &[u8], fault: Option<Fault>, output: &mut O) -> Ending
    ensures { PrintsText text.now (line_after fault) (streams O.contents O.failed output.old output.new result.fault) result.status }
{
    match write_all(output, text) {
        Ok(()) => Ending {
            status: DONE,
            fault,
        },
        Err(_) => Ending::from(Fault::Output),
    }
}

/// Returns the bytes of a volume, with its place in its file.
pub fn part_of<'a>(volume: VolumeFile<'_>, bytes: &'a [u8]) -> VolumePart<'a>
    ensures at { result.at ≡ volume.entry.at }
    ensures bytes { result.bytes.now ≡ bytes.entry.now }
{
    VolumePart {
        at: volume.at,
        bytes,
    }
}

/// Saves the volume on which scripts were played in its place in its file, as [`save_answer`] does. If standard output failed, there is no fault even if saving
/// fails too, so that only the line for standard output is printed.
pub fn save_played<'a, R: ImageFiles + AllocGlobal>(
    rt: &R,
    volume: VolumeFile<'a>,
    read: Stamp,
    answer: &Answer,
) -> Result<(), FileFault<'a>>
    ensures { EndsPlayed (λ bytes. IsStored volume.entry.at bytes R.File.remaining R.File.contents R.had × R.stood read) answer.now (saved_status answer.now.status result) }
{
    if answer.status != BAD_FILE {
        return save_answer(rt, volume, read, answer);
    }
    if let Some(bytes) = &answer.image {
        let _ = save_volume(rt, volume.image, read, part_of(volume, bytes));
    }
    Ok(())
}

/// The message for a file that exists and must not be replaced.
const THERE: &str = "it is there already, and --new replaces no file";

/// Saves the result of `mkfs`, a volume of `blocks` blocks, in its place, if there is one.
pub fn save_made<'a, R: ImageFiles + Clock + Eprint + AllocGlobal>(
    host: &Surroundings<'_, R>,
    place: NewPlace<'a>,
    blocks: u32,
    made: &MadeVolume,
) -> Result<(), FileFault<'a>>
    ensures saved { OnOk result (IfSome made.now.volume (IsSavedAs (made_in (host_files (new_place_at place.entry) R.File.remaining R.File.contents R.had R.stood) place.entry blocks))) }
    ensures fault { IfErr result (λ fault. IsSome made.now.volume × IsStatusOfFileOrMemory (file_status fault)) }
{
    let Some(volume) = &made.volume else {
        return Ok(());
    };
    match place {
        NewPlace::File(file) => save_made_file(host, file, blocks, volume),
        NewPlace::Part { image, at } => {
            let growth = Growth {
                at,
                had: 0,
                gets: blocks,
            };
            save_made_part(host, image, growth, volume)
        }
    }
}

/// Saves a new volume of `blocks` blocks in a file to make. An existing regular file is locked meanwhile, if it can be opened.
fn save_made_file<'a, R: ImageFiles + Clock + Eprint + AllocGlobal>(
    host: &Surroundings<'_, R>,
    file: MadeFile<'a>,
    blocks: u32,
    volume: &BlankVolume,
) -> Result<(), FileFault<'a>>
    ensures saved { OnOk result (IsSavedAs (IsTaken R.File.contents) volume.now) }
    ensures fault { IfErr result (λ fault. IsStatusOfFileOrMemory (file_status fault)) }
{
    expect_new(host.rt, file)?;
    expect_device(host.rt, file.path, BLOCK as u64 * u64::from(blocks))?;
    let _locked = match lock_replaced(host, file.path) {
        Ok(locked) => locked,
        Err(why) => return Err(FileFault::unsaved(file.path, why)),
    };
    let held = held_at(host, file.path);
    match save_file(host.rt, file.path, Content::Volume(volume)) {
        Ok(()) => {
            tell_replaced(host, file.path, held);
            Ok(())
        }
        Err(why) => Err(FileFault::unsaved(file.path, why)),
    }
}

/// Saves a new volume in its place in an existing file. The file must be a regular one that has all its blocks, and none of them may be another volume's. It
/// is locked meanwhile.
///
/// Takes memory for the volume.
fn save_made_part<'a, R: ImageFiles + Clock + Eprint + AllocGlobal>(
    host: &Surroundings<'_, R>,
    image: &'a str,
    place: Growth,
    volume: &BlankVolume,
) -> Result<(), FileFault<'a>>
    ensures saved { OnOk result (IsSavedAs (IsMadeAt (host_files place.at R.File.remaining R.File.contents R.had R.stood) place) volume.now) }
    ensures fault { IfErr result (λ fault. IsStatusOfFileOrMemory (file_status fault)) }
{
    let (_locked, stamp) = open_made(host, image)?;
    expect_room(host.rt, image, stamp, place)?;
    let Ok(bytes) = volume.to_bytes(host.rt.alloc()) else {
        return Err(FileFault::NoMemory);
    };
    let part = VolumePart {
        at: place.at,
        bytes: &bytes,
    };
    match save_volume(host.rt, image, stamp, part) {
        Ok(()) => Ok(()),
        Err(why) => Err(FileFault::unsaved(image, why)),
    }
}

/// Opens and locks the file in which a volume is made.
fn open_made<'a, R: ImageFiles + Clock + Eprint>(
    host: &Surroundings<'_, R>,
    image: &'a str,
) -> Result<(R::File, Stamp), FileFault<'a>>
    ensures { IfErr result (λ fault. IsStatusOfFileOrMemory (file_status fault)) }
{
    match open_image(host.rt, image, host.is_watched) {
        Ok(opened) => Ok(opened),
        Err(OpenFault::Unread(why) | OpenFault::Stream(why) | OpenFault::Locked(why)) => {
            Err(FileFault::Unwritten(NamedFile::File(image), why))
        }
    }
}

/// Checks that nothing exists at the path of a file that must be new.
pub fn expect_new<'a, R: ImageFiles>(rt: &R, file: MadeFile<'a>) -> Result<(), FileFault<'a>>
    ensures { IfErr result (λ fault. IsStatusOfFileOrMemory (file_status fault)) }
{
    if file.is_new && rt.is_there(file.path) {
        let why = io::Error::other(THERE);
        return Err(FileFault::Unwritten(NamedFile::File(file.path), why));
    }
    Ok(())
}

/// Saves the result of `migrate` or `build` in a file, if there is one, as [`save_over`] does.
pub fn save_answer_over<'a, R: ImageFiles + Clock + Eprint + AllocGlobal>(
    host: &Surroundings<'_, R>,
    file: MadeFile<'a>,
    old: Stamp,
    answer: &Answer,
) -> Result<(), FileFault<'a>>
    ensures saved { OnOk result (IfSome answer.now.image (λ bytes. IsTaken R.File.contents bytes.items)) }
    ensures fault { IfErr result (λ fault. IsSome answer.now.image × IsStatusOfFileOrMemory (file_status fault)) }
{
    let Some(bytes) = &answer.image else {
        return Ok(());
    };
    expect_new(host.rt, file)?;
    save_over(host, file.path, old, bytes)
}

/// Saves bytes in the file `path` as [`save_new`] does, and reports the contents that were replaced. A device that is too small for them stays as it is.
pub fn save_over<'a, R: ImageFiles + Clock + Eprint + AllocGlobal>(
    host: &Surroundings<'_, R>,
    path: &'a str,
    old: Stamp,
    bytes: &[u8],
) -> Result<(), FileFault<'a>>
    ensures saved { OnOk result (IsTaken R.File.contents bytes.now) }
    ensures fault { IfErr result (λ fault. IsStatusOfFileOrMemory (file_status fault)) }
{
    expect_device(host.rt, path, bytes.len() as u64)?;
    let held = held_at(host, path);
    match save_new(host, path, old, bytes, None) {
        Ok(()) => {
            tell_replaced(host, path, held);
            Ok(())
        }
        Err(why) => Err(FileFault::unsaved(path, why)),
    }
}

/// Saves bytes in the file `path`. The bytes were made from the file with the stamp `old`; that file isn't replaced, whatever its path. An existing regular
/// file is locked meanwhile, if it can be opened. A new file gets these marks, if some are given.
pub fn save_new<R: ImageFiles + Clock + Eprint + AllocGlobal>(
    host: &Surroundings<'_, R>,
    path: &str,
    old: Stamp,
    bytes: &[u8],
    marks: Option<Marks>,
) -> io::Result<()>
    ensures { OnOk result (IsTaken R.File.contents bytes.now) }
{
    expect_other(host.rt, path, old)?;
    let _locked = lock_replaced(host, path)?;
    let content = Content::Bytes(bytes);
    match marks {
        Some(marks) => save_marked(host.rt, path, content, marks),
        None => save_file(host.rt, path, content),
    }
}

/// Checks that a file to write, `new`, isn't the one at the path `read`, which is read.
pub fn expect_apart<'a, R: ImageFiles>(
    rt: &R,
    read: &str,
    new: &'a str,
) -> Result<(), FileFault<'a>>
    ensures { IfErr result (λ fault. file_status fault ≡ 3) }
{
    let Ok(read) = rt.stamp_at(read) else {
        return Ok(());
    };
    match expect_other(rt, new, read) {
        Ok(()) => Ok(()),
        Err(why) => Err(FileFault::Unwritten(NamedFile::File(new), why)),
    }
}

/// Checks that the file at a path, perhaps through symbolic links, isn't the one with the stamp `read`.
pub fn expect_other<R: ImageFiles>(rt: &R, path: &str, read: Stamp) -> io::Result<()> {
    match rt.stamp_at(path) {
        Ok(there) if there.is_of(read) => Err(io::Error::other(WAS_READ)),
        _ => Ok(()),
    }
}

/// Locks the regular file that will be replaced, if there is one that can be opened, unless another program keeps it locked for half a minute.
fn lock_replaced<R: ImageFiles + Clock + Eprint>(
    host: &Surroundings<'_, R>,
    path: &str,
) -> io::Result<Option<R::File>> {
    match open_image(host.rt, path, host.is_watched) {
        Ok((file, stamp)) if stamp.kind == FileKind::Regular => Ok(Some(file)),
        Err(OpenFault::Locked(why)) => Err(why),
        _ => Ok(None),
    }
}
