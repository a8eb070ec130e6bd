//! The commands that copy several files between the host and a volume: opening and saving their files.
ghost use Rattle.std.specs.Prelude.{◌≡◌, ℕ, All, Bool, IfErr, IfOk, IfSome, List, None, OnOk, Option, map};
ghost use Rattle.std.specs.Process.{exit_status};
ghost use Rattle.command_faults.specs.Streams.{still, streams};
ghost use Rattle.unixvol.specs.FileFaults.{file_status, run_fault, run_status};
ghost use Rattle.unixvol.specs.Copies.{AreSaved, CopiesToEnd, IsFileToo, IsMomentAlone, RunsCopy, RunsGet, RunsPut};
ghost use Rattle.command_copies.specs.Trees.{name_of};
ghost use Rattle.unixvol.specs.Runs.{Ends, GavePut, IsGivenFile, IsStatusOfFileOrMemory, IsUnread, host_files};
ghost use Rattle.unixvol.specs.Syncs.{extra_of};
ghost use Rattle.host_files.specs.Save.{IsTaken};

use crate::build_list::run_build_list;
use crate::explain::{finish, tell_end};
use crate::file_fault::{FailedRun, FileFault, after_saving};
use crate::get_trees::run_get_trees;
use crate::host::Surroundings;
use crate::read::{expect_volume, read_given, read_image, read_stamped};
use crate::save::{save_new, save_traced};
use crate::subject::Subject;
use crate::sync::{run_put_tree, run_sync};
use command_changes::put::{NewFile, put_files};
use command_changes::{Extra, Syncing, Unchanged};
use command_copies::name_of;
use command_faults::Ending;
use command_faults::status::DONE;
use command_line::{Copying, VolumeFile};
use command_reads::{FileRead, get_files};
use command_terms::Keep;
use command_words::Moment;
use host_files::{ImageFiles, Marks, Stamp, is_pipe, noted_writer};
use pdp_words::{IntoWrite, Sink};
use std::io::{self, Write};
use std::path::{Path, PathBuf};
use std::process::ExitCode;
use std::rt::Clock;
use vol_dir::Cred;
use vol_layout::Edition;

/// The message if a file's name in the folder belongs to a pipe or a socket.
const PIPE: &str = "it is a pipe or a socket, which keeps no file";

/// Copies several files between the host and the volume in a file, and returns the exit code. A fault is printed as one line on standard error;
/// `errors` writes to standard error too. If a trace is wanted, it is written to `output`, which is standard output, once the volume is saved; otherwise
/// nothing is.
pub fn run_to_end<R: ImageFiles + Clock + Eprint + AllocGlobal, O: Write + Drop, E: Write + Drop>(
    host: &Surroundings<'_, R>,
    output: O,
    errors: E,
    volume: VolumeFile<'_>,
    copying: Copying<'_>,
) -> ExitCode
    ensures { CopiesToEnd (host_files volume.entry.at R.File.remaining R.File.contents R.had R.stood) R.stands R.listed (O.contents output) (E.contents errors)
        volume.entry.edition copying.entry (exit_status result) }
{
    let mut errors = IntoWrite::new(errors);
    let mut output = noted_writer(output);
    let subject = Subject::of_copying(volume, &copying);
    let ended = run(host, &mut output, volume, copying);
    let status = tell_end(host, &mut errors, &ended, output.error(), Some(subject));
    ExitCode::from(finish(host, output.into_inner().into_inner(), status))
}

/// Copies several files, and returns the result of the run.
fn run<'a, R: ImageFiles + Clock + Eprint + AllocGlobal, O: Sink>(
    host: &Surroundings<'_, R>,
    output: &mut O,
    volume: VolumeFile<'a>,
    copying: Copying<'a>,
) -> Result<Ending, FailedRun<'a>>
    ensures runs { RunsCopy (streams O.contents O.failed output.old output.new (run_fault result)) (host_files volume.entry.at R.File.remaining R.File.contents R.had R.stood) R.stands R.listed volume.entry.edition copying.entry (run_status result) }
    ensures ends { Ends (streams O.contents O.failed output.old output.new (run_fault result)) (run_status result) }
{
    match copying {
        Copying::Put {
            directory,
            files,
            keep,
            owner,
            now,
            trace,
        } => run_put(
            host, output, volume, directory, &files, keep, owner, now, trace,
        ),
        Copying::PutTree {
            directory,
            folders,
            keep,
            owner,
            now,
            trace,
        } => run_put_tree(
            host, output, volume, directory, &folders, keep, owner, now, trace,
        ),
        Copying::Sync {
            directory,
            folder,
            owner,
            now,
            deletes,
            is_trial,
        } => {
            let syncing = Syncing {
                directory,
                owner,
                unchanged: Unchanged::Skip,
                now,
            };
            let extra = extra_of(deletes);
            run_sync(host, output, volume, syncing, extra, folder, is_trial)
        }
        Copying::Get {
            folder,
            paths,
            is_deep: true,
            keeps,
        } => run_get_trees(host, volume, folder, &paths, keeps),
        Copying::Get {
            folder,
            paths,
            is_deep: false,
            keeps,
        } => run_get(host, volume, folder, &paths, keeps),
        Copying::List { new } => run_build_list(host, volume, new),
    }
}

/// Returns what becomes of what the folder hasn't, by whether it is to be removed.
fn extra_of(deletes: bool) -> Extra
    ensures { result ≡ extra_of deletes }
{
    if deletes { Extra::Remove } else { Extra::Keep }
}

/// Puts the files at some paths into a directory of the volume in a file, saves the volume, prints the trace of the calls if `trace`, and returns the
/// result of the run. If the word that was read as the time is also the path of an existing file, it may be meant as one of the files: then nothing is
/// opened.
fn run_put<'a, R: ImageFiles + Clock + Eprint + AllocGlobal, O: Sink>(
    host: &Surroundings<'_, R>,
    output: &mut O,
    volume: VolumeFile<'a>,
    directory: &str,
    paths: &[&'a str],
    keep: Keep,
    owner: Option<Cred>,
    now: Moment<'a>,
    trace: bool,
) -> Result<Ending, FailedRun<'a>>
    ensures runs { RunsPut (streams O.contents O.failed output.old output.new (run_fault result)) (host_files volume.entry.at R.File.remaining R.File.contents R.had R.stood) R.stands volume.entry.edition directory.now
        (map (λ path. name_of path.now) paths.now) keep owner now.entry trace (run_status result) }
    ensures ends { Ends (streams O.contents O.failed output.old output.new (run_fault result)) (run_status result) }
{
    if let Some(word) = moment_file(host.rt, now) {
        return Err(FailedRun::from(FileFault::Moment(word)));
    }
    expect_volume(host.rt, volume)?;
    let files = read_named(host.rt, volume.edition, paths, keep)?;
    // The image's file stays open, and so locked, until the result is saved.
    let (image, stamp, _locked) = read_image(host, volume)?;
    let outcome = put_files(
        host.rt.alloc(),
        volume.edition,
        image,
        directory,
        files,
        owner,
        now.seconds,
        trace,
    );
    save_traced(host.rt, volume, stamp, outcome, output)
}

/// Returns the word that was read as the time, if it is also the path of an existing file.
pub fn moment_file<'a, R: ImageFiles>(rt: &R, now: Moment<'a>) -> Option<&'a str>
    ensures some { IfSome result (IsFileToo R.stands now.entry) }
    ensures none { result ≡ None → IsMomentAlone R.stands now.entry }
{
    let word = now.word?;
    if rt.is_there(word) { Some(word) } else { None }
}

/// Reads the files at some paths to put into a volume of an edition, in order, with what is kept of them, and names each by the last name of its
/// path.
fn read_named<'a, R: ImageFiles + AllocGlobal>(
    rt: &R,
    edition: Edition,
    paths: &[&'a str],
    keep: Keep,
) -> Result<Vec<NewFile<'a>>, FileFault<'a>>
    ensures given { IfOk result (λ files. All (λ file. IsGivenFile (GavePut edition R.File.remaining) keep file.content) files.items) }
    ensures named { IfOk result (λ files. map (λ file. file.name.now) files.items ≡ map (λ path. name_of path.now) paths.now) }
    ensures fault { IfErr result (λ fault. IsUnread R.File.remaining (file_status fault)) }
{
    let mut files = Vec::new(rt.alloc());
    'files: for path in paths {
        let content = read_given(rt, edition, path, keep)?;
        let name = name_of(path);
        let Ok(()) = files.push(NewFile { name, content }) else {
            return Err(FileFault::NoMemory);
        };
    }
    Ok(files)
}

/// Reads the files at some paths of the volume in a file, then saves each in a folder under its last name, and returns the result of the run. The
/// volume's own file is never replaced, whatever its path.
fn run_get<'a, R: ImageFiles + Clock + Eprint + AllocGlobal>(
    host: &Surroundings<'_, R>,
    volume: VolumeFile<'a>,
    folder: &'a str,
    paths: &[&str],
    keeps: bool,
) -> Result<Ending, FailedRun<'a>>
    ensures runs { (known : Option (List ℕ)) (failed : Bool)
        → RunsGet (still known failed (run_fault result)) (host_files volume.entry.at R.File.remaining R.File.contents R.had R.stood) volume.entry.edition (map (λ path. path.now) paths.now) (run_status result) }
    ensures ends { (known : Option (List ℕ)) (failed : Bool) → Ends (still known failed (run_fault result)) (run_status result) }
{
    let (image, stamp) = read_stamped(host.rt, volume)?;
    match get_files(host.rt.alloc(), volume.edition, image, paths) {
        Ok(files) => {
            let saved = save_files(host, folder, stamp, &files, keeps);
            after_saving(saved, DONE, None)
        }
        Err(fault) => Ok(Ending::from(fault)),
    }
}

/// Saves files of a volume in a folder, each under the last name of its path, with its marks if `keeps`. After the first file that can't be saved none is.
fn save_files<'a, R: ImageFiles + Clock + Eprint + AllocGlobal>(
    host: &Surroundings<'_, R>,
    folder: &'a str,
    image: Stamp,
    files: &[FileRead<'_>],
    keeps: bool,
) -> Result<(), FileFault<'a>>
    ensures saved { OnOk result (AreSaved (IsTaken R.File.contents) files.now) }
    ensures fault { IfErr result (λ fault. IsStatusOfFileOrMemory (file_status fault)) }
{
    'files: for file in files {
        save_file_read(host, folder, image, file, keeps)?;
    }
    Ok(())
}

/// Saves a file of a volume in a folder, under the last name of its path, with its marks if `keeps`.
fn save_file_read<'a, R: ImageFiles + Clock + Eprint + AllocGlobal>(
    host: &Surroundings<'_, R>,
    folder: &'a str,
    image: Stamp,
    file: &FileRead<'_>,
    keeps: bool,
) -> Result<(), FileFault<'a>>
    ensures saved { OnOk result (IsTaken R.File.contents file.now.bytes.items) }
    ensures fault { IfErr result (λ fault. IsStatusOfFileOrMemory (file_status fault)) }
{
    let Ok(place) = Path::new(folder).join(host.rt.alloc(), name_of(file.path)) else {
        return Err(FileFault::NoMemory);
    };
    let marks = Marks {
        permissions: file.stat.permissions,
        modified: file.stat.modified,
    };
    save_copied(host, place, image, &file.bytes, keeps.then_some(marks))
}

/// Saves the bytes of a file of a volume at a place, with these marks, if some are given. A pipe or a socket there isn't replaced.
pub fn save_copied<'a, R: ImageFiles + Clock + Eprint + AllocGlobal>(
    host: &Surroundings<'_, R>,
    place: PathBuf,
    image: Stamp,
    bytes: &[u8],
    marks: Option<Marks>,
) -> Result<(), FileFault<'a>>
    ensures saved { OnOk result (IsTaken R.File.contents bytes.now) }
    ensures fault { IfErr result (λ fault. IsStatusOfFileOrMemory (file_status fault)) }
{
    if is_pipe(host.rt, place.as_str()) {
        return Err(FileFault::Uncopied(place, io::Error::other(PIPE)));
    }
    match save_new(host, place.as_str(), image, bytes, marks) {
        Ok(()) => Ok(()),
        Err(why) => Err(uncopied(place, why)),
    }
}

/// Returns the fault of a file or a folder that can't be written at a place for this reason.
pub fn uncopied<'a>(place: PathBuf, why: io::Error) -> FileFault<'a>
    ensures { IsStatusOfFileOrMemory (file_status result) }
{
    if why.kind() == io::ErrorKind::OutOfMemory {
        FileFault::NoMemory
    } else {
        FileFault::Uncopied(place, why)
    }
}
