//! `identify -r`, which guesses what the images in files and below folders are: each file has its line, or the lines of its pack, before the next is read.
ghost use Rattle.std.specs.Prelude.{◌≡◌, ◌++◌, [], true, List, ℕ, map, IfOk, OnErr};
ghost use Rattle.std.specs.Io.KnownBytes.{Appends};
ghost use Rattle.std.specs.Process.{exit_status};
ghost use Rattle.command_faults.specs.Streams.{streams};
ghost use Rattle.host_files.specs.declared.folders.Found.{Found};
ghost use Rattle.pdp_words.specs.Devices.{AppendsFront};
ghost use Rattle.unixvol.specs.Below.{IdentifiesBelow, IsOpened, IsStart, IsStarted, IsVisit, RunsBelow, VisitsAll, listing_status};

use crate::explain::{finish_printed, tell_fault, tell_file};
use crate::file_fault::{FileFault, NamedFile};
use crate::host::Surroundings;
use crate::identify::{front_of, print_line};
use command_faults::status::DONE;
use command_faults::{Ending, Fault};
use command_line::GuessForm;
use host_files::{
    FileKind, FolderListing, Found, FoundKind, ImageFiles, noted_writer, stack_found,
};
use pdp_words::{IntoWrite, SaveFault, Sink, write_all};
use std::alloc::AllocError;
use std::io::{self, Write};
use std::process::ExitCode;

/// The greatest number of files and folders that are visited.
const MOST: u32 = u32::MAX;

/// The message for more of them.
const TOO_MANY: &str = "more than 4294967295 files and folders";

/// Prints a line for each of these files, and of those that are folders for each regular file below them, in this format, and returns the exit code: the
/// greatest of their statuses. What can't be read, or for which there is too little memory, has its fault on standard error; the files after it are read
/// all the same.
///
/// Takes memory for the names in the folders above a file, and beside them.
pub fn run_to_end<R: ImageFiles + Eprint + AllocGlobal, O: Write + Drop, E: Write + Drop>(
    host: &Surroundings<'_, R>,
    output: O,
    errors: E,
    form: GuessForm,
    images: &[&str],
) -> ExitCode
    ensures { IdentifiesBelow R.File.remaining R.had R.stood R.listed (O.contents output) (E.contents errors) form (map (λ image. image.now) images.now) (exit_status result) }
{
    let mut errors = IntoWrite::new(errors);
    let mut output = noted_writer(output);
    let ending = print_all(host, &mut output, form, images);
    tell_fault(host, &mut errors, &ending.fault, output.error(), None);
    ExitCode::from(finish_printed(host, output.into_inner().into_inner(), ending.status))
}

/// Prints the lines of these files and of those below folders, and returns how the run ends.
fn print_all<R: ImageFiles + Eprint + AllocGlobal, O: Sink>(
    host: &Surroundings<'_, R>,
    output: &mut O,
    form: GuessForm,
    images: &[&str],
) -> Ending
    ensures { RunsBelow R.File.remaining R.had R.stood R.listed (streams O.contents O.failed output.old output.new result.fault) form (map (λ image. image.now) images.now) result.status }
{
    match start(host, images) {
        Ok(stack) => print_stack(host, output, form, stack),
        Err(_) => Ending {
            status: tell_file(host, &FileFault::NoMemory),
            fault: None,
        },
    }
}

/// Returns the stack of these files and folders, the first on the top.
fn start<R: ImageFiles + AllocGlobal>(
    host: &Surroundings<'_, R>,
    images: &[&str],
) -> Result<Vec<Found>, AllocError>
    ensures { IfOk result (λ stack. IsStart R.stood (map (λ image. image.now) images.now) stack.items) }
{
    let mut stack = Vec::new(host.rt.alloc());
    'images: for image in images {
        stack.push(found_at(host, image)?)?;
    }
    stack.reverse();
    Ok(stack)
}

/// Returns what a word names: a folder if the system says so, else a file.
fn found_at<R: ImageFiles + AllocGlobal>(
    host: &Surroundings<'_, R>,
    path: &str,
) -> Result<Found, AllocError>
    ensures { IfOk result (λ found. IsStarted R.stood path.now found) }
{
    let kind = match host.rt.stamp_at(path) {
        Ok(stamp) if stamp.kind == FileKind::Directory => FoundKind::Folder,
        _ => FoundKind::File,
    };
    Ok(Found {
        kind,
        path: String::from_str(host.rt.alloc(), path)?,
    })
}

/// Visits all files and folders of a stack and below them, each before what is under it, prints their lines, and returns how the run ends. If standard
/// output fails, nothing further is visited.
fn print_stack<R: ImageFiles + Eprint + AllocGlobal, O: Sink>(
    host: &Surroundings<'_, R>,
    output: &mut O,
    form: GuessForm,
    stack: Vec<Found>,
) -> Ending
    ensures { VisitsAll R.File.remaining R.had R.stood R.listed (streams O.contents O.failed output.old output.new result.fault) form stack.items result.status }
{
    let Ok(()) = write_all(output, front_of(form)) else {
        return Ending::from(Fault::Output);
    };
    let mut stack = stack;
    let mut status = DONE;
    let mut visited = 0;
    'visits: while visited < MOST {
        visited += 1;
        let Some(found) = stack.pop() else {
            return Ending {
                status,
                fault: None,
            };
        };
        match visit(host, output, form, &found, &mut stack) {
            Ok(one) => status = status.max(one),
            Err(_) => return Ending::from(Fault::Output),
        }
    }
    Ending {
        status: status.max(give_up(host, &stack)),
        fault: None,
    }
}

/// Prints that what is left on a stack isn't visited, and returns the status.
fn give_up<R: Eprint + AllocGlobal>(host: &Surroundings<'_, R>, stack: &[Found]) -> u8
    ensures { result ≡ 3 }
{
    let path = match stack.last() {
        Some(found) => found.path.as_str(),
        None => "",
    };
    let why = io::Error::other(TOO_MANY);
    tell_file(host, &FileFault::Unread(NamedFile::File(path), why))
}

/// Prints the lines of a file, or puts what is in a folder on a stack, and returns the status. Fails only if standard output does.
fn visit<R: ImageFiles + Eprint + AllocGlobal, O: Sink>(
    host: &Surroundings<'_, R>,
    output: &mut O,
    form: GuessForm,
    found: &Found,
    stack: &mut Vec<Found>,
) -> Result<u8, SaveFault>
    ensures visited { IfOk result (λ status. (line : List ℕ) × (more : List Found) × IsVisit R.File.remaining R.had R.stood R.listed form found.now line more status
        × (stack.new.items ≡ stack.old.items ++ more) × Appends (O.contents output.old) (O.contents output.new) line × (O.failed output.new ≡ O.failed output.old)) }
    ensures broken { OnErr result ((line : List ℕ) × (count : ℕ) × (status : ℕ) × IsVisit R.File.remaining R.had R.stood R.listed form found.now line [] status
        × AppendsFront (O.contents output.old) (O.contents output.new) line count × (O.failed output.new ≡ true)) }
{
    match found.kind {
        FoundKind::File => print_line(host, output, form, &found.path),
        FoundKind::Folder => Ok(open_folder(host, &found.path, stack)),
        FoundKind::Other => Ok(DONE),
    }
}

/// Puts what is in a folder on a stack, and returns the status. If some of it can't be examined, or it can't be read at all, prints the fault.
fn open_folder<R: ImageFiles + Eprint + AllocGlobal>(
    host: &Surroundings<'_, R>,
    path: &str,
    stack: &mut Vec<Found>,
) -> u8
    ensures { (more : List Found) × IsOpened R.listed path.now more result × (stack.new.items ≡ stack.old.items ++ more) }
{
    let FolderListing { found, fault } = match host.rt.folder_at(path) {
        Ok(listing) => listing,
        Err(why) if why.kind() == io::ErrorKind::OutOfMemory => {
            return tell_file(host, &FileFault::NoMemoryFor(path));
        }
        Err(why) => return tell_file(host, &FileFault::Unread(NamedFile::File(path), why)),
    };
    match stack_found(stack, found) {
        Ok(()) => tell_left_out(host, path, fault),
        Err(_) => tell_file(host, &FileFault::NoMemoryFor(path)),
    }
}

/// Prints why something in a folder is left out, if it is, and returns the status.
fn tell_left_out<R: Eprint + AllocGlobal>(
    host: &Surroundings<'_, R>,
    path: &str,
    fault: Option<io::Error>,
) -> u8
    ensures { result ≡ listing_status fault }
{
    match fault {
        None => DONE,
        Some(why) => tell_file(host, &FileFault::Unread(NamedFile::File(path), why)),
    }
}
