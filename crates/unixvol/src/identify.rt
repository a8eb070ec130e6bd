//! `identify`, which guesses what images are, file after file: each has its line, or the lines of its pack, before the next is read.
ghost use Rattle.std.specs.Prelude.{◌≡◌, true, List, ℕ, map, IfErr, IfOk, OnErr};
ghost use Rattle.std.specs.Io.KnownBytes.{Appends};
ghost use Rattle.std.specs.List.{flat_map};
ghost use Rattle.std.specs.Process.{exit_status};
ghost use Rattle.command_faults.specs.Streams.{streams};
ghost use Rattle.host_files.specs.declared.image_file.Stamp.{Stamp};
ghost use Rattle.identify_lines.specs.GuessJson.{seen_json};
ghost use Rattle.identify_lines.specs.Lines.{seen_lines};
ghost use Rattle.identify_lines.specs.declared.seen.Seen.{Seen};
ghost use Rattle.pack_files.specs.PackFiles.{GivesPack};
ghost use Rattle.pdp_words.specs.Devices.{AppendsFront};
ghost use Rattle.vol_catalogue.specs.Rows.{row_of};
ghost use Rattle.vol_catalogue.specs.declared.rows.FileFacts.{FileFacts};
ghost use Rattle.vol_catalogue.specs.declared.rows.ListedVolume.{ListedVolume};
ghost use Rattle.unixvol.specs.FileFaults.{file_status};
ghost use Rattle.unixvol.specs.Identify.{IdentifiesToEnd, IsCatalogued, IsImageSeen, IsLine, IsSeen, IsTold, IsUntold, RunsIdentify, front_of, size_of};
ghost use Rattle.unixvol.specs.Runs.{IsStatusOfFileOrMemory};

use crate::explain::{finish_printed, reason_of, tell_fault, tell_file};
use crate::file_fault::{FileFault, NamedFile};
use crate::guesses::read_to_guess;
use crate::host::Surroundings;
use command_faults::status::DONE;
use command_faults::{Ending, Fault};
use command_line::GuessForm;
use host_files::{FileKind, ImageFiles, Stamp, noted_writer};
use identify_lines::{Seen, seen_json, seen_lines, unread_json};
use pack_files::{PackFault, catalogued_file, judged_pack};
use pdp_words::{IntoWrite, SaveFault, Sink, write_all};
use std::io::Write;
use std::process::ExitCode;
use vol_catalogue::{header, volume_rows};
use vol_identify::{Identified, JudgedPart, identify};

/// Prints a line for each of these files, in this format, and returns the exit code: the greatest of their statuses. A file that can't be read, or for
/// which there is too little memory, has its fault on standard error, and no line but in JSON; the files after it are read all the same.
pub fn run_to_end<R: ImageFiles + Eprint + AllocGlobal, O: Write + Drop, E: Write + Drop>(
    host: &Surroundings<'_, R>,
    output: O,
    errors: E,
    form: GuessForm,
    images: &[&str],
) -> ExitCode
    ensures { IdentifiesToEnd R.File.remaining R.had R.stood (O.contents output) (E.contents errors) form (map (λ image. image.now) images.now) (exit_status result) }
{
    let mut errors = IntoWrite::new(errors);
    let mut output = noted_writer(output);
    let ending = print_lines(host, &mut output, form, images);
    tell_fault(host, &mut errors, &ending.fault, output.error(), None);
    ExitCode::from(finish_printed(host, output.into_inner().into_inner(), ending.status))
}

/// Prints the lines of these files, each before the next file is read, and returns how the run ends. If standard output fails, no further file is read.
fn print_lines<R: ImageFiles + Eprint + AllocGlobal, O: Sink>(
    host: &Surroundings<'_, R>,
    output: &mut O,
    form: GuessForm,
    images: &[&str],
) -> Ending
    ensures { RunsIdentify R.File.remaining R.had R.stood (streams O.contents O.failed output.old output.new result.fault) form (map (λ image. image.now) images.now) result.status }
{
    let Ok(()) = write_all(output, front_of(form)) else {
        return Ending::from(Fault::Output);
    };
    let mut status = DONE;
    'images: for image in images {
        match print_line(host, output, form, image) {
            Ok(one) => status = status.max(one),
            Err(_) => return Ending::from(Fault::Output),
        }
    }
    Ending {
        status,
        fault: None,
    }
}

/// Returns what is printed before the first line.
pub(crate) fn front_of(form: GuessForm) -> &'static [u8]
    ensures { result.now ≡ front_of form }
{
    match form {
        GuessForm::Lines | GuessForm::Json => b"",
        GuessForm::Catalogue => header(),
    }
}

/// Prints the line of a file, or the lines of its pack, and returns its status. If it can't be read, prints the fault too. Fails only if standard output
/// does.
pub(crate) fn print_line<R: ImageFiles + Eprint + AllocGlobal, O: Sink>(
    host: &Surroundings<'_, R>,
    output: &mut O,
    form: GuessForm,
    path: &str,
) -> Result<u8, SaveFault>
    ensures printed { IfOk result (λ status. (line : List ℕ) × IsLine R.File.remaining R.had R.stood form path.now line status
        × Appends (O.contents output.old) (O.contents output.new) line × (O.failed output.new ≡ O.failed output.old)) }
    ensures broken { OnErr result ((line : List ℕ) × (count : ℕ) × (status : ℕ) × IsLine R.File.remaining R.had R.stood form path.now line status
        × AppendsFront (O.contents output.old) (O.contents output.new) line count × (O.failed output.new ≡ true)) }
{
    let told = told_of(host, form, path);
    write_all(output, &told.line)?;
    Ok(told.status)
}

/// The line of a file, or the lines of its pack, and its status.
#[derive(Drop)]
struct ToldFile {
    /// The line or lines.
    line: Vec<u8>,
    /// The status.
    status: u8,
}

/// Returns the line of a file, or the lines of its pack. If it can't be read, prints the fault too, since the next file is read after it.
fn told_of<R: ImageFiles + Eprint + AllocGlobal>(
    host: &Surroundings<'_, R>,
    form: GuessForm,
    path: &str,
) -> ToldFile
    ensures { IsLine R.File.remaining R.had R.stood form path.now result.line.items result.status }
{
    match line_text(host.rt, form, path) {
        Ok(line) => ToldFile { line, status: DONE },
        Err(fault) => untold(host, form, path, tell_file(host, &fault)),
    }
}

/// Returns the line of a file that wasn't read, with this status, or the status of memory if there is too little for the line.
fn untold<R: Eprint + AllocGlobal>(
    host: &Surroundings<'_, R>,
    form: GuessForm,
    path: &str,
    status: u8,
) -> ToldFile
    requires { IsStatusOfFileOrMemory status }
    ensures status { IsStatusOfFileOrMemory result.status }
    ensures line { IsUntold form path.now result.status result.line.items }
{
    let alloc = host.rt.alloc();
    match form {
        GuessForm::Lines | GuessForm::Catalogue => ToldFile {
            line: Vec::new(alloc),
            status,
        },
        GuessForm::Json => match unread_json(alloc, path, status) {
            Ok(line) => ToldFile {
                line: line.into_bytes(),
                status,
            },
            Err(_) => ToldFile {
                line: Vec::new(alloc),
                status: tell_file(host, &FileFault::NoMemoryFor(path)),
            },
        },
    }
}

/// Returns the line or lines of a file.
fn line_text<'a, R: ImageFiles + AllocGlobal>(
    rt: &R,
    form: GuessForm,
    path: &'a str,
) -> Result<Vec<u8>, FileFault<'a>>
    ensures line { IfOk result (λ line. IsTold R.File.remaining R.had R.stood form path.now line.items) }
    ensures fault { IfErr result (λ fault. IsStatusOfFileOrMemory (file_status fault)) }
{
    match form {
        GuessForm::Lines => guess_lines(rt, path),
        GuessForm::Json => guess_json(rt, path),
        GuessForm::Catalogue => catalogue_rows(rt, path),
    }
}

/// Returns the line of what a file seems to be, or the lines of its pack.
fn guess_lines<'a, R: ImageFiles + AllocGlobal>(
    rt: &R,
    path: &'a str,
) -> Result<Vec<u8>, FileFault<'a>>
    ensures line { IfOk result (λ line. (seen : Seen) × IsSeen R.File.remaining R.had R.stood seen × (stamp : Stamp) × R.stood stamp
        × (line.items ≡ seen_lines path.now (size_of stamp) seen)) }
    ensures fault { IfErr result (λ fault. IsStatusOfFileOrMemory (file_status fault)) }
{
    let seen = see(rt, path)?;
    let stamp = stamp_at(rt, path)?;
    match seen_lines(rt.alloc(), path, size_of(stamp), &seen) {
        Ok(lines) => Ok(lines.into_bytes()),
        Err(_) => Err(FileFault::NoMemoryFor(path)),
    }
}

/// Returns the JSON of what a file seems to be, on a line.
fn guess_json<'a, R: ImageFiles + AllocGlobal>(
    rt: &R,
    path: &'a str,
) -> Result<Vec<u8>, FileFault<'a>>
    ensures line { IfOk result (λ line. (seen : Seen) × IsSeen R.File.remaining R.had R.stood seen × (stamp : Stamp) × R.stood stamp
        × (line.items ≡ seen_json path.now (size_of stamp) seen)) }
    ensures fault { IfErr result (λ fault. IsStatusOfFileOrMemory (file_status fault)) }
{
    let seen = see(rt, path)?;
    let stamp = stamp_at(rt, path)?;
    match seen_json(rt.alloc(), path, size_of(stamp), &seen) {
        Ok(line) => Ok(line.into_bytes()),
        Err(_) => Err(FileFault::NoMemoryFor(path)),
    }
}

/// Returns the rows of the volumes of a file.
fn catalogue_rows<'a, R: ImageFiles + AllocGlobal>(
    rt: &R,
    path: &'a str,
) -> Result<Vec<u8>, FileFault<'a>>
    ensures rows { IfOk result (λ rows. (file : FileFacts) × (volumes : List ListedVolume) × IsCatalogued R.File.remaining R.had file volumes
        × (rows.items ≡ flat_map (row_of path.now file) volumes)) }
    ensures fault { IfErr result (λ fault. IsStatusOfFileOrMemory (file_status fault)) }
{
    let found = match catalogued_file(rt, path) {
        Ok(found) => found,
        Err(fault) => return Err(pack_fault(path, fault)),
    };
    match volume_rows(rt.alloc(), path, found.file, &found.volumes) {
        Ok(rows) => Ok(rows),
        Err(_) => Err(FileFault::NoMemoryFor(path)),
    }
}

/// Returns the fault of a file that can't be searched for volumes.
fn pack_fault<'a>(path: &'a str, fault: PackFault) -> FileFault<'a>
    ensures { IsStatusOfFileOrMemory (file_status result) }
{
    let named = NamedFile::File(path);
    match fault {
        PackFault::Unread(why) => FileFault::Unread(named, reason_of(why)),
        PackFault::Short => FileFault::Unread(named, reason_of(None)),
        PackFault::NoMemory => FileFault::NoMemoryFor(path),
    }
}

/// Returns the number of bytes of a regular file. `None` for another kind.
fn size_of(stamp: Stamp) -> Option<u64>
    ensures { result ≡ size_of stamp }
{
    if stamp.kind == FileKind::Regular {
        Some(stamp.size)
    } else {
        None
    }
}

/// Returns the stamp of a file. One that the system can't examine can't be read.
fn stamp_at<'a, R: ImageFiles>(rt: &R, path: &'a str) -> Result<Stamp, FileFault<'a>>
    ensures stamp { IfOk result R.stood }
    ensures fault { IfErr result (λ fault. IsStatusOfFileOrMemory (file_status fault)) }
{
    match rt.stamp_at(path) {
        Ok(stamp) => Ok(stamp),
        Err(why) => Err(FileFault::Unread(NamedFile::File(path), why)),
    }
}

/// Returns what a file seems to be.
fn see<'a, R: ImageFiles + AllocGlobal>(rt: &R, path: &'a str) -> Result<Seen, FileFault<'a>>
    ensures seen { IfOk result (IsSeen R.File.remaining R.had R.stood) }
    ensures fault { IfErr result (λ fault. IsStatusOfFileOrMemory (file_status fault)) }
{
    match pack_of(rt, path)? {
        Some(parts) => Ok(Seen::Pack(parts)),
        None => {
            let SeenImage { found, read } = see_image(rt, path)?;
            Ok(Seen::Image { found, read })
        }
    }
}

/// What the image in a file seems to be, by the first `read` bytes of the file.
#[derive(Clone, Copy)]
struct SeenImage {
    found: Identified,
    read: usize,
}

/// Returns what the image in a file seems to be.
fn see_image<'a, R: ImageFiles + AllocGlobal>(
    rt: &R,
    path: &'a str,
) -> Result<SeenImage, FileFault<'a>>
    ensures seen { IfOk result (λ image. IsImageSeen R.File.remaining image.found image.read) }
    ensures fault { IfErr result (λ fault. IsStatusOfFileOrMemory (file_status fault)) }
{
    let front = read_to_guess(rt, path)?;
    match identify(rt.alloc(), &front) {
        Ok(found) => Ok(SeenImage {
            found,
            read: front.len(),
        }),
        Err(_) => Err(FileFault::NoMemoryFor(path)),
    }
}

/// Returns the judged parts of the pack in a file, unless it isn't one.
fn pack_of<'a, R: ImageFiles + AllocGlobal>(
    rt: &R,
    path: &'a str,
) -> Result<Option<Vec<JudgedPart>>, FileFault<'a>>
    ensures pack { IfOk result (GivesPack R.File.remaining R.had R.stood) }
    ensures fault { IfErr result (λ fault. IsStatusOfFileOrMemory (file_status fault)) }
{
    match judged_pack(rt, path) {
        Ok(pack) => Ok(pack),
        Err(fault) => Err(pack_fault(path, fault)),
    }
}
