//! Reads files to their ends, or to the end of the volume or archive in them.
ghost use Rattle.std.specs.Prelude.{◌≡◌, ◌⊎◌, ◌*◌, [], false, true, All, IfErr, IfOk, OnErr, length};
ghost use Rattle.pdp_words.specs.Devices.{LosesFront};
ghost use Rattle.host_files.specs.OpenedFiles.{IsOpened};
ghost use Rattle.host_files.specs.Packs.{IsMovedTo, IsReadFrom};
ghost use Rattle.host_files.specs.ReadParts.{IsPast, IsReadOn, IsReadUpTo};
ghost use Rattle.unixvol.specs.FileFaults.{file_status};
ghost use Rattle.unixvol.specs.Runs.{GaveAt, GaveBytes, GaveFront, GaveImage, GavePut, GaveScript, IsKept, IsStatusOfFileOrMemory, IsUnread, is_other_longer};

use crate::explain::reason_of;
use crate::file_fault::{FileFault, NamedFile};
use crate::host::Surroundings;
use crate::sizes::HEAD;
use command_changes::{GivenFile, Kept};
use command_line::VolumeFile;
use command_terms::Keep;
use host_files::{
    FileKind, FrontFault, ImageFiles, MoveFault, Noted, OpenFault, Stage, Stamp, UpTo,
    expect_image, modified_in, moved_to, noted_reader, open_image, open_stamped, permissions_of,
    read_on, read_up_to,
};
use pdp_words::{BLOCK, Image, Source};
use std::alloc::Global;
use std::fs::{self, Files, OpenFile};
use std::io::{self, Read};
use std::rt::Clock;
use vol_findings::other_edition;
use vol_layout::{Edition, Geometry, Super};
use vol_scripts::has_bad_start;

/// The message for a file that has more blocks than any volume of its edition, and whose super-block records more as well.
const ENDLESS: &str = "it has more blocks than any volume, and its super-block says so";

/// The message for an archive that is longer than is allowed for the image.
const LONG: &str = "its archive has more bytes than an image of this size could take";

/// The number of bytes at the start of a script that are read first.
const SCRIPT_FRONT: usize = 64 * 1024;

/// A file that was read.
#[derive(Drop)]
pub struct ReadFile<F> {
    /// Its bytes.
    pub bytes: Vec<u8>,
    /// The file, still open.
    pub file: F,
}

/// Reads a file to its end.
pub fn read_file<'a, R: Files + AllocGlobal>(
    rt: &R,
    path: &'a str,
) -> Result<Vec<u8>, FileFault<'a>>
    ensures given { IfOk result (λ bytes. GaveBytes R.File.remaining bytes.items) }
    ensures fault { IfErr result (λ fault. IsUnread R.File.remaining (file_status fault)) }
{
    let named = NamedFile::File(path);
    match fs::open(rt, path) {
        Ok(file) => Ok(read_open(rt.alloc(), named, UpTo::End, file)?.bytes),
        Err(why) => Err(FileFault::Unread(named, why)),
    }
}

/// Reads a file to put into a volume of an edition, with what is kept of it besides its bytes. A file that is larger than any file of the edition is
/// read up to one byte more than the greatest size, with which its put is refused. A file whose time can't be kept can't be read.
pub fn read_given<'a, R: ImageFiles + AllocGlobal>(
    rt: &R,
    edition: Edition,
    path: &'a str,
    keep: Keep,
) -> Result<GivenFile, FileFault<'a>>
    ensures given { IfOk result (λ given. GavePut edition R.File.remaining given.bytes.items) }
    ensures kept { IfOk result (λ given. IsKept keep given.kept) }
    ensures fault { IfErr result (λ fault. IsUnread R.File.remaining (file_status fault)) }
{
    let named = NamedFile::File(path);
    let (file, stamp) = match open_stamped(rt, path) {
        Ok(opened) => opened,
        Err(why) => return Err(FileFault::Unread(named, why)),
    };
    let kept = match kept_of(keep, &file, stamp) {
        Ok(kept) => kept,
        Err(why) => return Err(FileFault::Unread(named, why)),
    };
    let bytes = read_to_put(rt.alloc(), named, edition, file)?;
    Ok(GivenFile { bytes, kept })
}

/// Reads an open file to put into a volume of an edition.
fn read_to_put<'a, F: Read + Drop>(
    alloc: Global,
    named: NamedFile<'a>,
    edition: Edition,
    file: F,
) -> Result<Vec<u8>, FileFault<'a>>
    ensures given { IfOk result (λ bytes. GavePut edition F.remaining bytes.items) }
    ensures fault { IfErr result (λ fault. IsUnread F.remaining (file_status fault)) }
{
    let most = edition.constants().greatest as usize + 1;
    Ok(read_more(named, most, unread(alloc, file))?.bytes)
}

/// Returns what is kept of an open file, which has this stamp, besides its bytes.
pub fn kept_of<F: OpenFile>(keep: Keep, file: &F, stamp: Stamp) -> io::Result<Kept>
    ensures { IfOk result (IsKept keep) }
{
    match keep {
        Keep::Nothing => Ok(Kept::Nothing),
        Keep::Execution => Ok(Kept::Execution {
            permissions: permissions_of(file)?,
        }),
        Keep::All => Ok(Kept::All {
            permissions: permissions_of(file)?,
            modified: modified_in(stamp)?,
        }),
    }
}

/// Reads the image of the volume in a file.
pub fn read_volume<'a, R: ImageFiles + AllocGlobal>(
    rt: &R,
    volume: VolumeFile<'a>,
) -> Result<Vec<u8>, FileFault<'a>>
    ensures given { IfOk result (λ image. GaveAt volume.entry.at (UpTo.Volume volume.entry.edition) R.File.remaining image.items) }
    ensures fault { IfErr result (λ fault. IsUnread R.File.remaining (file_status fault)) }
{
    let read = read_stamped(rt, volume)?;
    Ok(read.0)
}

/// Reads the image for `check`: that of the volume; or, if rules 1 and 2 don't hold for it and the super-block of a regular file records more blocks for
/// the other edition than were read, that of a volume of the other edition.
pub fn read_checked<'a, R: ImageFiles + AllocGlobal>(
    rt: &R,
    volume: VolumeFile<'a>,
) -> Result<Vec<u8>, FileFault<'a>>
    ensures given { IfOk result (λ image. GaveImage volume.entry.at volume.entry.edition R.File.remaining image.items) }
    ensures fault { IfErr result (λ fault. IsUnread R.File.remaining (file_status fault)) }
{
    let (bytes, stamp) = read_stamped(rt, volume)?;
    let image = Image::from_bytes(bytes);
    if stamp.kind != FileKind::Regular || !is_other_longer(volume.edition, &image) {
        return Ok(image.into_bytes());
    }
    drop(image);
    let edition = other_edition(volume.edition);
    read_volume(rt, VolumeFile { edition, ..volume })
}

/// True if rule 1 or 2 doesn't hold for an image of an edition, and its super-block records more bytes for the other edition than it has.
fn is_other_longer(edition: Edition, image: &Image) -> bool
    ensures { result ≡ is_other_longer edition image.now }
{
    if Geometry::read(edition, image).is_ok() || image.len() < HEAD {
        return false;
    }
    let edition = other_edition(edition);
    let blocks = Super { edition }.block_count(image);
    blocks <= edition.constants().block_limit && image.len() < BLOCK * blocks as usize
}

/// Reads the scripts in several files, in the order of their paths.
pub fn read_scripts<'a, R: Files + AllocGlobal>(
    rt: &R,
    paths: &[&'a str],
) -> Result<Vec<Vec<u8>>, FileFault<'a>>
    ensures given { IfOk result (λ scripts. All (λ script. GaveScript R.File.remaining script.items) scripts.items) }
    ensures count { IfOk result (λ scripts. length scripts.items ≡ length paths.now) }
    ensures fault { IfErr result (λ fault. IsUnread R.File.remaining (file_status fault)) }
{
    let mut scripts = Vec::new(rt.alloc());
    'scripts: for path in paths {
        let script = match fs::open(rt, path) {
            Ok(file) => read_script(rt.alloc(), NamedFile::File(path), file)?,
            Err(why) => return Err(FileFault::Unread(NamedFile::File(path), why)),
        };
        let Ok(()) = scripts.push(script) else {
            return Err(FileFault::NoMemory);
        };
    }
    Ok(scripts)
}

/// Reads the script in an open file. If the first bytes have a flaw that stays whatever follows, only these are read, and a newline is added, so that
/// this flaw is reported and no missing newline.
fn read_script<'a, F: Read + Drop>(
    alloc: Global,
    named: NamedFile<'a>,
    file: F,
) -> Result<Vec<u8>, FileFault<'a>>
    ensures given { IfOk result (λ script. GaveScript F.remaining script.items) }
    ensures fault { IfErr result (λ fault. IsUnread F.remaining (file_status fault)) }
{
    let front = read_more(named, SCRIPT_FRONT, unread(alloc, file))?;
    if front.bytes.len() < SCRIPT_FRONT {
        return Ok(front.bytes);
    }
    let Ok(is_bad) = has_bad_start(alloc, &front.bytes) else {
        return Err(FileFault::NoMemory);
    };
    if !is_bad {
        return Ok(read_more(named, usize::MAX, front)?.bytes);
    }
    let mut script = front.bytes;
    let Ok(()) = script.push(b'\n') else {
        return Err(FileFault::NoMemory);
    };
    Ok(script)
}

/// Reads the image of the volume in a file, and returns it with the file's stamp.
pub fn read_stamped<'a, R: ImageFiles + AllocGlobal>(
    rt: &R,
    volume: VolumeFile<'a>,
) -> Result<(Vec<u8>, Stamp), FileFault<'a>>
    ensures given { IfOk result (λ read. GaveAt volume.entry.at (UpTo.Volume volume.entry.edition) R.File.remaining read.0.items) }
    ensures fault { IfErr result (λ fault. IsUnread R.File.remaining (file_status fault)) }
{
    match open_stamped(rt, volume.image) {
        Ok((file, stamp)) => Ok((read_part(rt, volume, file, stamp)?.bytes, stamp)),
        Err(why) => Err(FileFault::Unread(NamedFile::File(volume.image), why)),
    }
}

/// Reads this number of blocks of the volume in a file, whatever its super-block says; or as many as the file has; and returns them with the file's stamp.
pub fn read_blocks<'a, R: ImageFiles + AllocGlobal>(
    rt: &R,
    volume: VolumeFile<'a>,
    blocks: u32,
) -> Result<(Vec<u8>, Stamp), FileFault<'a>>
    ensures given { IfOk result (λ read. GaveFront volume.entry.at (512 * blocks) R.File.remaining read.0.items) }
    ensures fault { IfErr result (λ fault. IsUnread R.File.remaining (file_status fault)) }
{
    let named = NamedFile::File(volume.image);
    let alloc = rt.alloc();
    let (file, stamp) = match open_stamped(rt, volume.image) {
        Ok(opened) => opened,
        Err(why) => return Err(FileFault::Unread(named, why)),
    };
    let moved = moved_over(rt, volume, file, stamp)?;
    let read = read_more(named, BLOCK * blocks as usize, unread(alloc, moved))?;
    Ok((read.bytes, stamp))
}

/// Reads the image of the volume in its open file, which has this stamp.
fn read_part<'a, R: ImageFiles + AllocGlobal>(
    rt: &R,
    volume: VolumeFile<'a>,
    file: R::File,
    stamp: Stamp,
) -> Result<ReadFile<R::File>, FileFault<'a>>
    requires { R.had file stamp }
    ensures given { IfOk result (λ read. IsReadFrom (512 * volume.entry.at) (UpTo.Volume volume.entry.edition) (R.File.remaining file) (R.File.remaining read.file) read.bytes.items) }
    ensures fault { IfErr result (λ fault. IsUnread R.File.remaining (file_status fault)) }
{
    let named = NamedFile::File(volume.image);
    let moved = moved_over(rt, volume, file, stamp)?;
    read_open(rt.alloc(), named, UpTo::Volume(volume.edition), moved)
}

/// Moves the open file of a volume, which has this stamp, to the volume's first block.
fn moved_over<'a, R: ImageFiles>(
    rt: &R,
    volume: VolumeFile<'a>,
    file: R::File,
    stamp: Stamp,
) -> Result<R::File, FileFault<'a>>
    requires { R.had file stamp }
    ensures moved { IfOk result (λ moved. IsMovedTo (512 * volume.entry.at) (R.File.remaining file) (R.File.remaining moved)) }
    ensures fault { IfErr result (λ fault. IsUnread R.File.remaining (file_status fault)) }
{
    match moved_to(rt, file, stamp, volume.at) {
        Ok(moved) => Ok(moved),
        Err(MoveFault::Short) => Err(FileFault::Short(volume.image, volume.at)),
        Err(MoveFault::Unread(why)) => Err(FileFault::Unread(NamedFile::File(volume.image), why)),
    }
}

/// Checks that the file of a volume can be opened for a change, before anything else that the change needs is read, which may wait. Doesn't wait for a lock.
pub fn expect_volume<'a, R: ImageFiles>(rt: &R, volume: VolumeFile<'a>) -> Result<(), FileFault<'a>>
    ensures { IfErr result (λ fault. file_status fault ≡ 3) }
{
    match expect_image(rt, volume.image) {
        Ok(()) => Ok(()),
        Err(fault) => Err(unopened(volume.image, fault)),
    }
}

/// Locks the image to change and reads it. Returns it with its stamp and its file, which is locked until it is closed.
pub fn read_image<'a, R: ImageFiles + Clock + Eprint + AllocGlobal>(
    host: &Surroundings<'_, R>,
    volume: VolumeFile<'a>,
) -> Result<(Vec<u8>, Stamp, R::File), FileFault<'a>>
    ensures given { IfOk result (λ read. IsOpened volume.entry.at volume.entry.edition R.File.remaining R.had read.0.items read.1) }
    ensures fault { IfErr result (λ fault. IsUnread R.File.remaining (file_status fault)) }
{
    match open_image(host.rt, volume.image, host.is_watched) {
        Ok((file, stamp)) => {
            let read = read_part(host.rt, volume, file, stamp)?;
            host.rt.begin(Stage::Rest);
            Ok((read.bytes, stamp, read.file))
        }
        Err(fault) => Err(unopened(volume.image, fault)),
    }
}

/// Returns the fault of an image at a path whose file can't be opened, or may not be changed.
fn unopened<'a>(path: &'a str, fault: OpenFault) -> FileFault<'a>
    ensures { file_status result ≡ 3 }
{
    let named = NamedFile::File(path);
    match fault {
        OpenFault::Unread(why) => FileFault::Unread(named, why),
        OpenFault::Stream(why) | OpenFault::Locked(why) => FileFault::Unwritten(named, why),
    }
}

/// Reads an open file up to the end named by `up_to`.
pub fn read_open<'a, F: Read + Drop>(
    alloc: Global,
    named: NamedFile<'a>,
    up_to: UpTo,
    file: F,
) -> Result<ReadFile<F>, FileFault<'a>>
    ensures given { IfOk result (λ read. IsReadUpTo up_to (F.remaining file) (F.remaining read.file) read.bytes.items) }
    ensures fault { IfErr result (λ fault. IsUnread F.remaining (file_status fault)) }
{
    let mut source = noted_reader(file);
    let bytes = read_source(alloc, named, up_to, &mut source)?;
    Ok(ReadFile {
        bytes,
        file: source.into_inner().into_inner(),
    })
}

/// Reads a source up to the end named by `up_to`. The fault has the status of a file only if the source failed or is too long, and the status of memory
/// only if the source didn't fail.
fn read_source<'a, S: Source>(
    alloc: Global,
    named: NamedFile<'a>,
    up_to: UpTo,
    source: &mut Noted<S>,
) -> Result<Vec<u8>, FileFault<'a>>
    requires { ⟦<Noted<S> as Source>⟧.failed source.old ≡ false }
    ensures given { IfOk result (λ bytes. IsReadUpTo up_to (⟦<Noted<S> as Source>⟧.remaining source.old) (⟦<Noted<S> as Source>⟧.remaining source.new) bytes.items) }
    ensures front { OnErr result (LosesFront (⟦<Noted<S> as Source>⟧.remaining source.old) (⟦<Noted<S> as Source>⟧.remaining source.new)) }
    ensures device { IfErr result (λ fault. file_status fault ≡ 3 → (⟦<Noted<S> as Source>⟧.failed source.new ≡ true)
        ⊎ IsPast up_to (⟦<Noted<S> as Source>⟧.remaining source.old) (⟦<Noted<S> as Source>⟧.remaining source.new)) }
    ensures memory { IfErr result (λ fault. file_status fault ≡ 4 → ⟦<Noted<S> as Source>⟧.failed source.new ≡ false) }
    ensures fault { IfErr result (λ fault. IsStatusOfFileOrMemory (file_status fault)) }
{
    match read_up_to(alloc, up_to, source) {
        Ok(image) => Ok(image.into_bytes()),
        Err(FrontFault::Device) => Err(FileFault::Unread(named, reason_of(source.error()))),
        Err(FrontFault::Endless) => Err(FileFault::Unread(named, io::Error::other(past(up_to)))),
        Err(FrontFault::NoMemory) => Err(FileFault::NoMemory),
    }
}

/// Returns an open file of which nothing was read.
fn unread<F>(alloc: Global, file: F) -> ReadFile<F>
    ensures bytes { result.bytes.items ≡ [] }
    ensures file { result.file ≡ file }
{
    ReadFile {
        bytes: Vec::new(alloc),
        file,
    }
}

/// Reads on in an open file of which some bytes were read, until there are `most` bytes or the file ends.
fn read_more<'a, F: Read + Drop>(
    named: NamedFile<'a>,
    most: usize,
    read: ReadFile<F>,
) -> Result<ReadFile<F>, FileFault<'a>>
    ensures given { IfOk result (λ all. IsReadOn (F.remaining read.file) (F.remaining all.file) read.bytes.items all.bytes.items most) }
    ensures fault { IfErr result (λ fault. IsUnread F.remaining (file_status fault)) }
{
    let mut source = noted_reader(read.file);
    let bytes = read_more_of(named, read.bytes, most, &mut source)?;
    Ok(ReadFile {
        bytes,
        file: source.into_inner().into_inner(),
    })
}

/// Reads on in a source until there are `most` bytes or the source ends. The fault has the status of a file only if the source failed, and the status of
/// memory only if it didn't.
fn read_more_of<'a, S: Source>(
    named: NamedFile<'a>,
    bytes: Vec<u8>,
    most: usize,
    source: &mut Noted<S>,
) -> Result<Vec<u8>, FileFault<'a>>
    requires { ⟦<Noted<S> as Source>⟧.failed source.old ≡ false }
    ensures given { IfOk result (λ all. IsReadOn (⟦<Noted<S> as Source>⟧.remaining source.old) (⟦<Noted<S> as Source>⟧.remaining source.new) bytes.items all.items most) }
    ensures front { OnErr result (LosesFront (⟦<Noted<S> as Source>⟧.remaining source.old) (⟦<Noted<S> as Source>⟧.remaining source.new)) }
    ensures device { IfErr result (λ fault. file_status fault ≡ 3 → ⟦<Noted<S> as Source>⟧.failed source.new ≡ true) }
    ensures memory { IfErr result (λ fault. file_status fault ≡ 4 → ⟦<Noted<S> as Source>⟧.failed source.new ≡ false) }
    ensures fault { IfErr result (λ fault. IsStatusOfFileOrMemory (file_status fault)) }
{
    match read_on(bytes, most, source) {
        Ok(all) => Ok(all),
        Err(FrontFault::NoMemory) => Err(FileFault::NoMemory),
        Err(FrontFault::Device | FrontFault::Endless) => {
            Err(FileFault::Unread(named, reason_of(source.error())))
        }
    }
}

/// Returns the message for a file that is too long.
fn past(up_to: UpTo) -> &'static str {
    match up_to {
        UpTo::Archive(_) => LONG,
        UpTo::End | UpTo::Volume(_) => ENDLESS,
    }
}
