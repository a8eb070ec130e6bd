//! The file of an image to change: its kind, its lock, and whether it has changed since it was read.
ghost use Rattle.std.specs.Prelude.{◌≡◌, ◌↔◌, ◌==◌, ◌&&◌, IfOk, IfSome};
ghost use Rattle.std.specs.Fs.{IsDir, IsFile, file_type, metadata_len};
ghost use Rattle.host_files.specs.OpenedFiles.{IsOpenTo, OpensTo};

use crate::folders::{FolderListing, folder_listing};
use crate::progress::Stage;
use crate::system::ImageFiles;
use std::fs::{self, File, Metadata, OpenFile, TryLockError};
use std::io::{self, IsTerminal, Seek, SeekFrom};
use std::os::unix::fs::{FileTypeExt, MetadataExt, fchown};
use std::rt::Clock;
use std::thread;
use std::time::Duration;

/// The number of tries to lock a file before giving up.
const TRIES: u32 = 3000;

/// The pause between two tries, in milliseconds: half a minute in all.
const PAUSE: u64 = 10;

/// The number of tries after which a message reports the wait: about a second.
const PATIENCE: u32 = 100;

/// The kind of a file.
#[derive(Clone, Copy, PartialEq, Eq)]
pub enum FileKind {
    /// A regular file.
    Regular,
    /// A block or character device that isn't a terminal.
    Device,
    /// A directory.
    Directory,
    /// A pipe, a socket or a terminal: bytes that were read from it can't be read again.
    Stream,
}

impl FileKind {
    /// Returns the kind that the system reports. Here a terminal counts as a device.
    fn of(metadata: &Metadata) -> FileKind
        ensures regular { (result ≡ FileKind.Regular) ↔ IsFile (file_type metadata.now) }
        ensures directory { (result ≡ FileKind.Directory) ↔ IsDir (file_type metadata.now) }
    {
        let file_type = metadata.file_type();
        if file_type.is_file() {
            FileKind::Regular
        } else if file_type.is_dir() {
            FileKind::Directory
        } else if file_type.is_block_device() || file_type.is_char_device() {
            FileKind::Device
        } else {
            FileKind::Stream
        }
    }
}

/// The identity of a file and of its contents: two equal stamps belong to one file that hasn't changed, unless it was written twice within one tick
/// of its clock without a change of its size.
#[derive(Clone, Copy, PartialEq, Eq)]
pub struct Stamp {
    /// The kind of the file.
    pub kind: FileKind,
    /// The device that the file is on.
    pub device: u64,
    /// The file's i-number on the device.
    pub ino: u64,
    /// The file's size in bytes.
    pub size: u64,
    /// The time of the file's last modification, in seconds since 1970.
    pub seconds: i64,
    /// The nanoseconds of that time.
    pub nanoseconds: i64,
}

impl Stamp {
    /// Returns the stamp of a file, from the metadata that the system reports.
    fn of(metadata: &Metadata) -> Stamp
        ensures regular { (result.kind ≡ FileKind.Regular) ↔ IsFile (file_type metadata.now) }
        ensures directory { (result.kind ≡ FileKind.Directory) ↔ IsDir (file_type metadata.now) }
        ensures size { result.size ≡ metadata_len metadata.now }
    {
        Stamp {
            kind: FileKind::of(metadata),
            device: metadata.dev(),
            ino: metadata.ino(),
            size: metadata.len(),
            seconds: metadata.mtime(),
            nanoseconds: metadata.mtime_nsec(),
        }
    }

    /// True if both stamps belong to the same file, changed or not.
    pub fn is_of(self, other: Stamp) -> bool
        ensures { result ≡ (self.device == other.device && self.ino == other.ino) }
    {
        self.device == other.device && self.ino == other.ino
    }
}

impl ImageFiles for HostRuntime {
    ghost had = { λ _ _. Unit {0} };

    ghost stood = { λ _. Unit {0} };

    ghost stands = { λ _ _. Unit {0} };

    ghost listed = { λ _ _. Unit {0} };

    ghost refused = { λ _ _ _. Unit {0} };

    fn stamp_of(&self, file: &File) -> io::Result<Stamp> {
        let stamp = Stamp::of(&file.metadata()?);
        let kind = if file.is_terminal() {
            FileKind::Stream
        } else {
            stamp.kind
        };
        Ok(Stamp { kind, ..stamp })
    }

    fn sized_stamp_of(&self, file: &mut File) -> io::Result<Stamp> {
        let stamp = self.stamp_of(file)?;
        if stamp.kind != FileKind::Device {
            return Ok(stamp);
        }
        let size = end_of(file)?;
        Ok(Stamp { size, ..stamp })
    }

    fn stamp_at(&self, path: &str) -> io::Result<Stamp> {
        Ok(Stamp::of(&fs::metadata(self, path)?))
    }

    fn stamp_of_name(&self, path: &str) -> io::Result<Stamp> {
        Ok(Stamp::of(&fs::symlink_metadata(self, path)?))
    }

    fn folder_at(&self, path: &str) -> io::Result<FolderListing> {
        folder_listing(self, path)
    }

    fn is_there(&self, path: &str) -> bool {
        match fs::symlink_metadata(self, path) {
            Ok(_) => true,
            Err(error) => error.kind() != io::ErrorKind::NotFound,
        }
    }

    fn give(&self, file: &File, user: Option<u32>, group: Option<u32>) -> bool {
        fchown(file, user, group).is_ok()
    }

    fn try_lock(&self, file: &File) -> bool {
        !matches!(file.try_lock(), Err(TryLockError::WouldBlock))
    }

    fn pass_over(&self, file: &mut File, count: u64) -> io::Result<()> {
        let here = file.stream_position()?;
        file.seek(SeekFrom::Start(offset_after(here, count)?))?;
        Ok(())
    }

    fn append_hole(&self, file: &mut File, count: u64) -> io::Result<()> {
        let end = file.seek(SeekFrom::End(0))?;
        file.set_len(offset_after(end, count)?)?;
        file.seek(SeekFrom::End(0))?;
        Ok(())
    }
}

/// Returns the number of bytes before the end of an open file, which stays where it was.
fn end_of(file: &mut File) -> io::Result<u64> {
    let here = file.stream_position()?;
    let end = file.seek(SeekFrom::End(0))?;
    file.seek(SeekFrom::Start(here))?;
    Ok(end)
}

/// Returns the offset `count` bytes after another one, or an error if no file has it.
fn offset_after(offset: u64, count: u64) -> io::Result<u64> {
    match offset.checked_add(count) {
        Some(after) => Ok(after),
        None => Err(io::Error::from(io::ErrorKind::InvalidInput)),
    }
}

/// Opens a file to read it, and returns it with its stamp.
pub fn open_stamped<R: ImageFiles>(rt: &R, path: &str) -> io::Result<(R::File, Stamp)>
    ensures { IfOk result (λ opened. R.had opened.0 opened.1) }
{
    let file = fs::open(rt, path)?;
    let stamp = rt.stamp_of(&file)?;
    rt.begin(Stage::of_reading(stamp));
    Ok((file, stamp))
}

/// Opens a file to read it, and returns it with its stamp; of a device, the stamp's size is the number of its bytes.
pub fn open_sized<R: ImageFiles>(rt: &R, path: &str) -> io::Result<(R::File, Stamp)>
    ensures { IfOk result (λ opened. R.had opened.0 opened.1) }
{
    let mut file = fs::open(rt, path)?;
    let stamp = rt.sized_stamp_of(&mut file)?;
    rt.begin(Stage::of_reading(stamp));
    Ok((file, stamp))
}

/// The reason why the file of an image can't be changed, with an error that describes it.
#[derive(Clone, Copy)]
pub enum OpenFault {
    /// It can't be opened.
    Unread(io::Error),
    /// It is a pipe, a socket or a terminal.
    Stream(io::Error),
    /// Another program had it locked for half a minute.
    Locked(io::Error),
}

/// The message for a pipe, a socket or a terminal.
const STREAM: &str = "it is a pipe, a socket or a terminal, which keeps nothing to be changed";

/// The message for a file that another program has locked.
const LOCKED: &str = "another program has had it locked for half a minute";

/// The result of one try to open the file of an image.
enum Try<F> {
    /// It is open and locked, and still at its path, with this stamp.
    Open(F, Stamp),
    /// It is a pipe, a socket or a terminal.
    Stream,
    /// Another program has it locked, or has just replaced it.
    Busy,
}

/// Checks that the file of an image can be opened for a change, and closes it again. Doesn't wait for a lock.
pub fn expect_image<R: ImageFiles>(rt: &R, path: &str) -> Result<(), OpenFault> {
    match open_kept(rt, path) {
        Ok(Some(_)) => Ok(()),
        Ok(None) => Err(OpenFault::Stream(io::Error::other(STREAM))),
        Err(why) => Err(OpenFault::Unread(why)),
    }
}

/// Opens the file of an image for a change, locks it, and returns it with its stamp. The lock ends when the file is closed. Waits at most half a
/// minute while another program has the file locked; if `is_watched`, a line on standard error reports this after a second.
pub fn open_image<R: ImageFiles + Clock + Eprint>(
    rt: &R,
    path: &str,
    is_watched: bool,
) -> Result<(R::File, Stamp), OpenFault>
    ensures { IfOk result (λ opened. OpensTo R.had opened.0 opened.1) }
{
    for tried in 0..TRIES {
        if is_watched && tried == PATIENCE {
            let _ = eprintln!(rt;
                "unixvol: {path}: waiting for another program that has it locked"
            );
        }
        match try_open(rt, path) {
            Ok(Try::Open(file, stamp)) => return Ok((file, stamp)),
            Ok(Try::Stream) => return Err(OpenFault::Stream(io::Error::other(STREAM))),
            Ok(Try::Busy) => thread::sleep(rt, Duration::from_millis(PAUSE)),
            Err(why) => return Err(OpenFault::Unread(why)),
        }
    }
    Err(OpenFault::Locked(io::Error::other(LOCKED)))
}

/// Tries once to open and lock the file of an image.
fn try_open<R: ImageFiles>(rt: &R, path: &str) -> io::Result<Try<R::File>>
    ensures { IfOk result (IsOpenTo R.had) }
{
    let Some((file, stamp)) = open_kept(rt, path)? else {
        return Ok(Try::Stream);
    };
    if rt.try_lock(&file) && rt.stamp_at(path)? == stamp {
        return Ok(Try::Open(file, stamp));
    }
    Ok(Try::Busy)
}

/// Opens a file and returns it with its stamp, unless it is a pipe, a socket or a terminal. A pipe isn't opened, since that could wait for the other
/// end of the pipe.
fn open_kept<R: ImageFiles>(rt: &R, path: &str) -> io::Result<Option<(R::File, Stamp)>>
    ensures { IfOk result (λ kept. IfSome kept (λ opened. OpensTo R.had opened.0 opened.1)) }
{
    if rt.stamp_at(path)?.kind == FileKind::Stream {
        return Ok(None);
    }
    let (file, stamp) = open_stamped(rt, path)?;
    if stamp.kind == FileKind::Stream {
        return Ok(None);
    }
    Ok(Some((file, stamp)))
}
