//! The acts of a save, in the order in which it may do them.
ghost use Rattle.std.specs.Prelude.{◌≡◌, ◌≢◌, ℕ, List, true, IfOk, IfSome, OnOk};
ghost use Rattle.std.specs.Path.{path_buf_bytes, path_bytes};
ghost use Rattle.host_files.specs.Save.{Fills, IsNamed, IsPlaced};
ghost use Rattle.host_files.specs.declared.image_file.FileKind.TheVariants as kinds;
ghost use Rattle.host_files.specs.declared.image_file.Stamp.{Stamp};

use crate::filling::{fill, fill_in_place};
use crate::image_file::Stamp;
use crate::saved_files::{Filling, Place, Target};
use crate::system::ImageFiles;
use std::fs::{self, Files, OpenFile, OpenOptions};
use std::io::{self, ErrorKind, Read, Write};
use std::os::unix::fs::OpenOptionsExt;
use std::path::{Path, PathBuf};

/// The greatest number of symbolic links that are followed in a row, which is the same as the system's.
const MOST_LINKS: u32 = 40;

/// The message for a file whose stamp has changed since it was read.
pub(crate) const CHANGED: &str = "it has changed since it was read";

/// The message for a file that another program has replaced.
const REPLACED: &str = "another program has put another file in its place";

/// The message if another program gave the new file's name to something else.
const MOVED: &str = "another program moved the new file that was to take its place";

/// The message for a path with too many symbolic links.
const TOO_MANY_LINKS: &str = "more than 40 symbolic links lead on from it";

/// The permissions of a new file until it gets the old file's: only its owner may use it.
const PRIVATE: u32 = 0o600;

/// The acts of a save. A save does nothing else to the host's files, and each act requires what the acts before it told: a new file is filled, synchronised
/// and locked, and then compared with what it replaces, before it takes that file's name; and no name is removed but that of a file that the save made.
pub(crate) trait SaveActs {
    /// An open file.
    type File: Read + Write + OpenFile + Drop;

    /// The system reported this stamp for an open file.
    ghost had: { Self.File → Stamp → Type 0 };

    /// The system reported this stamp for the file at a path.
    ghost stood: { Stamp → Type 0 };

    /// The save made a file at this path, where there was nothing.
    ghost made: { List ℕ → Type 0 };

    /// A new file was filled, and is as it was then.
    ghost filled: { Self.File → Type 0 };

    /// The system synchronised a filled file.
    ghost synced: { Self.File → Type 0 };

    /// The system locked a synchronised file, or has no locks for it.
    ghost locked: { Self.File → Type 0 };

    /// A locked file was compared with its name, the first path, and with the file that it replaces, at the second one.
    ghost compared: { Self.File → List ℕ → List ℕ → Type 0 };

    /// The system gave a compared file this path.
    ghost named: { Self.File → List ℕ → Type 0 };

    /// Opens the file at `path` for writing.
    fn open(&self, path: &str) -> io::Result<Self::File>;

    /// Returns the present stamp of an open file; a terminal is a stream.
    fn stamp_of(&self, file: &Self::File) -> io::Result<Stamp>
        ensures { IfOk result (had file.now) };

    /// Follows the symbolic links from `path`, as [`end_of_links`] does.
    fn end_of_links(&self, path: &str) -> io::Result<PathBuf>;

    /// Fails if the file that is to be replaced isn't at its path, or if none is to be replaced and there is any.
    fn expect_there(&self, target: &Target) -> io::Result<()>;

    /// Saves a filling in the open file at `path`, which isn't regular and has this stamp, as [`put_in_place`] does.
    fn put_in_place(
        &self,
        path: &str,
        file: Self::File,
        stamp: Stamp,
        read: Option<Stamp>,
        filling: Filling<'_>,
    ) -> io::Result<Place<Self::File>>
        requires had { had file stamp }
        requires irregular { stamp.kind ≢ kinds.Regular }
        ensures saved { IfOk result (IsPlaced Self.File.remaining Self.File.contents had filling.entry) }
        ensures unchanged { OnOk result (IfSome read stood) }
        ensures old { IfOk result (IsNamed named) };

    /// Makes an empty file at `path`, where there is nothing. If `is_private`, only its owner may use it.
    fn create(&self, path: Path<'_>, is_private: bool) -> io::Result<Self::File>
        ensures { OnOk result (made (path_bytes path.entry)) };

    /// Fills a new file, and returns it.
    fn fill(
        &self,
        file: Self::File,
        target: &Target,
        filling: Filling<'_>,
    ) -> io::Result<Self::File>
        ensures bytes { IfOk result (λ filled. Fills Self.File.remaining Self.File.contents filling.entry file filled) }
        ensures filled { IfOk result filled };

    /// Waits until the bytes of a filled file are on the disk.
    fn sync(&self, file: &Self::File) -> io::Result<()>
        requires { filled file.now }
        ensures { OnOk result (synced file.now) };

    /// Locks a synchronised file for this program alone. False if another program has it locked; true also if the file's system has no locks.
    fn lock(&self, file: &Self::File) -> bool
        requires { synced file.now }
        ensures { result ≡ true → locked file.now };

    /// Compares a locked file with its name, `beside`, and what is at the path that it is to take with what it replaces, and returns its stamp. The file
    /// that it replaces must still have the stamp that it was read with.
    fn compare(&self, file: &Self::File, beside: Path<'_>, target: &Target) -> io::Result<Stamp>
        requires { locked file.now }
        ensures stamp { IfOk result (had file.now) }
        ensures unchanged { OnOk result (IfSome target.now.read stood) }
        ensures compared { OnOk result (compared file.now (path_bytes beside.entry) (path_buf_bytes target.now.path)) };

    /// Renames a file that was compared just before, from `beside` to its path.
    fn rename(&self, file: &Self::File, beside: Path<'_>, target: &Target) -> io::Result<()>
        requires made { made (path_bytes beside) }
        requires compared { compared file.now (path_bytes beside) (path_buf_bytes target.now.path) }
        ensures { OnOk result (named file.now (path_buf_bytes target.now.path)) };

    /// Removes a file that the save made, if the system allows it.
    fn remove(&self, path: Path<'_>)
        requires { made (path_bytes path) };

    /// Synchronises the folder of `path`, if the system allows it. The image is complete in any case.
    fn sync_folder(&self, path: Path<'_>);
}

/// The acts of a save by the system.
#[derive(Drop)]
pub(crate) struct HostActs<'a, R> {
    rt: &'a R,
}

impl<'a, R: ImageFiles> HostActs<'a, R> {
    /// Returns the acts of a save by this system.
    pub(crate) fn new(rt: &'a R) -> HostActs<'a, R> {
        HostActs { rt }
    }
}

impl<R: ImageFiles + AllocGlobal> SaveActs for HostActs<'_, R> {
    type File = R::File;

    ghost had = { R.had };

    ghost stood = { R.stood };

    ghost made = { λ _. Unit {0} };

    ghost filled = { λ _. Unit {0} };

    ghost synced = { λ _. Unit {0} };

    ghost locked = { λ _. Unit {0} };

    ghost compared = { λ _ _ _. Unit {0} };

    ghost named = { λ _ _. Unit {0} };

    fn open(&self, path: &str) -> io::Result<R::File> {
        OpenOptions::new().write(true).open(self.rt, path)
    }

    fn stamp_of(&self, file: &R::File) -> io::Result<Stamp> {
        self.rt.stamp_of(file)
    }

    fn end_of_links(&self, path: &str) -> io::Result<PathBuf> {
        end_of_links(self.rt, path)
    }

    fn expect_there(&self, target: &Target) -> io::Result<()> {
        expect_there(self.rt, target)
    }

    fn put_in_place(
        &self,
        path: &str,
        file: R::File,
        stamp: Stamp,
        read: Option<Stamp>,
        filling: Filling<'_>,
    ) -> io::Result<Place<R::File>> {
        expect_unchanged(self.rt, path, read)?;
        let stamp = put_in_place(self.rt, path, file, stamp, filling)?;
        Ok(Place::Old(stamp))
    }

    fn create(&self, path: Path<'_>, is_private: bool) -> io::Result<R::File> {
        let mut options = OpenOptions::new();
        options.write(true).create_new(true);
        if is_private {
            options.mode(PRIVATE);
        }
        options.open(self.rt, path)
    }

    fn fill(&self, file: R::File, target: &Target, filling: Filling<'_>) -> io::Result<R::File> {
        fill(self.rt, file, target, filling)
    }

    fn sync(&self, file: &R::File) -> io::Result<()> {
        file.sync_all()
    }

    fn lock(&self, file: &R::File) -> bool {
        self.rt.try_lock(file)
    }

    fn compare(&self, file: &R::File, beside: Path<'_>, target: &Target) -> io::Result<Stamp> {
        let stamp = self.rt.stamp_of(file)?;
        expect_unchanged(self.rt, target.path.as_path().as_str(), target.read)?;
        expect_there(self.rt, target)?;
        if !self.rt.stamp_of_name(beside.as_str())?.is_of(stamp) {
            return Err(io::Error::new(ErrorKind::ResourceBusy, MOVED));
        }
        Ok(stamp)
    }

    fn rename(&self, _file: &R::File, beside: Path<'_>, target: &Target) -> io::Result<()> {
        fs::rename(self.rt, beside, target.path.as_path())
    }

    fn remove(&self, path: Path<'_>) {
        let _ = fs::remove_file(self.rt, path);
    }

    fn sync_folder(&self, path: Path<'_>) {
        sync_folder(self.rt, path);
    }
}

/// Writes a filling into the open file at `path`, which isn't regular and has this stamp, if it is still there, and returns its new stamp.
fn put_in_place<R: ImageFiles>(
    rt: &R,
    path: &str,
    file: R::File,
    stamp: Stamp,
    filling: Filling<'_>,
) -> io::Result<Stamp>
    requires had { R.had file stamp }
    requires irregular { stamp.kind ≢ kinds.Regular }
    ensures { IfOk result (λ now. IsPlaced R.File.remaining R.File.contents R.had filling.entry (Place.Old now)) }
{
    expect_same(stamp, rt.stamp_at(path)?)?;
    let file = fill_in_place(rt, file, filling)?;
    rt.stamp_of(&file)
}

/// Fails if the file at `path` doesn't have the stamp that it had when it was read.
fn expect_unchanged<R: ImageFiles>(rt: &R, path: &str, read: Option<Stamp>) -> io::Result<()>
    ensures { OnOk result (IfSome read R.stood) }
{
    match read {
        Some(read) if rt.stamp_at(path)? != read => Err(io::Error::new(
            ErrorKind::ResourceBusy,
            CHANGED,
        )),
        _ => Ok(()),
    }
}

/// Fails if two stamps are of different files.
fn expect_same(one: Stamp, other: Stamp) -> io::Result<()> {
    if one.is_of(other) {
        Ok(())
    } else {
        Err(io::Error::new(ErrorKind::ResourceBusy, REPLACED))
    }
}

/// Fails if the file that is to be replaced isn't at its path, or if none is to be replaced and there is any.
fn expect_there<R: ImageFiles>(rt: &R, target: &Target) -> io::Result<()> {
    let path = target.path.as_path().as_str();
    match &target.old {
        Some(old) => expect_same(old.stamp, rt.stamp_of_name(path)?),
        None if rt.is_there(path) => Err(io::Error::new(ErrorKind::ResourceBusy, REPLACED)),
        None => Ok(()),
    }
}

/// Follows the symbolic links from `path` until a path that isn't a link, and returns that path, which is `path` itself if it isn't a link. There may
/// be no file at its end.
pub(crate) fn end_of_links<R: Files + AllocGlobal>(rt: &R, path: &str) -> io::Result<PathBuf> {
    let mut place = PathBuf::from_str(rt.alloc(), path)?;
    for _ in 0..=MOST_LINKS {
        let target = match fs::read_link(rt, place.as_path()) {
            Err(error) if is_end(error) => return Ok(place),
            read => read?,
        };
        place = place.with_file_name(rt.alloc(), target.as_str())?;
    }
    Err(io::Error::new(ErrorKind::FilesystemLoop, TOO_MANY_LINKS))
}

/// True if the system's error for reading a link means that the path isn't a link: it is another kind of file, or doesn't exist.
fn is_end(error: io::Error) -> bool {
    let kind = error.kind();
    kind == ErrorKind::InvalidInput || kind == ErrorKind::NotFound
}

/// Synchronises the folder of `path`, if the system allows it. The image is complete in any case.
fn sync_folder<R: Files>(rt: &R, path: Path<'_>) {
    let folder = match path.parent() {
        Some(folder) if folder.as_str() != "" => folder,
        _ => Path::new("."),
    };
    if let Ok(folder) = fs::open(rt, folder) {
        let _ = folder.sync_all();
    }
}
