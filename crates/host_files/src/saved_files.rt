//! Saves an image in a file so that a failure leaves the old file unchanged.
ghost use Rattle.std.specs.Prelude.{◌≡◌, true, IfOk, IfSome, OnErr, OnOk};
ghost use Rattle.std.specs.Path.{path_bytes, path_buf_bytes};
ghost use Rattle.host_files.specs.Save.{Fills, Grows, Holds, IsBeside, IsFilled, IsNamed, IsPlaced, IsTaken, Saves, Stores};

use crate::acts::{HostActs, SaveActs, end_of_links};
use crate::image_file::{FileKind, Stamp};
use crate::marks::Marks;
use crate::system::ImageFiles;
use pdp_words::{SaveFault, Sink, write_all};
use std::alloc::Global;
use std::fs::{Metadata, OpenFile};
use std::io::{self, ErrorKind};
use std::os::unix::fs::MetadataExt;
use std::path::{Path, PathBuf};
use vol_mkfs::BlankVolume;

/// The number of names that are tried for the new file.
const TRIES: u32 = 1000;

/// The message for a new file that another program has locked.
const TAKEN: &str = "another program has locked the new file that was to take its place";

/// The message for a folder in which no new file can be made.
const NO_NAME: &str = "beside it .unixvol-0 to .unixvol-999 are all there";

/// The size of the blocks in which the system counts what a file stores.
const STORED_BLOCK: u64 = 512;

/// The content to save in a file.
#[derive(Clone, Copy)]
pub enum Content<'a> {
    /// Bytes in memory.
    Bytes(&'a [u8]),
    /// A new volume, whose bytes are made while they are written.
    Volume(&'a BlankVolume),
}

/// The volume in a file, and the bytes to put in its place.
#[derive(Clone, Copy)]
pub struct VolumePart<'a> {
    /// The number of the block of the file that the volume begins at.
    pub at: u32,
    /// The volume's bytes.
    pub bytes: &'a [u8],
}

/// What is written into a file.
#[derive(Clone, Copy)]
pub(crate) enum Filling<'a> {
    /// A content, which is all that a new file holds.
    Whole(Content<'a>),
    /// A volume. A new file also holds what precedes it and what follows it in the old one.
    Part(VolumePart<'a>),
}

impl Filling<'_> {
    /// Returns the number of bytes that are written in a new place, unless they are made while they are written.
    pub(crate) fn size(self) -> Option<u64> {
        match self {
            Filling::Whole(Content::Bytes(bytes)) | Filling::Part(VolumePart { at: _, bytes }) =>
                Some(bytes.len() as u64),
            Filling::Whole(Content::Volume(_)) => None,
        }
    }
}

/// The regular file that a new one will replace.
#[derive(Drop)]
pub(crate) struct Replaced {
    /// Its stamp.
    pub(crate) stamp: Stamp,
    /// Its owner, its group and its permissions.
    pub(crate) metadata: Metadata,
}

impl Replaced {
    /// True if the file stores fewer blocks than its size takes, so that it has holes; if the system counts no blocks, it is one hole.
    pub(crate) fn has_holes(&self) -> bool {
        self.metadata.blocks() < self.metadata.len() / STORED_BLOCK
    }
}

/// The place of a new file, and what it gets besides its bytes.
#[derive(Drop)]
pub(crate) struct Target {
    /// The path that the file gets, which isn't a symbolic link.
    pub(crate) path: PathBuf,
    /// The file that it replaces, if there is one.
    pub(crate) old: Option<Replaced>,
    /// The stamp that the file at `path` must have just before, if it was read.
    pub(crate) read: Option<Stamp>,
    /// The marks that it gets, if some are given.
    pub(crate) marks: Option<Marks>,
}

/// The file in which a content was saved, and its stamp now.
#[derive(Drop)]
pub(crate) enum Place<F> {
    /// A new file, which replaced the old one and is locked.
    New(F, Stamp),
    /// The old file, which isn't a regular file.
    Old(Stamp),
}

/// The file of an image, which stays open and locked while the image changes and is saved in it.
#[derive(Drop)]
pub struct HeldFile<F> {
    /// The file.
    pub file: F,
    /// The stamp of the file when it was last read or saved.
    pub stamp: Stamp,
}

impl Content<'_> {
    /// Writes all bytes of the content, from the first to the last.
    pub(crate) fn write_to<W: Sink>(self, sink: &mut W) -> Result<(), SaveFault>
        ensures ok { OnOk result (Grows self.entry (W.contents sink.old) (W.contents sink.new)) }
        ensures fault { OnErr result (W.failed sink.new ≡ true) }
    {
        match self {
            Content::Bytes(bytes) => write_all(sink, bytes),
            Content::Volume(volume) => volume.write_to(sink),
        }
    }
}

/// Saves a content in the file `path`. Its bytes are written to a new file in the same folder, which then replaces the old one. The new file gets the
/// old one's owner, group and permissions if the system allows it; otherwise it belongs to the caller, without the rights of a group that it can't
/// have. If the old file has holes, the zeros of bytes in memory become holes of the new one. If this fails, the old file is unchanged, and there is no
/// new one. A symbolic link is followed. Anything but a regular file, such as a device or a pipe, is written in place.
///
/// The error is the system's if a file can't be opened, written, synchronised or renamed; `ResourceBusy` if another program
/// gave the new file's name to something else; `FilesystemLoop` if there are more than 40 symbolic links; `AlreadyExists` if all thousand names of
/// new files are in use; `OutOfMemory` if an allocation was refused.
pub fn save_file<R: ImageFiles + AllocGlobal>(
    rt: &R,
    path: &str,
    content: Content<'_>,
) -> io::Result<()>
    ensures { OnOk result (Saves R.File.contents content.entry) }
{
    let acts = HostActs::new(rt);
    put(&acts, rt.alloc(), path, None, Filling::Whole(content), None)?;
    Ok(())
}

/// Saves a volume in its place in the file `path`, as [`save_file`] does: the new file has what precedes the volume and what follows it in the old one,
/// and holes for its zeros if the old one has holes. Of anything but a regular file only the volume's bytes are written.
///
/// `read` is the stamp that the file had when the volume was read. The stamp must be the same just before the new file replaces the file or the first
/// byte is written.
///
/// The errors are those of [`save_file`]; and `ResourceBusy` if the stamp differs, or the file ends before the volume does.
///
/// Costs reading and writing the whole file, and takes no memory for it.
pub fn save_volume<R: ImageFiles + AllocGlobal>(
    rt: &R,
    path: &str,
    read: Stamp,
    part: VolumePart<'_>,
) -> io::Result<()>
    ensures saved { OnOk result (Stores R.File.remaining R.File.contents R.had part.entry) }
    ensures unchanged { OnOk result (R.stood read) }
{
    let acts = HostActs::new(rt);
    let filling = Filling::Part(part);
    put(&acts, rt.alloc(), path, Some(read), filling, None)?;
    Ok(())
}

/// Saves a volume as all that the file `path` holds, as [`save_file`] does, if the file has the stamp `read` just before, as for [`save_volume`].
///
/// The errors are those of [`save_file`]; and `ResourceBusy` if the stamp differs.
pub fn save_whole<R: ImageFiles + AllocGlobal>(
    rt: &R,
    path: &str,
    read: Stamp,
    bytes: &[u8],
) -> io::Result<()>
    ensures saved { OnOk result (IsTaken R.File.contents bytes.now) }
    ensures unchanged { OnOk result (R.stood read) }
{
    let acts = HostActs::new(rt);
    let filling = Filling::Whole(Content::Bytes(bytes));
    put(&acts, rt.alloc(), path, Some(read), filling, None)?;
    Ok(())
}

/// Saves a content in the file `path`, as [`save_file`] does, and gives a new file these marks before it takes the old one's place. Anything but a
/// regular file keeps its own.
///
/// The errors are those of [`save_file`], or the system's if it refuses the marks.
pub fn save_marked<R: ImageFiles + AllocGlobal>(
    rt: &R,
    path: &str,
    content: Content<'_>,
    marks: Marks,
) -> io::Result<()>
    ensures { OnOk result (Saves R.File.contents content.entry) }
{
    let acts = HostActs::new(rt);
    let filling = Filling::Whole(content);
    put(&acts, rt.alloc(), path, None, filling, Some(marks))?;
    Ok(())
}

/// Saves a content in a new file at `path`, which only its owner may use. If there is anything at `path`, even a symbolic link, it stays, and the error
/// is `AlreadyExists`. If the file can't be written or synchronised, it is removed, and the error is the system's. If memory runs out for the path, the
/// error is `OutOfMemory`, and no file is made.
pub fn save_apart<R: ImageFiles + AllocGlobal>(
    rt: &R,
    path: &str,
    content: Content<'_>,
) -> io::Result<()>
    ensures { OnOk result (Saves R.File.contents content.entry) }
{
    let acts = HostActs::new(rt);
    let target = Target {
        path: PathBuf::from_str(rt.alloc(), path)?,
        old: None,
        read: None,
        marks: None,
    };
    put_apart(&acts, &target, Filling::Whole(content))
}

/// Saves a filling in a new file, which only its owner may use, or removes it again.
fn put_apart<A: SaveActs>(acts: &A, target: &Target, filling: Filling<'_>) -> io::Result<()>
    ensures { OnOk result (IsFilled A.File.remaining A.File.contents A.synced filling.entry) }
{
    let path = target.path.as_path();
    let file = acts.create(path, true)?;
    match fill(acts, file, target, filling) {
        Ok(_) => {
            acts.sync_folder(path);
            Ok(())
        }
        Err(error) => {
            acts.remove(path);
            Err(error)
        }
    }
}

/// Saves a volume in its place in the file `path`, as [`save_volume`] does with the stamp of `held`. `held` was opened at `path` and is locked. The new file
/// is locked before it replaces the old one, and then replaces it in `held`, so no other command can run between two saves. A file that isn't regular
/// stays in `held`.
///
/// The errors are the same as for [`save_volume`]; after an error `held` is unchanged.
pub fn save_held<R: ImageFiles + AllocGlobal>(
    rt: &R,
    path: &str,
    held: &mut HeldFile<R::File>,
    part: VolumePart<'_>,
) -> io::Result<()>
    ensures saved { OnOk result (Stores R.File.remaining R.File.contents R.had part.entry) }
    ensures unchanged { OnOk result (R.stood held.old.stamp) }
    ensures held { OnOk result (Holds R.File.remaining R.File.contents R.had part.entry held.old held.new) }
    ensures kept { OnErr result (held.new ≡ held.old) }
{
    let acts = HostActs::new(rt);
    let filling = Filling::Part(part);
    match put(&acts, rt.alloc(), path, Some(held.stamp), filling, None)? {
        Place::New(file, stamp) => *held = HeldFile { file, stamp },
        Place::Old(stamp) => held.stamp = stamp,
    }
    Ok(())
}

/// Saves a filling in the file `path`, as [`save_file`] and [`save_volume`] do, with these marks if it is a new file and some are given, and returns the
/// file in which it was saved.
fn put<A: SaveActs>(
    acts: &A,
    alloc: Global,
    path: &str,
    read: Option<Stamp>,
    filling: Filling<'_>,
    marks: Option<Marks>,
) -> io::Result<Place<A::File>>
    ensures saved { IfOk result (IsPlaced A.File.remaining A.File.contents A.had filling.entry) }
    ensures unchanged { OnOk result (IfSome read A.stood) }
    ensures named { IfOk result (IsNamed A.named) }
{
    match acts.open(path) {
        Ok(file) => {
            let metadata = file.metadata()?;
            let stamp = acts.stamp_of(&file)?;
            if stamp.kind != FileKind::Regular {
                return acts.put_in_place(path, file, stamp, read, filling);
            }
            let target = Target {
                path: acts.end_of_links(path)?,
                old: Some(Replaced { stamp, metadata }),
                read,
                marks,
            };
            replace(acts, alloc, &target, filling)
        }
        Err(error) if error.kind() == ErrorKind::NotFound => {
            let target = Target {
                path: acts.end_of_links(path)?,
                old: None,
                read,
                marks,
            };
            replace(acts, alloc, &target, filling)
        }
        Err(error) => Err(error),
    }
}

/// Saves a filling in a new file, which takes its path once it is complete, and returns it, locked.
fn replace<A: SaveActs>(
    acts: &A,
    alloc: Global,
    target: &Target,
    filling: Filling<'_>,
) -> io::Result<Place<A::File>>
    ensures saved { IfOk result (IsPlaced A.File.remaining A.File.contents A.had filling.entry) }
    ensures unchanged { OnOk result (IfSome target.now.read A.stood) }
    ensures named { IfOk result (IsNamed A.named) }
{
    acts.expect_there(target)?;
    let (file, beside) = new_file(acts, alloc, target)?;
    match finish(acts, file, beside.as_path(), target, filling) {
        Ok((file, stamp)) => Ok(Place::New(file, stamp)),
        Err(error) => {
            acts.remove(beside.as_path());
            Err(error)
        }
    }
}

/// Fills the new file, which is open as `file` and named `beside`, locks it, renames it to its path, and returns it with its stamp. Both names must still
/// belong to the same files as before, and the old file must still have the stamp that it was read with.
fn finish<A: SaveActs>(
    acts: &A,
    file: A::File,
    beside: Path<'_>,
    target: &Target,
    filling: Filling<'_>,
) -> io::Result<(A::File, Stamp)>
    requires made { A.made (path_bytes beside) }
    ensures filled { IfOk result (λ done. Fills A.File.remaining A.File.contents filling.entry file done.0) }
    ensures stamp { IfOk result (λ done. A.had done.0 done.1) }
    ensures unchanged { OnOk result (IfSome target.now.read A.stood) }
    ensures named { IfOk result (λ done. A.named done.0 (path_buf_bytes target.now.path)) }
{
    let file = fill(acts, file, target, filling)?;
    if !acts.lock(&file) {
        return Err(io::Error::new(ErrorKind::ResourceBusy, TAKEN));
    }
    let stamp = acts.compare(&file, beside, target)?;
    acts.rename(&file, beside, target)?;
    acts.sync_folder(target.path.as_path());
    Ok((file, stamp))
}

/// Fills a new file, waits until its bytes are on the disk, and returns it.
fn fill<A: SaveActs>(
    acts: &A,
    file: A::File,
    target: &Target,
    filling: Filling<'_>,
) -> io::Result<A::File>
    ensures filled { IfOk result (λ filled. Fills A.File.remaining A.File.contents filling.entry file filled) }
    ensures synced { IfOk result A.synced }
{
    let file = acts.fill(file, target, filling)?;
    acts.sync(&file)?;
    Ok(file)
}

/// True if `path`, or the end of its symbolic links, is a pipe or a socket: opening a pipe for writing waits until another program reads from it.
/// False if the system can't examine the path, and for a pipe without a name, to which `/dev/stdout` may lead.
pub fn is_pipe<R: ImageFiles + AllocGlobal>(rt: &R, path: &str) -> bool {
    let Ok(place) = end_of_links(rt, path) else {
        return false;
    };
    match rt.stamp_of_name(place.as_path().as_str()) {
        Ok(stamp) => stamp.kind == FileKind::Stream,
        Err(_) => false,
    }
}

/// Makes an empty file beside the one that it is to replace, with an unused name.
fn new_file<A: SaveActs>(acts: &A, alloc: Global, target: &Target) -> io::Result<(A::File, PathBuf)>
    ensures beside { IfOk result (λ new. IsBeside (path_buf_bytes target.now.path) (path_buf_bytes new.1)) }
    ensures made { IfOk result (λ new. A.made (path_buf_bytes new.1)) }
{
    let path = target.path.as_path();
    for number in 0..TRIES {
        let name = format!(in alloc; ".unixvol-{number}")?;
        let beside = path.with_file_name(alloc, name.as_str())?;
        match acts.create(beside.as_path(), target.old.is_some()) {
            Err(error) if error.kind() == ErrorKind::AlreadyExists => {}
            made => return Ok((made?, beside)),
        }
    }
    Err(io::Error::new(ErrorKind::AlreadyExists, NO_NAME))
}
