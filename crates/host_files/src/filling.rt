//! Writes what is saved into a file.
ghost use Rattle.std.specs.Prelude.{IfOk};
ghost use Rattle.std.specs.Io.KnownBytes.{Appends};
ghost use Rattle.host_files.specs.Save.{Fills, FillsPart, Grows, GrowsInPlace, IsIrregular};

use crate::acts::CHANGED;
use crate::holed_file::HoledFile;
use crate::holes::{SinkFailed, write_with_holes};
use crate::image_file::open_stamped;
use crate::marks::give_marks;
use crate::noted::{noted_reader, noted_writer};
use crate::pack::{SpliceFault, passed_over, splice};
use crate::progress::Stage;
use crate::saved_files::{Content, Filling, Replaced, Target, VolumePart};
use crate::system::ImageFiles;
use pdp_words::BLOCK;
use std::fs::{Metadata, OpenFile, Permissions};
use std::io::{self, ErrorKind, Write};
use std::os::unix::fs::{MetadataExt, PermissionsExt};
use std::path::Path;

/// The permissions that a new file takes over from the old one. The bits that run a program with its owner's rights aren't among them, since an image
/// isn't run.
const RIGHTS: u32 = 0o777;

/// Gives the new file `file` the owner, the group and the permissions of the one that it replaces, fills it, gives it the marks, and returns it.
pub(crate) fn fill<R: ImageFiles>(
    rt: &R,
    file: R::File,
    target: &Target,
    filling: Filling<'_>,
) -> io::Result<R::File>
    ensures { IfOk result (λ filled. Fills R.File.remaining R.File.contents filling.entry file filled) }
{
    if let Some(old) = &target.old {
        keep_owner(rt, &file, &old.metadata)?;
    }
    let file = write_new(rt, file, target, filling)?;
    if let Some(marks) = target.marks {
        give_marks(&file, marks)?;
    }
    Ok(file)
}

/// Writes a filling after the bytes that a new file holds, and returns the file. Zeros of bytes in memory and of the old file become holes if the old
/// file has holes.
fn write_new<R: ImageFiles>(
    rt: &R,
    file: R::File,
    target: &Target,
    filling: Filling<'_>,
) -> io::Result<R::File>
    ensures { IfOk result (λ written. Fills R.File.remaining R.File.contents filling.entry file written) }
{
    rt.begin(Stage::Writing(filling.size()));
    match (filling, &target.old) {
        (Filling::Part(part), Some(old)) => {
            write_part(rt, file, target.path.as_path(), old, part)
        }
        // A volume has a place only in a file that is there.
        (Filling::Part(_), None) => Err(io::Error::new(ErrorKind::ResourceBusy, CHANGED)),
        (Filling::Whole(Content::Bytes(bytes)), Some(old)) if old.has_holes() => {
            write_holed(rt, file, bytes)
        }
        (Filling::Whole(content), _) => write(file, content),
    }
}

/// Writes the old file at `path` into a new one, with a volume in its place, and returns the new file. Zeros become holes if the old file has holes. The
/// old file must still have its stamp.
fn write_part<R: ImageFiles>(
    rt: &R,
    file: R::File,
    path: Path<'_>,
    old: &Replaced,
    part: VolumePart<'_>,
) -> io::Result<R::File>
    ensures { IfOk result (λ written. FillsPart R.File.remaining R.File.contents part.entry file written) }
{
    let (whole, stamp) = open_stamped(rt, path.as_str())?;
    if stamp != old.stamp {
        return Err(io::Error::new(ErrorKind::ResourceBusy, CHANGED));
    }
    rt.begin(Stage::Writing(Some(stamp.size)));
    let mut pack = noted_reader(whole);
    let mut sink = HoledFile::new(rt, file, old.has_holes());
    match splice(&mut pack, &mut sink, BLOCK * part.at as usize, part.bytes) {
        Ok(()) => Ok(sink.into_inner()),
        Err(SpliceFault::Unread) => Err(unread(pack.error())),
        Err(SpliceFault::Unwritten) => Err(unwritten(sink.error())),
        Err(SpliceFault::Misfit) => Err(io::Error::new(ErrorKind::ResourceBusy, CHANGED)),
    }
}

/// Writes bytes after those that a file holds, with holes for zeros, and returns the file.
fn write_holed<R: ImageFiles>(rt: &R, file: R::File, bytes: &[u8]) -> io::Result<R::File>
    ensures { IfOk result (λ written. Appends (R.File.contents file) (R.File.contents written) bytes.now) }
{
    let mut sink = HoledFile::new(rt, file, true);
    match write_with_holes(&mut sink, bytes) {
        Ok(()) => Ok(sink.into_inner()),
        Err(SinkFailed) => Err(unwritten(sink.error())),
    }
}

/// Changes the owner, group and permissions of an open file to those of an old file. Only the super-user can change a file's owner; other users stay
/// its owner, and can only choose one of their groups.
fn keep_owner<R: ImageFiles>(rt: &R, file: &R::File, old: &Metadata) -> io::Result<()> {
    let new = file.metadata()?;
    let mut mode = old.permissions().mode() & RIGHTS;
    if new.gid() != old.gid() && !rt.give(file, None, Some(old.gid())) {
        mode = without_group(mode);
    }
    if new.uid() != old.uid() {
        let _ = rt.give(file, Some(old.uid()), None);
    }
    file.set_permissions(Permissions::from_mode(mode))
}

/// Returns the permissions of a file that can't have its old group: the new group gets none, and other users only those that the old group had too.
fn without_group(mode: u32) -> u32 {
    (mode & 0o700) | (mode & (mode >> 3) & 0o007)
}

/// Writes a filling into something other than a regular file, a volume in its place, and returns the file.
pub(crate) fn fill_in_place<R: ImageFiles>(
    rt: &R,
    file: R::File,
    filling: Filling<'_>,
) -> io::Result<R::File>
    requires { IsIrregular R.had file }
    ensures { IfOk result (λ filled. GrowsInPlace R.File.contents filling.entry filled) }
{
    rt.begin(Stage::Writing(filling.size()));
    match filling {
        Filling::Whole(content) => write_in_place(file, content),
        Filling::Part(part) => {
            let file = passed_over(rt, file, BLOCK as u64 * u64::from(part.at))?;
            write_in_place(file, Content::Bytes(part.bytes))
        }
    }
}

/// Writes a content into something other than a regular file, synchronises it if it is on a disk, and returns the file.
fn write_in_place<F: Write + OpenFile + Drop>(file: F, content: Content<'_>) -> io::Result<F>
    ensures { IfOk result (λ written. Grows content.entry (F.contents file) (F.contents written)) }
{
    let file = write(file, content)?;
    match file.sync_all() {
        // A pipe or a terminal can't be synchronised.
        Err(error) if error.kind() != ErrorKind::InvalidInput => Err(error),
        _ => Ok(file),
    }
}

/// Writes a content after the bytes that a file holds, and returns the file.
fn write<F: Write + Drop>(file: F, content: Content<'_>) -> io::Result<F>
    ensures { IfOk result (λ written. Grows content.entry (F.contents file) (F.contents written)) }
{
    let mut sink = noted_writer(file);
    match content.write_to(&mut sink) {
        Ok(()) => Ok(sink.into_inner().into_inner()),
        Err(_) => Err(unwritten(sink.error())),
    }
}

/// Returns the error for a file that couldn't be written completely: the system's, unless it would mean that this program ran out of memory.
fn unwritten(error: Option<io::Error>) -> io::Error {
    match error {
        Some(error) if error.kind() != ErrorKind::OutOfMemory => error,
        _ => io::Error::from(ErrorKind::WriteZero),
    }
}

/// Returns the error for a file that couldn't be read completely: the system's, unless it would mean that this program ran out of memory.
fn unread(error: Option<io::Error>) -> io::Error {
    match error {
        Some(error) if error.kind() != ErrorKind::OutOfMemory => error,
        _ => io::Error::from(ErrorKind::Other),
    }
}
