//! The permissions and the time of last modification of files, which are kept when a file is copied.
ghost use Rattle.std.specs.Prelude.{◌≤◌, IfOk};

use crate::image_file::Stamp;
use std::fs::{FileTimes, OpenFile, Permissions};
use std::io::{self, ErrorKind};
use std::os::unix::fs::{MetadataExt, PermissionsExt};
use std::time::{Duration, UNIX_EPOCH};

/// All permissions, with the bits that run a program with its owner's or its group's rights, and the sticky bit.
const PERMISSIONS: u32 = 0o7777;

/// The permissions that a file gets from a volume. The bits that run a program with its owner's rights aren't among them, since the file belongs to
/// the caller.
const RIGHTS: u16 = 0o777;

/// The message for a file whose time of last modification doesn't fit in the 32 bits of an i-node.
const NO_TIME: &str =
    "it was modified before 1970 or after 7 February 2106, which no volume can say";

/// What a file gets when it is copied from a volume, besides its bytes.
#[derive(Clone, Copy)]
pub struct Marks {
    /// Its permissions. Only those in octal 777 are given.
    pub permissions: u16,
    /// The time of its last modification, in seconds since the beginning of 1970.
    pub modified: u32,
}

/// Returns the permissions of an open file, in octal 7777.
pub fn permissions_of<F: OpenFile>(file: &F) -> io::Result<u16>
    ensures { IfOk result (λ permissions. permissions ≤ 4095) }
{
    let mode = file.metadata()?.mode();
    Ok((mode & PERMISSIONS) as u16)
}

/// Returns the time of a file's last modification, in seconds since the beginning of 1970. Fails if it is before 1970 or after 7 February 2106.
pub fn modified_in(stamp: Stamp) -> io::Result<u32> {
    match u32::try_from(stamp.seconds) {
        Ok(seconds) => Ok(seconds),
        Err(_) => Err(io::Error::new(ErrorKind::InvalidData, NO_TIME)),
    }
}

/// Gives an open file its permissions and its time of last modification.
pub(crate) fn give_marks<F: OpenFile>(file: &F, marks: Marks) -> io::Result<()> {
    file.set_permissions(Permissions::from_mode(u32::from(marks.permissions & RIGHTS)))?;
    match UNIX_EPOCH.checked_add(Duration::from_secs(u64::from(marks.modified))) {
        Some(modified) => file.set_times(FileTimes::new().set_modified(modified)),
        None => Err(io::Error::new(ErrorKind::InvalidData, NO_TIME)),
    }
}
