//! Calls, which change a volume, and the records of them in the journal.
ghost use Rattle.std.specs.Prelude.{◌≡◌};
ghost use Rattle.vol_volume.specs.Perform.{caller_of, path_of};

use pdp_words::Bytes;
use vol_dir::Cred;
use vol_layout::DeviceId;

/// A call by a user at a given time in seconds, which becomes the time of the super-block and of the nodes that the call changes. Paths start at the
/// root, with or without a leading slash.
///
/// Each variant lists its refusals in the order in which they are checked. A walk is refused if a component follows something that is not a directory
/// (NotDirectory), a directory that doesn't grant execute (Access), or a directory without the name (NoEntry).
#[derive(Clone, PartialEq, Eq, Drop)]
pub enum Call {
    /// Creates an empty regular file. Refused: a path without components (Exists); the walk to the parent; a name that exists (Exists); a parent that
    /// doesn't grant write (Access), or that the new name would make larger than a file may be (TooBig); no free i-number (NoInode); too few free
    /// blocks (NoSpace).
    Create {
        /// The calling user, who owns the file.
        cred: Cred,
        /// The time of the call.
        now: u32,
        /// The file's path.
        path: Bytes,
        /// Its permission bits; only those in octal 7777 count.
        perm: u16,
    },
    /// Creates a directory with only `.` and `..`. Refused for the same reasons as Create and, between Access and TooBig, if the parent's link count
    /// is at the limit (TooManyLinks).
    Mkdir {
        /// The calling user, who owns the directory.
        cred: Cred,
        /// The time of the call.
        now: u32,
        /// The directory's path.
        path: Bytes,
        /// Its permission bits; only those in octal 7777 count.
        perm: u16,
    },
    /// Adds another name for a node that is not a directory. Refused: the walk of the source; a source that is a
    /// directory (IsDirectory); a target without components (Exists); the walk to the target's parent; a name that exists
    /// (Exists); a parent that doesn't grant write (Access); a source whose link count is at the limit (TooManyLinks); a
    /// parent that the new name would make larger than a file may be (TooBig); too few free blocks (NoSpace).
    Link {
        /// The calling user.
        cred: Cred,
        /// The time of the call.
        now: u32,
        /// The path of the existing node.
        source: Bytes,
        /// The path of the new name.
        target: Bytes,
    },
    /// Removes a name of a node that is not a directory; removing the last name frees the node. Refused: a path without
    /// components (IsDirectory); the walk to the parent; a name that doesn't exist (NoEntry); a parent that doesn't grant
    /// write (Access); a directory (IsDirectory).
    Unlink {
        /// The calling user.
        cred: Cred,
        /// The time of the call.
        now: u32,
        /// The path of the name.
        path: Bytes,
    },
    /// Removes a directory that has only `.` and `..`. Refused: a path without components (Invalid); the walk to the
    /// parent; the last name `.` or `..` (Invalid); a name that doesn't exist (NoEntry); a parent that doesn't grant write
    /// (Access); a node that is not a directory (NotDirectory), or a directory with other names (NotEmpty).
    Rmdir {
        /// The calling user.
        cred: Cred,
        /// The time of the call.
        now: u32,
        /// The directory's path.
        path: Bytes,
    },
    /// Writes bytes into a regular file, all or none. Bytes between its end and the offset become zeros. Refused: the
    /// walk; a directory (IsDirectory); a special file (NotRegular); a file that doesn't grant write (Access); bytes that
    /// would end past the greatest file size (TooBig); too few free blocks (NoSpace).
    Write {
        /// The calling user.
        cred: Cred,
        /// The time of the call.
        now: u32,
        /// The file's path.
        path: Bytes,
        /// The position of the first byte written, counted from 0.
        offset: u32,
        /// The bytes. If there are none, only the super-block's time changes.
        bytes: Bytes,
    },
    /// Shortens a regular file to its first `length` bytes. Refused: the walk; a directory (IsDirectory); a special file
    /// (NotRegular); a file that doesn't grant write (Access); a length above the file's size (Invalid).
    Truncate {
        /// The calling user.
        cred: Cred,
        /// The time of the call.
        now: u32,
        /// The file's path.
        path: Bytes,
        /// The number of bytes to keep.
        length: u32,
    },
    /// Changes the permission bits of a node of any kind. Refused: the walk; a user who is neither 0 nor the node's
    /// owner (NotOwner).
    Chmod {
        /// The calling user.
        cred: Cred,
        /// The time of the call.
        now: u32,
        /// The node's path.
        path: Bytes,
        /// The permission bits; only those in octal 7777 count.
        perm: u16,
    },
    /// Changes the user and group of a node of any kind; its permission bits don't change. Refused: a new user or group number above the edition's
    /// limit (BadId, before all others); the walk; a user other than 0 (NotOwner).
    Chown {
        /// The calling user.
        cred: Cred,
        /// The time of the call.
        now: u32,
        /// The node's path.
        path: Bytes,
        /// The new user.
        uid: u16,
        /// The new group.
        gid: u16,
    },
    /// Sets the times of a node of any kind. In the seventh edition the time of its i-node's change becomes the time of the call, as in every call.
    /// Refused: the walk; a user who is neither 0 nor the node's owner (NotOwner). (utime, section 2 of the manual.)
    Times {
        /// The calling user.
        cred: Cred,
        /// The time of the call.
        now: u32,
        /// The node's path.
        path: Bytes,
        /// The time of its last access, in seconds since the beginning of 1970.
        atime: u32,
        /// The time of its last modification, in seconds since the beginning of 1970.
        mtime: u32,
    },
    /// Creates the special file of a device. Refused: a path without components (Exists); the walk to the parent; a user other than 0 (NotOwner); then
    /// as Create, from a name that exists on. (mknod, section 2 of the manual.)
    Mknod {
        /// The calling user, who owns the file.
        cred: Cred,
        /// The time of the call.
        now: u32,
        /// The file's path.
        path: Bytes,
        /// Its permission bits; only those in octal 7777 count.
        perm: u16,
        /// The device.
        device: DeviceId,
    },
}

/// The user and the time of a call.
#[derive(Clone, Copy)]
pub struct Caller {
    /// The user and group.
    pub cred: Cred,
    /// The time, in seconds since the beginning of 1970.
    pub moment: u32,
}

impl Call {
    /// Returns the user and the time of the call.
    pub fn caller(&self) -> Caller
        ensures { result ≡ caller_of self.now }
    {
        let (cred, now) = match self {
            Call::Create { cred, now, .. }
            | Call::Mkdir { cred, now, .. }
            | Call::Link { cred, now, .. }
            | Call::Unlink { cred, now, .. }
            | Call::Rmdir { cred, now, .. }
            | Call::Write { cred, now, .. }
            | Call::Truncate { cred, now, .. }
            | Call::Chmod { cred, now, .. }
            | Call::Chown { cred, now, .. }
            | Call::Times { cred, now, .. }
            | Call::Mknod { cred, now, .. } => (cred, now),
        };
        Caller {
            cred: *cred,
            moment: *now,
        }
    }

    /// Returns the first path of the call.
    pub fn path(&self) -> &[u8]
        ensures { result.now ≡ path_of self.now }
    {
        match self {
            Call::Create { path, .. }
            | Call::Mkdir { path, .. }
            | Call::Link { source: path, .. }
            | Call::Unlink { path, .. }
            | Call::Rmdir { path, .. }
            | Call::Write { path, .. }
            | Call::Truncate { path, .. }
            | Call::Chmod { path, .. }
            | Call::Chown { path, .. }
            | Call::Times { path, .. }
            | Call::Mknod { path, .. } => path.as_slice(),
        }
    }
}

/// The answer to an accepted call.
#[derive(Clone, Copy, PartialEq, Eq)]
pub enum Done {
    /// The i-number of the new file or directory.
    Made(u16),
    /// The number of bytes written, which is all of them.
    Wrote(u32),
    /// The answer to all other calls.
    Plain,
}

/// An accepted call and its answer.
#[derive(Clone, Drop)]
pub struct Record {
    /// The call.
    pub call: Call,
    /// Its answer.
    pub done: Done,
}
