//! The entries visited below a directory.
ghost use Rattle.std.specs.Prelude.{◌≡◌};
ghost use Rattle.vol_archive.specs.Walk.{is_first};

use pdp_words::Bytes;

/// The reason why an entry is left out of an archive.
#[derive(Clone, Copy)]
pub enum Reason {
    /// The entry's i-number isn't one of the volume, or its i-node is free.
    NoNode,
    /// The entry's i-node has a mode that isn't one of the edition's.
    OddNode,
    /// The entry is for a directory that was visited before, or for the directory where the walk began.
    Again,
    /// The entry's path has more than 4,096 bytes; for a directory, with the slash at its end.
    LongPath,
    /// The entry's name is empty or has a slash.
    BadName,
}

/// The role of an entry in an archive.
#[derive(Clone, Copy)]
pub enum Role {
    /// A regular file.
    File,
    /// A directory, below which the walk continues.
    Directory,
    /// A special file.
    Special,
    /// Another name of the file that was visited at this position, counted from 0.
    Link(usize),
    /// Not a member.
    Left(Reason),
}

impl Role {
    /// True if later names of its i-number become links to a member with this role.
    pub fn is_first(self) -> bool
        ensures { result ≡ is_first self }
    {
        matches!(self, Role::File | Role::Directory | Role::Special)
    }
}

/// An entry that was visited below a directory.
#[derive(Drop)]
pub struct MetEntry {
    /// The entry's path below that directory, without a slash at the start or the end.
    pub path: Bytes,
    /// The entry's i-number.
    pub inode: u16,
    /// The entry's role in an archive.
    pub role: Role,
}
