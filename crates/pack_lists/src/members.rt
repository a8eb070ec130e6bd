//! The values in a list: a volume, and its members.
ghost use Rattle.std.specs.Prelude.{◌≡◌, ◌≤◌, true, length, IfOk};
ghost use Rattle.pack_lists.specs.Paths.{is_path};

use std::alloc::{AllocError, Global};
use std::marker::Model;
use vol_layout::{DeviceId, Edition};

/// The greatest number of bytes of a path in a list.
pub const LONGEST: usize = 4096;

/// The sizes of a new volume, in blocks of 512 bytes.
#[derive(Clone, Copy)]
pub struct VolumeSizes {
    /// The edition of Unix.
    pub edition: Edition,
    /// The number of blocks of the volume.
    pub blocks: u32,
    /// The number of blocks of the i-list.
    pub list_blocks: u16,
}

/// A new volume.
#[derive(Clone, Copy)]
pub struct ListedVolume {
    /// Its edition and its sizes.
    pub sizes: VolumeSizes,
    /// The time of the volume and of its root, and of each member that has no time of its own, in seconds since the beginning of 1970.
    pub time: u32,
}

/// A user and a group.
#[derive(Clone, Copy)]
pub struct ListedOwner {
    /// The user.
    pub uid: u16,
    /// The group.
    pub gid: u16,
}

/// The permissions and the owner of a root.
#[derive(Clone, Copy)]
pub struct RootMarks {
    /// The permission bits, with set-uid, set-gid and sticky.
    pub permissions: u16,
    /// The owner and its group.
    pub owner: ListedOwner,
}

/// The permissions, the owner and the time of a member.
#[derive(Clone, Copy)]
pub struct NodeMarks {
    /// The permission bits, with set-uid, set-gid and sticky.
    pub permissions: u16,
    /// The owner and its group.
    pub owner: ListedOwner,
    /// The time of the member's last write, in seconds.
    pub modified: u32,
}

/// A path in a volume: a slash before each of its names, none of which is empty or `.`; no NUL; and at most [`LONGEST`] bytes. In contracts it is a list.
#[derive(Drop)]
pub struct ListedPath {
    bytes: Vec<u8>,
}

impl Model for ListedPath {
    ghost use Rattle.std.specs.Prelude.{◌≡◌, List, ℕ, true};
    ghost use Rattle.pack_lists.specs.Paths.{is_path};

    ghost Value = { List ℕ };

    ghost view = { λ path. path.bytes.items };

    ghost invariant = { λ path. is_path path.bytes.items ≡ true };
}

impl ListedPath {
    /// Copies a path, for which [`is_path`](crate::is_path) is the test.
    pub fn from_slice(alloc: Global, path: &[u8]) -> Result<ListedPath, AllocError>
        requires { is_path path.now ≡ true }
        ensures { IfOk result (λ copy. copy ≡ path.now) }
    {
        let bytes = Vec::from_slice(alloc, path)?;
        Ok(ListedPath { bytes })
    }

    /// Returns the bytes of the path.
    #[tactic(auto, using(crate::proofs::Lemmas::short_path))]
    pub fn as_slice(&self) -> &[u8]
        ensures bytes { result.now ≡ self.now }
        ensures path { is_path result.now ≡ true }
        ensures len { length result.now ≤ 4096 }
    {
        self.bytes.as_slice()
    }
}

/// The path of a file outside the volume. In contracts it is a list of bytes.
#[derive(Drop)]
pub struct HostPath {
    text: String,
}

impl Model for HostPath {
    ghost use Rattle.std.specs.Prelude.{List, ℕ};
    ghost use Rattle.std.specs.String.{string_bytes};

    ghost Value = { List ℕ };

    ghost view = { λ path. string_bytes path.text };
}

impl HostPath {
    /// Copies a path.
    pub fn from_str(alloc: Global, path: &str) -> Result<HostPath, AllocError>
        ensures { IfOk result (λ copy. copy ≡ path.now) }
    {
        let text = String::from_str(alloc, path)?;
        Ok(HostPath { text })
    }

    /// Returns the path.
    pub fn as_str(&self) -> &str
        ensures { result.now ≡ self.now }
    {
        self.text.as_str()
    }
}

/// A member of a list.
#[derive(Drop)]
pub enum ListedMember {
    /// A directory.
    Directory {
        path: ListedPath,
        marks: NodeMarks,
    },
    /// A regular file, with the path of the file outside the volume that has its bytes.
    File {
        path: ListedPath,
        marks: NodeMarks,
        file: HostPath,
    },
    /// A special file.
    Device {
        path: ListedPath,
        marks: NodeMarks,
        device: DeviceId,
    },
    /// Another name of the file at the path `target`, which is made at a time.
    Link {
        path: ListedPath,
        target: ListedPath,
        modified: u32,
    },
}
