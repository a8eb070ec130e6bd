//! Operations of requests.
ghost use Rattle.std.specs.Prelude.{◌≡◌, ◌≤◌, true, false, length, Some};
ghost use Rattle.fuse_words.specs.Requests.{number, struct_size, is_named, is_rename, named, renamed, write_of, fields_of, operation_of};
ghost use Rattle.fuse_words.specs.declared.operation.Operation.TheVariants as operations;

use crate::attribute_changes::{AttributeChanges, read_changes};
use crate::name::{Content, Name};
use crate::opcode::{
    BATCH_FORGET, DESTROY, FLUSH, FORGET, FSYNC, FSYNCDIR, GETATTR, INIT, INTERRUPT, LINK, LOOKUP,
    MKDIR, MKNOD, OPEN, OPENDIR, READ, READDIR, RELEASE, RELEASEDIR, RENAME, RENAME2, RMDIR,
    SETATTR, STATFS, UNLINK, WRITE,
};
use crate::request::{u32_at, u64_at};

/// The number of bytes before WRITE's content (`fuse_write_in`).
const WRITE_FRONT: usize = 40;

/// The operation of a request.
#[derive(Drop)]
pub enum Operation<'a> {
    /// The first request of a mount.
    Init {
        /// The kernel's major version.
        major: u32,
        /// The kernel's minor version.
        minor: u32,
        /// The greatest number of bytes that the kernel reads ahead.
        max_readahead: u32,
        /// The kernel's capability flags.
        flags: u32,
    },
    /// The last request of a mount.
    Destroy,
    /// Looks up a name in a directory.
    Lookup {
        /// The name.
        name: Name<'a>,
    },
    /// The kernel drops a node.
    Forget,
    /// The kernel drops several nodes.
    BatchForget,
    /// Reads the attributes of a node.
    GetAttr,
    /// Sets attributes of a node.
    SetAttr {
        /// The attributes.
        changes: AttributeChanges,
    },
    /// Makes a file, which may be a special file.
    MkNod {
        /// Kind and permissions, as in stat(2).
        mode: u32,
        /// The device, if it is a special file.
        device: u32,
        /// The name.
        name: Name<'a>,
    },
    /// Makes a directory.
    MkDir {
        /// Permissions, as in stat(2).
        mode: u32,
        /// The name.
        name: Name<'a>,
    },
    /// Removes a name of a file.
    Unlink {
        /// The name.
        name: Name<'a>,
    },
    /// Removes an empty directory.
    RmDir {
        /// The name.
        name: Name<'a>,
    },
    /// Renames a file or a directory. A node with the new name is replaced.
    Rename {
        /// The node of the directory that gets the new name.
        directory: u64,
        /// The old name.
        name: Name<'a>,
        /// The new name.
        new_name: Name<'a>,
    },
    /// Renames a file or a directory, with flags.
    Rename2 {
        /// The node of the directory that gets the new name.
        directory: u64,
        /// The flags of renameat2(2).
        flags: u32,
        /// The old name.
        name: Name<'a>,
        /// The new name.
        new_name: Name<'a>,
    },
    /// Adds a name for a file to the request's directory.
    Link {
        /// The file's node.
        node: u64,
        /// The new name.
        name: Name<'a>,
    },
    /// Opens a file.
    Open {
        /// The flags of open(2).
        flags: u32,
    },
    /// Reads bytes of a file.
    Read {
        /// The file's handle.
        handle: u64,
        /// The offset of the first byte.
        offset: u64,
        /// The greatest number of bytes.
        size: u32,
    },
    /// Writes bytes into a file.
    Write {
        /// The file's handle.
        handle: u64,
        /// The offset of the first byte.
        offset: u64,
        /// The bytes.
        content: Content<'a>,
    },
    /// Closes a file: its handle isn't used again.
    Release {
        /// The file's handle.
        handle: u64,
    },
    /// Reads the sizes of the file system.
    StatFs,
    /// Opens a directory.
    OpenDir,
    /// Reads entries of a directory.
    ReadDir {
        /// The directory's handle.
        handle: u64,
        /// The `next_offset` of the last entry that the kernel has; 0 at first.
        offset: u64,
        /// The greatest number of bytes of entries.
        size: u32,
    },
    /// Closes a directory.
    ReleaseDir {
        /// The directory's handle.
        handle: u64,
    },
    /// Synchronises the bytes written into a file.
    Fsync {
        /// The file's handle.
        handle: u64,
    },
    /// Synchronises the changes of a directory.
    FsyncDir {
        /// The directory's handle.
        handle: u64,
    },
    /// A process closes a file that others may have open.
    Flush,
    /// The caller of another request gave up waiting.
    Interrupt,
    /// Any other operation, by its number.
    Other(u32),
}

/// Returns the size in bytes of the struct that an operation's body begins with.
fn struct_size(opcode: u32) -> usize
    ensures { result ≡ struct_size opcode }
{
    match opcode {
        MKDIR | RENAME | LINK | OPEN | OPENDIR => 8,
        GETATTR | MKNOD | FSYNC | INIT | FSYNCDIR | RENAME2 => 16,
        RELEASE | FLUSH | RELEASEDIR => 24,
        READ | WRITE | READDIR => 40,
        SETATTR => 88,
        _ => 0,
    }
}

/// Reads the operation from the body, which follows the header. Returns `None` if the body is too short or lacks a name, or if WRITE has fewer or
/// more bytes than its size field.
#[tactic(auto, unfolding(crate::specs::Requests::operation_of))]
pub(crate) fn read_operation(opcode: u32, body: &[u8]) -> Option<Operation<'_>>
    ensures { result ≡ operation_of opcode body.now }
{
    let size = struct_size(opcode);
    if body.len() < size {
        return None;
    }
    match opcode {
        LOOKUP | MKNOD | MKDIR | UNLINK | RMDIR | LINK => match Name::read(&body[size..]) {
            Some(name) => Some(read_named(opcode, body, name)),
            None => None,
        },
        RENAME | RENAME2 => match Name::read_two(&body[size..]) {
            Some((name, new_name)) => Some(read_rename(opcode, body, name, new_name)),
            None => None,
        },
        WRITE => read_write(body),
        _ => Some(read_fields(opcode, body)),
    }
}

/// Reads an operation that has one name.
#[tactic(auto, unfolding(crate::specs::Requests::named))]
fn read_named<'a>(opcode: u32, body: &[u8], name: Name<'a>) -> Operation<'a>
    requires { struct_size opcode ≤ length body.now }
    ensures { result ≡ named opcode body.now name.entry }
{
    match opcode {
        MKNOD => Operation::MkNod {
            mode: u32_at(body, 0),
            device: u32_at(body, 4),
            name,
        },
        MKDIR => Operation::MkDir {
            mode: u32_at(body, 0),
            name,
        },
        UNLINK => Operation::Unlink { name },
        RMDIR => Operation::RmDir { name },
        LINK => Operation::Link {
            node: u64_at(body, 0),
            name,
        },
        _ => Operation::Lookup { name },
    }
}

/// Reads an operation that has two names (`fuse_rename_in`, `fuse_rename2_in`).
#[tactic(auto, unfolding(crate::specs::Requests::renamed))]
fn read_rename<'a>(opcode: u32, body: &[u8], name: Name<'a>, new_name: Name<'a>) -> Operation<'a>
    requires is_rename { is_rename opcode ≡ true }
    requires size { struct_size opcode ≤ length body.now }
    ensures { result ≡ renamed opcode body.now (name.entry, new_name.entry) }
{
    let directory = u64_at(body, 0);
    if opcode == RENAME {
        Operation::Rename {
            directory,
            name,
            new_name,
        }
    } else {
        Operation::Rename2 {
            directory,
            flags: u32_at(body, 8),
            name,
            new_name,
        }
    }
}

/// Reads WRITE, or returns `None` if it has fewer or more bytes than its size field (`fuse_write_in`).
fn read_write(body: &[u8]) -> Option<Operation<'_>>
    requires { 40 ≤ length body.now }
    ensures { result ≡ write_of body.now }
{
    let bytes = &body[WRITE_FRONT..];
    if u32_at(body, 16) as usize != bytes.len() {
        return None;
    }
    Some(Operation::Write {
        handle: u64_at(body, 0),
        offset: u64_at(body, 8),
        content: Content::new(bytes),
    })
}

/// Reads an operation that has no name.
#[tactic(auto, unfolding(crate::specs::Requests::fields_of))]
fn read_fields(opcode: u32, body: &[u8]) -> Operation<'_>
    requires { struct_size opcode ≤ length body.now }
    ensures { result ≡ fields_of opcode body.now }
{
    match opcode {
        FORGET => Operation::Forget,
        GETATTR => Operation::GetAttr,
        SETATTR => Operation::SetAttr {
            changes: read_changes(body),
        },
        OPEN => Operation::Open {
            flags: u32_at(body, 0),
        },
        READ => read_part(body),
        STATFS => Operation::StatFs,
        RELEASE => Operation::Release {
            handle: u64_at(body, 0),
        },
        FSYNC => Operation::Fsync {
            handle: u64_at(body, 0),
        },
        FLUSH => Operation::Flush,
        INIT => read_init(body),
        OPENDIR => Operation::OpenDir,
        READDIR => read_directory_part(body),
        RELEASEDIR => Operation::ReleaseDir {
            handle: u64_at(body, 0),
        },
        FSYNCDIR => Operation::FsyncDir {
            handle: u64_at(body, 0),
        },
        INTERRUPT => Operation::Interrupt,
        DESTROY => Operation::Destroy,
        BATCH_FORGET => Operation::BatchForget,
        other => Operation::Other(other),
    }
}

/// Reads INIT (`fuse_init_in`).
fn read_init(body: &[u8]) -> Operation<'_>
    requires { 16 ≤ length body.now }
    ensures { result ≡ operations.Init (number 4 0 body.now) (number 4 4 body.now) (number 4 8 body.now) (number 4 12 body.now) }
{
    Operation::Init {
        major: u32_at(body, 0),
        minor: u32_at(body, 4),
        max_readahead: u32_at(body, 8),
        flags: u32_at(body, 12),
    }
}

/// Reads READ (`fuse_read_in`).
fn read_part(body: &[u8]) -> Operation<'_>
    requires { 20 ≤ length body.now }
    ensures { result ≡ operations.Read (number 8 0 body.now) (number 8 8 body.now) (number 4 16 body.now) }
{
    Operation::Read {
        handle: u64_at(body, 0),
        offset: u64_at(body, 8),
        size: u32_at(body, 16),
    }
}

/// Reads READDIR (`fuse_read_in`).
fn read_directory_part(body: &[u8]) -> Operation<'_>
    requires { 20 ≤ length body.now }
    ensures { result ≡ operations.ReadDir (number 8 0 body.now) (number 8 8 body.now) (number 4 16 body.now) }
{
    Operation::ReadDir {
        handle: u64_at(body, 0),
        offset: u64_at(body, 8),
        size: u32_at(body, 16),
    }
}
