//! Entries in READDIR's reply.
ghost use Rattle.std.specs.Prelude.{◌≡◌, ◌+◌, ◌≤◌, ◌++◌, nat_le, if◌then◌else◌, length, vec_len, vec_capacity};
ghost use Rattle.std.proofs.Math.ListN.{replicate};
ghost use Rattle.fuse_words.specs.Replies.{kind_number, padding, dirent_bytes, dirent_size};

use crate::push::{push, push_u32, push_u64};

/// The number of bytes of an entry before its name (`fuse_dirent`).
const FRONT: usize = 24;

/// The kind of an entry.
#[derive(Clone, Copy)]
pub enum EntryKind {
    /// Unknown.
    Unknown,
    /// A character special file.
    Character,
    /// A directory.
    Directory,
    /// A block special file.
    Block,
    /// A regular file.
    Regular,
}

impl EntryKind {
    /// Returns the number of the kind.
    fn number(self) -> u32
        ensures { result ≡ kind_number self }
    {
        match self {
            EntryKind::Unknown => 0,
            EntryKind::Character => 2,
            EntryKind::Directory => 4,
            EntryKind::Block => 6,
            EntryKind::Regular => 8,
        }
    }
}

/// Appends an entry if `out` then has at most `size` bytes, and returns true if it did. `next_offset` is the offset at which the kernel continues to
/// read after this entry. The kernel refuses a name that is empty or has a slash.
pub fn push_entry(
    out: &mut Vec<u8>,
    size: usize,
    ino: u64,
    next_offset: u64,
    kind: EntryKind,
    name: &[u8],
) -> bool
    requires name { length name.now ≤ 1024 }
    requires room { size ≤ vec_capacity out.old }
    ensures fits { result ≡ nat_le (vec_len out.old + dirent_size name.now) size }
    ensures pushed { out.new.items ≡ (if result then out.old.items ++ dirent_bytes ino next_offset kind name.now else out.old.items) }
    ensures len { vec_len out.new ≡ (if result then vec_len out.old + dirent_size name.now else vec_len out.old) }
    ensures capacity { vec_capacity out.old ≤ vec_capacity out.new }
{
    let padding = (8 - name.len() % 8) % 8;
    let room = size.saturating_sub(out.len());
    if FRONT + name.len() + padding > room {
        return false;
    }
    push_u64(out, ino);
    push_u64(out, next_offset);
    push_u32(out, name.len() as u32);
    push_u32(out, kind.number());
    push(out, name);
    push(out, &[0; 8][..padding]);
    true
}
