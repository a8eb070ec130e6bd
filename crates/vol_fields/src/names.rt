//! The names of fields, and of the parts of a volume.
ghost use Rattle.std.specs.Prelude.{◌≡◌};
ghost use Rattle.vol_fields.specs.Values.{is_array, is_in_slot, label, value_kind};

/// The name of a field, or of a part of a volume.
#[derive(Clone, Copy, PartialEq, Eq)]
pub enum Name {
    /// The boot block.
    Boot,
    /// The super-block.
    Super,
    /// An i-node.
    Node,
    /// A data block.
    Data,
    /// The bytes after the last block of the volume.
    Past,
    /// `s_isize`: the size of the i-list.
    ListSize,
    /// `s_fsize`: the number of blocks.
    BlockCount,
    /// `s_nfree`, or `df_nfree` of a chain block: the count of an array of free blocks.
    FreeCount,
    /// `s_free`, or `df_free` of a chain block: a number of an array of free blocks.
    Free,
    /// `s_ninode`: the count of the i-number cache.
    CacheCount,
    /// `s_inode`: a number of the i-number cache.
    Cached,
    /// `s_flock`.
    FreeLock,
    /// `s_ilock`.
    InodeLock,
    /// `s_fmod`.
    Modified,
    /// `s_ronly`.
    ReadOnly,
    /// `s_time`.
    Time,
    /// The bytes after the fields of the super-block or of a chain block.
    Rest,
    /// The type and permissions of an i-node.
    Mode,
    /// The number of links.
    Links,
    /// The owner.
    Uid,
    /// The owner's group.
    Gid,
    /// The size in bytes.
    Size,
    /// An address.
    Address,
    /// Byte 51 of an i-node of the seventh edition.
    Unused,
    /// The time of the last read.
    Accessed,
    /// The time of the last write.
    Written,
    /// The time of the last change.
    Changed,
    /// A slot of a directory.
    Slot,
    /// The i-number in a slot.
    SlotInode,
    /// The name in a slot.
    SlotName,
    /// The bytes of a file.
    Bytes,
    /// The bytes after a file's end, or after a directory's last whole slot.
    Slack,
    /// A block number of an indirect block.
    Entry,
}

/// The kind of a field's value.
#[derive(Clone, Copy)]
pub enum ValueKind {
    /// A number.
    Number,
    /// The type and permissions of an i-node.
    Mode,
    /// A time, in seconds since the beginning of 1970.
    Moment,
    /// An i-number.
    Inode,
    /// A block number.
    Block,
    /// A name in a directory.
    Name,
    /// Bytes.
    Bytes,
}

impl Name {
    /// Returns the name in the manuals, or the word for a field that has none there.
    pub fn label(self) -> &'static str
        ensures { result.now ≡ label self }
    {
        match self {
            Name::Boot => "boot",
            Name::Super => "super-block",
            Name::Node => "i-node",
            Name::Data => "data",
            Name::Past => "past",
            Name::ListSize => "isize",
            Name::BlockCount => "fsize",
            Name::FreeCount => "nfree",
            Name::Free => "free",
            Name::CacheCount => "ninode",
            Name::Cached => "inode",
            Name::FreeLock => "flock",
            Name::InodeLock => "ilock",
            Name::Modified => "fmod",
            Name::ReadOnly => "ronly",
            Name::Time => "time",
            Name::Rest => "rest",
            Name::Mode => "mode",
            Name::Links => "nlink",
            Name::Uid => "uid",
            Name::Gid => "gid",
            Name::Size => "size",
            Name::Address => "addr",
            Name::Unused => "unused",
            Name::Accessed => "atime",
            Name::Written => "mtime",
            Name::Changed => "ctime",
            Name::Slot => "slot",
            Name::SlotInode => "i-number",
            Name::SlotName => "name",
            Name::Bytes => "bytes",
            Name::Slack => "slack",
            Name::Entry => "entry",
        }
    }

    /// True if the field is one of an array of numbers.
    pub(crate) fn is_array(self) -> bool
        ensures { result ≡ is_array self }
    {
        matches!(
            self,
            Name::Free | Name::Cached | Name::Address | Name::Entry
        )
    }

    /// True if the field is part of a slot of a directory.
    pub(crate) fn is_in_slot(self) -> bool
        ensures { result ≡ is_in_slot self }
    {
        matches!(self, Name::SlotInode | Name::SlotName)
    }

    /// Returns the kind of the field's value.
    pub fn value_kind(self) -> ValueKind
        ensures { result ≡ value_kind self }
    {
        match self {
            Name::ListSize
            | Name::BlockCount
            | Name::FreeCount
            | Name::CacheCount
            | Name::FreeLock
            | Name::InodeLock
            | Name::Modified
            | Name::ReadOnly
            | Name::Links
            | Name::Uid
            | Name::Gid
            | Name::Size => ValueKind::Number,
            Name::Mode => ValueKind::Mode,
            Name::Time | Name::Accessed | Name::Written | Name::Changed => ValueKind::Moment,
            Name::Cached | Name::SlotInode => ValueKind::Inode,
            Name::Free | Name::Address | Name::Entry => ValueKind::Block,
            Name::SlotName => ValueKind::Name,
            Name::Boot
            | Name::Super
            | Name::Node
            | Name::Data
            | Name::Past
            | Name::Rest
            | Name::Unused
            | Name::Slot
            | Name::Bytes
            | Name::Slack => ValueKind::Bytes,
        }
    }
}
