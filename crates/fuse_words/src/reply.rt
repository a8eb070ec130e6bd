//! The contents of replies.
ghost use Rattle.std.specs.Prelude.{◌≡◌};
ghost use Rattle.fuse_words.specs.Replies.{no_attributes};

/// A flag of INIT: the kernel may read ahead.
pub const ASYNC_READ: u32 = 1;

/// A flag of INIT: a write may have more bytes than one page.
pub const BIG_WRITES: u32 = 32;

/// A flag of an open file: the kernel may keep the bytes that it has cached.
pub const KEEP_CACHE: u32 = 2;

/// A flag of an open directory: the kernel may keep its entries.
pub const CACHE_DIRECTORY: u32 = 8;

/// The server's settings in INIT's reply. The version is 7.31.
#[derive(Clone, Copy)]
pub struct Settings {
    /// The greatest number of bytes to read ahead.
    pub max_readahead: u32,
    /// The kernel's flags that the server accepts.
    pub flags: u32,
    /// The greatest number of background requests, which have no waiting caller.
    pub max_background: u16,
    /// The number of background requests at which the mount counts as congested.
    pub congestion_threshold: u16,
    /// The greatest number of bytes in a write.
    pub max_write: u32,
    /// Nanoseconds between two times: 1,000,000,000 for whole seconds.
    pub time_granularity: u32,
    /// The greatest number of pages in a request. It is used only if a flag of INIT is set.
    pub max_pages: u16,
}

/// The attributes of a node. Times are whole seconds since the beginning of 1970.
#[derive(Clone, Copy)]
pub struct Attributes {
    /// The i-number.
    pub ino: u64,
    /// The size in bytes.
    pub size: u64,
    /// The number of 512-byte blocks that the node takes.
    pub blocks: u64,
    /// The time of the last access.
    pub accessed: u64,
    /// The time of the last change of its contents.
    pub modified: u64,
    /// The time of the last change of its i-node.
    pub changed: u64,
    /// The file type and the permissions, as in stat(2).
    pub mode: u32,
    /// The link count.
    pub links: u32,
    /// The owner.
    pub uid: u32,
    /// The owner's group.
    pub gid: u32,
    /// The device number of a special file.
    pub rdev: u32,
    /// The best number of bytes to read at once.
    pub block_size: u32,
}

/// A directory entry in LOOKUP's reply.
#[derive(Clone, Copy)]
pub struct EntryReply {
    /// The node, or 0 if the entry doesn't exist.
    pub node: u64,
    /// The node's generation. The same node number with another generation belongs to another file.
    pub generation: u64,
    /// The number of seconds for which the kernel may keep the name.
    pub name_seconds: u64,
    /// The number of seconds for which the kernel may keep the attributes.
    pub attribute_seconds: u64,
    /// The attributes of the node.
    pub attributes: Attributes,
}

/// The sizes of the file system.
#[derive(Clone, Copy)]
pub struct Statistics {
    /// The number of fragments.
    pub blocks: u64,
    /// The number of free fragments.
    pub free_blocks: u64,
    /// The number of free fragments that any user may take.
    pub available_blocks: u64,
    /// The number of i-nodes.
    pub inodes: u64,
    /// The number of free i-nodes.
    pub free_inodes: u64,
    /// The best number of bytes to read at once.
    pub block_size: u32,
    /// The greatest number of bytes in a name.
    pub name_length: u32,
    /// The number of bytes in a fragment.
    pub fragment_size: u32,
}

impl EntryReply {
    /// Returns the entry for a name that doesn't exist. The kernel may keep it for `seconds`.
    pub fn missing(seconds: u64) -> EntryReply
        ensures { result ≡ record { node = 0; generation = 0; name_seconds = seconds; attribute_seconds = 0; attributes = no_attributes } }
    {
        EntryReply {
            node: 0,
            generation: 0,
            name_seconds: seconds,
            attribute_seconds: 0,
            attributes: Attributes {
                ino: 0,
                size: 0,
                blocks: 0,
                accessed: 0,
                modified: 0,
                changed: 0,
                mode: 0,
                links: 0,
                uid: 0,
                gid: 0,
                rdev: 0,
                block_size: 0,
            },
        }
    }
}
