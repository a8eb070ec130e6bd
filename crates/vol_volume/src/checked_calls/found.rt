//! The results of a call's checks, which its change uses.
use vol_dir::Entry;

/// The position of a new entry in its directory.
#[derive(Clone, Copy)]
pub(crate) struct EntryPlace {
    /// The slot, counted from 0.
    pub slot: u32,
    /// The number of blocks that the entry needs.
    pub needed: u32,
}

/// An entry to add.
#[derive(Clone, Copy)]
pub(crate) struct NewEntry<'a> {
    /// The i-number of the directory.
    pub dir: u16,
    /// The name, which the directory doesn't have yet.
    pub name: &'a [u8],
    /// The position of the entry.
    pub place: EntryPlace,
}

/// An entry to remove.
#[derive(Clone, Copy)]
pub(crate) struct OldEntry<'a> {
    /// The i-number of the directory.
    pub dir: u16,
    /// The name.
    pub name: &'a [u8],
    /// Its slot and i-number.
    pub entry: Entry,
}

/// A regular file to write to.
#[derive(Clone, Copy)]
pub(crate) struct Target {
    /// The i-number of the file.
    pub inode: u16,
    /// The number of blocks that the write needs.
    pub needed: u32,
}
