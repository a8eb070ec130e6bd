//! Entries that a walk hasn't visited yet.
use pdp_words::Bytes;

/// An entry that a walk hasn't visited yet.
#[derive(Drop)]
pub(crate) struct Pending {
    /// The entry's path, without a slash at the start or the end.
    pub(crate) path: Bytes,
    /// The entry's i-number.
    pub(crate) inode: u16,
    /// True if the entry's name is not empty and has no slash.
    pub(crate) is_plain: bool,
}
