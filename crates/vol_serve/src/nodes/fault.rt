//! Errors of a node.

/// The reason why a request for a node failed.
#[derive(Clone, Copy)]
pub enum NodeFault {
    /// No node has this number: it is outside the volume, its i-node is free, or the i-node's kind isn't one of the edition's.
    Stale,
    /// The node isn't a directory.
    NotDirectory,
    /// The node isn't a regular file.
    NotRegular,
    /// The directory has no such name.
    NoEntry,
    /// The name has more than 14 bytes.
    LongName,
}
