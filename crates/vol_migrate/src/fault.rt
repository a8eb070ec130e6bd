//! The reasons why a volume isn't migrated.
use thiserror::Error;

/// The reason why a volume wasn't migrated.
#[derive(Clone, Copy, Debug, Error)]
pub enum MigrateFault {
    /// The volume isn't one of the sixth edition.
    #[error("22 Invalid")]
    Invalid,
    /// A volume of the seventh edition can't have these sizes.
    #[error("bounds")]
    Bounds,
    /// The volume has a special file.
    #[error("105 HasDevice")]
    HasDevice,
    /// The volume's highest i-number doesn't fit the i-list.
    #[error("103 NoInode")]
    NoInode,
    /// There are fewer data blocks than the files need.
    #[error("28 NoSpace")]
    NoSpace,
    /// Memory ran out.
    #[error("12 NoMemory")]
    NoMemory,
}
