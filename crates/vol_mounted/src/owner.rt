//! The user that owns all nodes, as the kernel sees them.

/// The user and the group that own all nodes, as the kernel sees them.
#[derive(Clone, Copy)]
pub struct Owner {
    /// The user.
    pub uid: u32,
    /// The group.
    pub gid: u32,
}
