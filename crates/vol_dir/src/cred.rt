//! Users and groups.

/// The user and group that a call runs as. User 0 passes every permission test.
#[derive(Clone, Copy, PartialEq, Eq)]
pub struct Cred {
    /// The user number.
    pub uid: u16,
    /// The group number.
    pub gid: u16,
}

impl Cred {
    /// User 0 of group 0, which passes every permission test.
    pub const ROOT: Cred = Cred { uid: 0, gid: 0 };
}
