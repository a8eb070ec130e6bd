//! What a file that is put keeps of the host's file, besides its bytes.

/// What a file that is put gets from the host's file, besides its bytes.
#[derive(Clone, Copy)]
pub enum Kept {
    /// Nothing.
    Nothing,
    /// The execute bits among these permissions.
    Execution { permissions: u16 },
    /// These permissions, in octal 7777, and this time of last modification, in seconds since the beginning of 1970.
    All { permissions: u16, modified: u32 },
}

/// The bytes that a change needs besides the image: of a file to put, or of an archive to import.
#[derive(Drop)]
pub struct GivenFile {
    /// The bytes.
    pub bytes: Vec<u8>,
    /// What a file that is put gets besides them.
    pub kept: Kept,
}
