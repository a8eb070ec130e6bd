//! What a file seems to be.

use vol_identify::{Identified, JudgedPart};

/// The number of bytes of a block.
pub(crate) const BLOCK: u64 = 512;

/// What a file seems to be.
#[derive(Drop)]
pub enum Seen {
    /// A pack with these parts.
    Pack(Vec<JudgedPart>),
    /// An image, by its first `read` bytes.
    Image { found: Identified, read: usize },
}
