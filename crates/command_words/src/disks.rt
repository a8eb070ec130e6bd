//! Sizes of new volumes, as numbers and as names of disks.
ghost use Rattle.std.specs.Prelude.{◌≡◌, None, ℕ, IfSome};
ghost use Rattle.command_words.specs.Disks.{AreBlocksOf};

use crate::decimal::long_of;
use disk_sizes::disk_blocks;

/// Reads a number of blocks: a number as [`long_of`] reads it, or the name of a disk. Returns `None` for any other text.
pub(crate) fn blocks_of(text: &str) -> Option<u32>
    ensures some { IfSome result (AreBlocksOf text.now) }
    ensures none { result ≡ None → (blocks : ℕ) → AreBlocksOf text.now blocks → ⊥ }
{
    match long_of(text) {
        Some(number) => Some(number),
        None => disk_blocks(text.as_bytes()),
    }
}
