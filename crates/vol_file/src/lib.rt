//! The files of a volume: their block maps and their bytes.
#![tactic(auto)]

pub mod block_lookup;
pub mod blocks_needed;
pub mod holes;
pub mod laws;
mod pieces;
pub mod pointers;
pub mod read_bytes;
pub mod repeats;
pub mod runs;
mod take_blocks;
pub mod truncate_file;
pub mod visit;
pub mod write_bytes;

pub use block_lookup::block_at;
pub use blocks_needed::need;
pub use holes::next_block;
pub use pointers::next_pointer;
pub use read_bytes::read;
pub use repeats::{mark_passed, no_marks, passed_end};
pub use runs::BlockNumbers;
pub use truncate_file::truncate;
pub use visit::read_range;
pub use write_bytes::write;
