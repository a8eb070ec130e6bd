//! Volumes with more or fewer blocks, and the same files.
#![tactic(auto)]

mod least_blocks;
pub mod resized_volume;

pub use resized_volume::{ResizeFault, resize};
