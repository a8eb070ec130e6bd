//! Free blocks and free i-numbers of a volume.
#![tactic(auto)]

pub mod free_list;
pub mod free_walk;
pub mod i_numbers;
pub mod laws;

pub use free_list::{free_count, give, rebuild, take};
pub use free_walk::{FreeBlocks, FreeFault, FreeWalk, walk_free};
pub use i_numbers::{any_inode, give_inode, is_free_inode, next_inode, take_inode};
