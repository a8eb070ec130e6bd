//! The tree of a volume as an archive in POSIX's ustar format.
#![tactic(auto)]

mod buffer;
pub mod export_tree;
pub mod laws;
mod members;
pub mod met_entries;
mod names;
mod pending;
pub mod rescue;
pub mod tree_walk;
pub mod write;

pub use export_tree::{export, is_directory, lost_start_of};
pub use members::{put_archive, put_noted};
pub use met_entries::{MetEntry, Reason, Role};
pub use rescue::{Rescue, rescue_below};
pub use tree_walk::walk;
pub use write::WriteFault;
