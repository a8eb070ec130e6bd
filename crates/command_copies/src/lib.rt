//! Commands that copy what a volume has to the host: trees, or all of it as a list, read as a whole.
#![tactic(auto)]

pub mod lists;
mod members;
pub mod nodes;
pub mod trees;

pub use lists::{VolumeListed, list_volume};
pub use nodes::{NodeContent, NodeRead, Uncopied};
pub use trees::{TreesRead, ending_of, get_trees, name_of};
