//! The members of two trees, and what differs between them.
#![tactic(auto)]

mod bodies;
mod changed_bytes;
mod changes;
mod json;
pub mod laws;
mod lines;
mod members;
mod merge;

pub use json::difference_values;
pub use members::{MetTree, met_tree};
pub use merge::put_differences;
