//! Creates new volumes, in memory or written to a sink.
#![tactic(auto)]

pub mod blank;
pub mod mkfs;
mod sizes;

pub use blank::{BlankVolume, MkfsFault, NewVolume};
