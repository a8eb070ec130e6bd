//! A catalogue of volumes: what is counted in each, and its row.
#![tactic(auto)]

mod facts;
mod rows;

pub use facts::{Counts, VolumeFacts, facts_of, file_count};
pub use rows::{FileFacts, ListedVolume, header, volume_rows};
