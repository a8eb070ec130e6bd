//! Mounted volumes, their calls and their queries.
#![tactic(auto)]

pub mod answer;
pub mod apply_records;
pub mod calls;
mod checked_calls;
pub mod image_queries;
pub mod laws;
pub mod queries;
pub mod reserved;
pub mod volume;

pub use answer::ask_image;
pub use apply_records::apply;
pub use calls::{Call, Caller, Done, Record};
pub use image_queries::ask;
pub use pdp_words::Bytes;
pub use queries::{Listing, Query, Reply, Stat};
pub use reserved::Reserved;
pub use vol_judge::judge;
pub use vol_mkfs::mkfs::mkfs;
pub use vol_mkfs::{BlankVolume, MkfsFault, NewVolume};
pub use volume::{MountFault, TooManyRecords, Volume};
