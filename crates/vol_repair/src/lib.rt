//! Repairs the image of a damaged volume to a copy, and tells what differs.
#![tactic(auto)]

mod claims;
pub mod compared;
mod edits;
mod entry_pairs;
pub mod laws;
pub mod longer;
pub mod repair_line;
pub mod repaired_volume;
pub mod text;
mod told_lines;

pub use compared::{changed_blocks, is_kept};
pub use longer::{LengthFault, lengthened};
pub use repair_line::RepairLine;
pub use repaired_volume::{RepairFault, Repaired, repair};
pub use text::text_of;
