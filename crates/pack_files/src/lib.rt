//! The packs in files: their volumes, found and judged one at a time; and the volumes in the way of one that grows.
#![tactic(auto)]

mod catalogued;
mod judged_packs;
mod other_volumes;
mod verdicts;

pub use catalogued::{Catalogued, catalogued_file};
pub use judged_packs::{PackFault, blocks_in, judged_pack};
pub use other_volumes::{Growth, other_volume};
pub use verdicts::{Verdicts, judge_twice};
