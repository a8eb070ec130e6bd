//! Checks of the blocks, entries and names of any image, sound or not, by any number of threads.
#![tactic(auto)]

mod checker;
mod checkers;
mod deal;
mod entry_counts;
mod free_walk;
mod gate;
mod gather;
mod inode_marks;
mod levels;
mod memory_check;
mod parts;
pub mod salvage_volume;
mod seats;
mod slots;
mod sweep;
mod sweeps;

pub use checker::Checker;
pub use checkers::{MOST_WORKERS, dcheck, icheck, ncheck};
pub use gate::{Gate, Open};
pub use salvage_volume::{SalvageFault, salvage};
pub use seats::{CheckSeat, Piece};
pub use sweeps::Sweep;
pub use vol_free::FreeFault;
pub use vol_reports::{Line, Report};
