//! A table of counts that threads update without a lock.
//!
//! Word 0 is the number of the next piece of work. The words after it are counts, which grow by additions, and minimums, which keep the least value
//! offered.
#![tactic(auto)]

mod rule;
mod summed;
mod tally;
mod words;

pub use rule::{AllCounted, Mark, SeatView, TableShape, TallySeat};
pub use words::{Summed, Tally};
