//! The reports of the checkers: their lines for any image, built from counts.
#![tactic(auto)]

mod climb;
mod dcheck;
mod entered;
mod icheck;
mod inode_link_counts;
mod line;
mod ncheck;
mod report;
mod texts;
pub mod words;

pub use dcheck::entry_report;
pub use entered::EnteredName;
pub use icheck::block_report;
pub use inode_link_counts::{LinkCount, link_counts};
pub use line::{Line, Total};
pub use ncheck::name_report;
pub use report::Report;
pub use vol_free::FreeFault;
