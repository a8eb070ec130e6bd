//! Queries without the volume's lock. A volume's history is a log, which exists only in proofs: one owner appends to it, and every thread may know a
//! prefix of it. A version is a copy of the image to which records are applied one by one. A publisher shows each version to readers that take no
//! lock, with the log prefix that the version reflects. Views answer queries from the published version and return receipts.
#![tactic(auto)]

mod ghost_list;
pub mod history;
pub mod ledger;
mod log_pens;
pub mod log_prefix;
mod log_rule;
pub mod published;
mod published_rule;
pub mod publisher;
pub mod seen_prefix;
mod show;
pub mod subscriber;
pub mod version;
pub mod view;

pub use history::LogEntry;
pub use ledger::{Ledger, Permit};
pub use log_prefix::{Informed, LogPrefix};
pub use published::{Operation, Published};
pub use publisher::Publisher;
pub use seen_prefix::SeenPrefix;
pub use subscriber::{Answered, Subscriber};
pub use version::Version;
pub use view::{MOST_VIEWS, View, ViewFault};
