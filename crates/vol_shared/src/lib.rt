//! A volume that threads share under one lock. Each thread calls it through a session of its own, and gets a receipt for each call and query. Views
//! answer queries without the lock. After the volume is closed, each receipt can be compared with the journal.
#![tactic(auto)]

mod board;
mod close;
mod closed;
mod lock;
mod lock_contents;
mod lock_rule;
mod made_views;
mod publish;
mod session;
mod shared;
mod snapshot;

pub use closed::Closed;
pub use session::Session;
pub use shared::{MOST_SESSIONS, OpenFault, Shared};
pub use vol_receipts::{Asked, ConfirmFault, Confirmed, Outcome, Receipt, ReceiptStatus, find_all};
pub use vol_views::{MOST_VIEWS, View, ViewFault};
