//! Receipts of calls and queries with their outcomes, and checks that a journal agrees with them.
#![tactic(auto)]

mod agree;
pub mod confirm_many;
pub mod confirm_one;
pub mod receipts;
pub mod recorded_calls;
mod replay;

pub use confirm_many::{Confirmed, ReceiptStatus, confirm_all, find_all};
pub use confirm_one::{ConfirmFault, confirm};
pub use receipts::{Asked, Origin, Outcome, Receipt};
pub use recorded_calls::{change, reply};
