//! Makes several calls on a volume, up to the first that is refused, and those that remove a path and everything below it.
#![tactic(auto)]

pub mod batch;
pub mod faults;
pub mod laws;
pub mod paths;
pub mod plan;
pub mod remove;

pub use batch::make_all;
pub use faults::RemovalFault;
pub use paths::below;
pub use plan::removal;
pub use remove::remove_all;
