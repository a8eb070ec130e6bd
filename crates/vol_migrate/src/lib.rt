//! Migrates a volume of the sixth edition to the seventh.
#![tactic(auto)]

mod copy;
mod count;
mod devices;
mod fault;
mod i_nodes;
mod migrate_volume;
mod refuse;
mod slots;

pub use devices::Devices;
pub use fault::MigrateFault;
pub use migrate_volume::{migrate, migrate_image, migrate_with};
