//! What commands are asked for: the parts of an image that they show, and the changes of a volume that they make, with their options.
#![tactic(auto)]

pub mod bad_looks;
pub mod changes;
pub mod comparison;
pub mod looks;
pub mod options;
pub mod permissions;
pub mod plays;

pub use bad_looks::BadLook;
pub use changes::{Change, Needs};
pub use comparison::Comparison;
pub use looks::{
    DumpForm, DumpTarget, ExportOptions, Look, LossOptions, NodeName, OutputForm, Picture,
};
pub use options::{Keep, Migration, Repairing};
pub use permissions::PermissionChange;
pub use plays::PlayForm;
