//! The changes that the calls make to a volume, once their paths are walked.
#![tactic(auto)]

mod entries;
mod free;
mod image_changes;
mod links;
mod new_nodes;
mod ownership;
mod times;

pub use image_changes::chmod::chmod;
pub use image_changes::chown::chown;
pub use image_changes::create::create;
pub use image_changes::link::link;
pub use image_changes::mkdir::mkdir;
pub use image_changes::rmdir::rmdir;
pub use image_changes::times::utime;
pub use image_changes::truncate::truncate;
pub use image_changes::unlink::unlink;
pub use image_changes::write::write;
pub use new_nodes::{NewFile, NewNode};
