//! The nodes of a volume by i-number, as a file server needs them, for any image in which rules 1 and 2 hold.

pub mod bytes;
pub mod fault;
pub mod laws;
pub mod names;
pub mod stats;

pub use bytes::read;
pub use fault::NodeFault;
pub use names::{look_up, next_name};
pub use stats::{SpecialFile, special_file, stat};
