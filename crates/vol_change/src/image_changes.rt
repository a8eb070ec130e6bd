//! The changes that the calls make, once their paths are walked.

pub mod chmod;
pub mod chown;
pub mod create;
pub mod link;
pub mod mkdir;
pub mod rmdir;
pub mod times;
pub mod truncate;
pub mod unlink;
pub mod write;
