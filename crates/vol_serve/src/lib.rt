//! Serves a volume read-only to a Linux kernel over the FUSE protocol: each request gets the reply that the image determines.
#![tactic(auto)]

mod answer;
pub mod attributes;
pub mod errno;
pub mod laws;
mod listing;
pub mod memory;
pub mod messages;
pub mod node_numbers;
pub mod node_replies;
pub mod nodes;
pub mod request_loop;
mod served;
pub mod statistics;
pub mod streams;

pub use messages::{Replies, Requests};
pub use request_loop::{ServeFault, serve};
pub use streams::{ReplyWriter, RequestReader};
