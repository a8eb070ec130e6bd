//! A volume served to a Linux kernel over the FUSE protocol, with changes: the server makes the calls of each request, and its reply
//! shows the tree after them.
#![tactic(auto)]

mod answer;
mod attribute_plan;
pub mod calls;
pub mod host;
pub mod known;
pub mod laws;
mod loss;
mod orphan;
mod orphan_answer;
pub mod owner;
mod plan;
mod plan_of;
pub mod refusal;
mod rename;
mod reply;
mod scene;
pub mod server;
pub mod service;
mod settle;
pub mod table;

pub use host::Host;
pub use owner::Owner;
pub use server::MountedServer;
pub use service::{MountedFault, serve};
