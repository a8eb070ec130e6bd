//! Messages of the Linux kernel's FUSE protocol, version 7.31, for a file server: reads requests and makes replies. (Linux,
//! include/uapi/linux/fuse.h.)
#![tactic(auto)]

pub mod attribute_changes;
pub mod directory;
pub mod laws;
pub mod name;
pub mod opcode;
pub mod operation;
mod push;
pub mod reply;
pub mod reply_buffer;
pub mod request;

pub use attribute_changes::{AttributeChanges, NewTime};
pub use directory::{EntryKind, push_entry};
pub use name::{Content, Name};
pub use opcode::SYMLINK;
pub use operation::Operation;
pub use reply::{
    ASYNC_READ, Attributes, BIG_WRITES, CACHE_DIRECTORY, EntryReply, KEEP_CACHE, Settings,
    Statistics,
};
pub use reply_buffer::{MOST_DATA, ReplyBuffer};
pub use request::{Header, ROOT, Request, RequestFault, read_header, read_request};
