//! The buffer in which replies are made. Each reply is a whole message, which is written at once.
ghost use Rattle.std.specs.Prelude.{◌≤◌, vec_capacity};

use crate::push::{begin, push, push_attributes, push_u16, push_u32, push_u64};
use crate::reply::{Attributes, EntryReply, Settings, Statistics};
use std::alloc::{AllocError, Global};
use std::marker::Model;

/// The number of bytes in a reply's header (`fuse_out_header`).
const HEADER: usize = 16;

/// The greatest number of bytes after the header of READ's and READDIR's replies: 128 KiB.
pub const MOST_DATA: usize = 131_072;

/// A buffer with room for the longest reply, so that a reply takes no memory. Contracts see it as the list of
/// its bytes.
#[derive(Drop)]
pub struct ReplyBuffer {
    bytes: Vec<u8>,
    ghost room: { 131088 ≤ vec_capacity bytes },
}

impl Model for ReplyBuffer {
    ghost use Rattle.std.specs.Prelude.{List, ℕ};

    ghost Value = { List ℕ };

    ghost view = { λ buffer. buffer.bytes.items };
}

impl ReplyBuffer {
    ghost use Rattle.std.specs.Prelude.{◌≡◌, ◌<◌, ◌≤◌, [], length, IfOk};
    ghost use Rattle.fuse_words.specs.Replies.{status_message, init_message, entry_message, attributes_message, open_message, data_message, written_message, statfs_message};

    /// Returns an empty buffer. Takes 131,088 bytes.
    pub fn new(alloc: Global) -> Result<ReplyBuffer, AllocError>
        ensures { IfOk result (λ buffer. buffer ≡ []) }
    {
        let bytes = Vec::with_capacity(alloc, HEADER + MOST_DATA)?;
        Ok(ReplyBuffer { bytes })
    }

    /// Returns the bytes of the reply.
    pub fn as_slice(&self) -> &[u8]
        ensures { result.now ≡ self.now }
    {
        &self.bytes
    }

    /// Makes a reply without a body: an error number, or 0 for success.
    pub fn put_status(&mut self, unique: u64, errno: u32)
        requires { errno < 512 }
        ensures { self.new ≡ status_message unique errno }
    {
        self.bytes.clear();
        push_u32(&mut self.bytes, HEADER as u32);
        push_u32(&mut self.bytes, 0u32.wrapping_sub(errno));
        push_u64(&mut self.bytes, unique);
    }

    /// Makes the reply to INIT.
    #[tactic(auto, unfolding(crate::specs::Replies::init_message))]
    pub fn put_init(&mut self, unique: u64, settings: &Settings)
        ensures { self.new ≡ init_message unique settings.now }
    {
        begin(&mut self.bytes, unique, 64);
        push_u32(&mut self.bytes, 7);
        push_u32(&mut self.bytes, 31);
        push_u32(&mut self.bytes, settings.max_readahead);
        push_u32(&mut self.bytes, settings.flags);
        push_u16(&mut self.bytes, settings.max_background);
        push_u16(&mut self.bytes, settings.congestion_threshold);
        push_u32(&mut self.bytes, settings.max_write);
        push_u32(&mut self.bytes, settings.time_granularity);
        push_u16(&mut self.bytes, settings.max_pages);
        push_u16(&mut self.bytes, 0);
        push(&mut self.bytes, &[0; 32]);
    }

    /// Makes the reply to LOOKUP, MKNOD, MKDIR and LINK.
    #[tactic(auto, unfolding(crate::specs::Replies::entry_message))]
    pub fn put_entry(&mut self, unique: u64, entry: &EntryReply)
        ensures { self.new ≡ entry_message unique entry.now }
    {
        begin(&mut self.bytes, unique, 128);
        push_u64(&mut self.bytes, entry.node);
        push_u64(&mut self.bytes, entry.generation);
        push_u64(&mut self.bytes, entry.name_seconds);
        push_u64(&mut self.bytes, entry.attribute_seconds);
        push_u32(&mut self.bytes, 0);
        push_u32(&mut self.bytes, 0);
        push_attributes(&mut self.bytes, &entry.attributes);
    }

    /// Makes the reply to GETATTR and SETATTR: the kernel may keep the attributes for some seconds.
    #[tactic(auto, unfolding(crate::specs::Replies::attributes_message))]
    pub fn put_attributes(&mut self, unique: u64, seconds: u64, attributes: &Attributes)
        ensures { self.new ≡ attributes_message unique seconds attributes.now }
    {
        begin(&mut self.bytes, unique, 104);
        push_u64(&mut self.bytes, seconds);
        push_u32(&mut self.bytes, 0);
        push_u32(&mut self.bytes, 0);
        push_attributes(&mut self.bytes, attributes);
    }

    /// Makes the reply to OPEN and OPENDIR.
    #[tactic(auto, unfolding(crate::specs::Replies::open_message))]
    pub fn put_open(&mut self, unique: u64, handle: u64, flags: u32)
        ensures { self.new ≡ open_message unique handle flags }
    {
        begin(&mut self.bytes, unique, 16);
        push_u64(&mut self.bytes, handle);
        push_u32(&mut self.bytes, flags);
        push_u32(&mut self.bytes, 0);
    }

    /// Makes the reply to READ, with bytes of a file, and to READDIR, with entries.
    #[tactic(auto, unfolding(crate::specs::Replies::data_message))]
    pub fn put_data(&mut self, unique: u64, content: &[u8])
        requires { length content.now ≤ 131072 }
        ensures { self.new ≡ data_message unique content.now }
    {
        begin(&mut self.bytes, unique, content.len() as u32);
        push(&mut self.bytes, content);
    }

    /// Makes the reply to WRITE: `size` bytes were written.
    #[tactic(auto, unfolding(crate::specs::Replies::written_message))]
    pub fn put_written(&mut self, unique: u64, size: u32)
        ensures { self.new ≡ written_message unique size }
    {
        begin(&mut self.bytes, unique, 8);
        push_u32(&mut self.bytes, size);
        push_u32(&mut self.bytes, 0);
    }

    /// Makes the reply to STATFS.
    #[tactic(auto, unfolding(crate::specs::Replies::statfs_message))]
    pub fn put_statfs(&mut self, unique: u64, sizes: &Statistics)
        ensures { self.new ≡ statfs_message unique sizes.now }
    {
        begin(&mut self.bytes, unique, 80);
        push_u64(&mut self.bytes, sizes.blocks);
        push_u64(&mut self.bytes, sizes.free_blocks);
        push_u64(&mut self.bytes, sizes.available_blocks);
        push_u64(&mut self.bytes, sizes.inodes);
        push_u64(&mut self.bytes, sizes.free_inodes);
        push_u32(&mut self.bytes, sizes.block_size);
        push_u32(&mut self.bytes, sizes.name_length);
        push_u32(&mut self.bytes, sizes.fragment_size);
        push(&mut self.bytes, &[0; 28]);
    }
}
