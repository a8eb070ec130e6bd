//! The memory of a server. All of it is allocated at the start; requests allocate nothing.
ghost use Rattle.std.specs.Prelude.{◌≡◌, ◌≤◌, vec_capacity, IfOk};
ghost use Rattle.vol_layout.specs.Geometry.{Fits};
ghost use Rattle.vol_serve.specs.Statistics.{statistics_of};

use crate::statistics::statistics;
use fuse_words::{MOST_DATA, ReplyBuffer, Statistics};
use pdp_words::Image;
use std::alloc::{AllocError, Global};
use vol_layout::Geometry;

/// The greatest number of bytes in a request: 4096 more than the 128 KiB of a write. A kernel fails all reads of requests into fewer than 8192 bytes.
pub const MOST_REQUEST: usize = 135_168;

/// Room for a reply and its data.
#[derive(Drop)]
pub struct Room {
    /// The reply.
    pub reply: ReplyBuffer,
    /// The bytes of a file, or entries of a directory.
    pub content: Vec<u8>,
    pub ghost enough: { 131072 ≤ vec_capacity content },
}

impl Room {
    /// Allocates the room: 262,160 bytes.
    pub fn new(alloc: Global) -> Result<Room, AllocError> {
        let reply = ReplyBuffer::new(alloc)?;
        let content = Vec::with_capacity(alloc, MOST_DATA)?;
        Ok(Room { reply, content })
    }
}

/// The memory of a server.
#[derive(Drop)]
pub(crate) struct Memory {
    /// Room for a request.
    pub(crate) request: Vec<u8>,
    /// Room for its reply.
    pub(crate) room: Room,
    /// The sizes of the volume.
    pub(crate) sizes: Statistics,
}

impl Memory {
    /// Takes the memory for serving a volume, and counts its free blocks and i-nodes.
    pub(crate) fn new(
        alloc: Global,
        image: &Image,
        geometry: &Geometry,
    ) -> Result<Memory, AllocError>
        requires { Fits geometry.now image.now }
        ensures { IfOk result (λ memory. memory.sizes ≡ statistics_of geometry.now image.now) }
    {
        let request = vec![in alloc; 0u8; MOST_REQUEST]?;
        let room = Room::new(alloc)?;
        let sizes = statistics(alloc, image, geometry)?;
        Ok(Memory {
            request,
            room,
            sizes,
        })
    }
}
