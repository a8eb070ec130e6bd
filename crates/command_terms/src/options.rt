//! The options of commands that save a volume.
use vol_migrate::Devices;

/// What to keep of the host's file, besides its bytes.
#[derive(Clone, Copy)]
pub enum Keep {
    /// Nothing: a new file has permissions 0644, and an existing one keeps its own.
    Nothing,
    /// The execute bits.
    Execution,
    /// The permissions and the time of last modification.
    All,
}

/// The sizes and the time of the volume that `migrate` makes, and what becomes of special files.
#[derive(Clone, Copy)]
pub struct Migration {
    /// The number of its blocks, of 512 bytes.
    pub blocks: u32,
    /// The number of blocks in its i-list.
    pub list_blocks: u16,
    /// The time of its super-block and of its i-nodes' last change, in seconds since the beginning of 1970.
    pub now: u32,
    /// What becomes of special files.
    pub devices: Devices,
}

/// The least size and the time of a repaired copy.
#[derive(Clone, Copy)]
pub struct Repairing {
    /// The fewest blocks that the copy has, of 512 bytes; it has all of the volume's.
    pub blocks: u32,
    /// The time of new i-nodes, in seconds since the beginning of 1970.
    pub now: u32,
}
