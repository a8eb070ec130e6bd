//! The record of an i-number.
use vol_layout::Slot;
use vol_layout::slot::NAME;

/// The record of an i-number.
#[derive(Clone, Copy)]
pub struct KnownNode {
    /// The directory in which its node was last found.
    pub directory: u16,
    /// The slot in which its node was last found; an empty slot if it was never found.
    pub slot: Slot,
    /// The number of times that the i-number was allocated, counted by this server; 1 at first.
    pub birth: u32,
    /// The number of times that its file is open.
    pub opened: u32,
}

impl KnownNode {
    /// The initial record of an i-number.
    pub const UNMET: KnownNode = KnownNode {
        directory: 0,
        slot: Slot {
            inode: 0,
            name: [0; NAME],
        },
        birth: 1,
        opened: 0,
    };
}
