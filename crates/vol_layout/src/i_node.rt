//! I-nodes in memory.
ghost use Rattle.std.specs.Prelude.{◌≡◌, ◌≤◌};

use crate::edition::Edition;
use crate::mode::{DeviceId, Mode};

/// An i-node of either edition.
#[derive(Clone, Copy)]
pub struct Inode {
    /// The type and permissions.
    pub mode: Mode,
    /// The number of directory entries that name the i-node.
    pub links: u16,
    /// The owner.
    pub uid: u16,
    /// The owner's group.
    pub gid: u16,
    /// The size in bytes.
    pub size: u32,
    /// The addresses. The sixth edition has only the first eight.
    pub addresses: [u32; 13],
    /// The time of the file's last read, in seconds.
    pub accessed: u32,
    /// The time of the file's last write, in seconds.
    pub modified: u32,
    /// The time of the i-node's last change, in seconds; `None` in the sixth edition.
    pub changed: Option<u32>,
}

impl Inode {
    ghost use Rattle.vol_layout.specs.Inode.{new_inode, special_inode, raised_inode, device_of, IsStorable};

    /// Returns a new i-node: its size is 0, it has no addresses, and all its times are `now`, in seconds.
    pub fn new(edition: Edition, mode: Mode, links: u16, uid: u16, gid: u16, now: u32) -> Inode
        ensures { result ≡ new_inode edition mode links uid gid now }
    {
        Inode {
            mode,
            links,
            uid,
            gid,
            size: 0,
            addresses: [0; 13],
            accessed: now,
            modified: now,
            changed: match edition {
                Edition::V6 => None,
                Edition::V7 => Some(now),
            },
        }
    }

    /// Returns the i-node of a new special file for this device: it has one link, its size is 0, and all its times are `now`, in seconds.
    pub fn special(
        edition: Edition,
        mode: Mode,
        device: DeviceId,
        uid: u16,
        gid: u16,
        now: u32,
    ) -> Inode
        ensures { result ≡ special_inode edition mode device uid gid now }
    {
        let mut addresses = [0; 13];
        addresses[0] = u32::from(device.number());
        Inode {
            addresses,
            ..Inode::new(edition, mode, 1, uid, gid, now)
        }
    }

    /// Returns the device number of a special file: the major number times 256, plus the minor number.
    pub fn device_number(&self) -> u16
        ensures { result ≡ device_of self.now }
    {
        (self.addresses[0] % 0x1_0000) as u16
    }

    /// Converts this allocated i-node of the sixth edition to the seventh: removes the addresses, clears the large flag, and sets the time of the
    /// last change to `now`, in seconds. The other fields stay.
    pub fn raised(self, now: u32) -> Inode
        requires allocated { 32768 ≤ self.mode.bits }
        ensures value { result ≡ raised_inode self now }
        ensures storable { IsStorable Edition.V7 result }
    {
        Inode {
            mode: self.mode.raised(),
            addresses: [0; 13],
            changed: Some(now),
            ..self
        }
    }
}
