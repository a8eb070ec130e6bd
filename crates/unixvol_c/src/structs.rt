//! Nodes, names and volumes, as C sees them.

use vol_layout::{Edition, Kind, Slot};
use vol_repair::RepairLine;
use vol_volume::{Bytes, Stat, Volume};

/// A name in a directory.
#[repr(C)]
#[derive(Clone, Copy)]
pub struct ListedName {
    /// The i-number.
    pub inode: u16,
    /// The name, ended by zeros if it has fewer than 14 bytes.
    pub name: [u8; 14],
}

/// The attributes of a node. Times are in seconds since the beginning of 1970.
#[repr(C)]
#[derive(Clone, Copy)]
pub struct Node {
    /// The size in bytes.
    pub size: u32,
    /// The time of the last access, as recorded in the volume.
    pub accessed: u32,
    /// The time of the last change of its bytes or entries.
    pub modified: u32,
    /// The time of the last change of its i-node; 0 if the volume doesn't keep it.
    pub changed: u32,
    /// The i-number.
    pub inode: u16,
    /// The permission bits, the low 12 bits of the mode.
    pub permissions: u16,
    /// The link count.
    pub links: u16,
    /// The owner.
    pub uid: u16,
    /// The owner's group.
    pub gid: u16,
    /// Its kind: 1 a regular file, 2 a directory, 3 special.
    pub kind: u8,
    /// True if the volume keeps the time of the i-node's last change, as in the seventh edition.
    pub keeps_changed: bool,
}

/// The sizes of a volume.
#[repr(C)]
#[derive(Clone, Copy)]
pub struct VolumeSizes {
    /// The number of blocks of 512 bytes.
    pub blocks: u32,
    /// The first block after the i-list.
    pub data_start: u32,
    /// The number of free blocks.
    pub free_blocks: u32,
    /// The last i-number.
    pub last_inode: u16,
    /// The edition: 6 or 7.
    pub edition: u8,
}

/// The part of an image to show, and its form.
#[repr(C)]
#[derive(Clone, Copy)]
pub struct View {
    /// The number of a block, for a look at one.
    pub block: u32,
    /// An i-number, for a look at an i-node if the path is empty.
    pub inode: u16,
    /// What is shown: a number of the looks.
    pub kind: u8,
    /// True for JSON, false for lines of text. SVG and a dump have one form only.
    pub json: bool,
    /// True if the i-nodes that no entry names are shown too.
    pub lost: bool,
}

/// What is rescued of an image with lost blocks.
#[repr(C)]
#[derive(Clone, Copy)]
pub struct RescueView {
    /// The block of 512 bytes that the volume begins at in the file that the map is of.
    pub at: u32,
    /// True if there is a map of the bytes that were read.
    pub has_map: bool,
    /// True if the i-nodes that no entry names are rescued too.
    pub lost: bool,
    /// True if damaged files are exported too, with zeros in place of the bytes that are lost.
    pub damaged: bool,
}

/// The sizes of what a command printed, and its status.
#[repr(C)]
#[derive(Clone, Copy)]
pub struct Seen {
    /// The number of bytes of the text.
    pub text: usize,
    /// The number of bytes of the lines, which follow the text.
    pub lines: usize,
    /// The status of the command.
    pub status: u8,
}

/// Something that a repair changed.
#[repr(C)]
#[derive(Clone, Copy)]
pub struct RepairedLine {
    /// The size, the link count or the i-number in the slot before; else 0.
    pub before: u32,
    /// The same afterwards.
    pub after: u32,
    /// The number of the slot, for an entry.
    pub slot: u32,
    /// The i-number, for an entry that of the directory; 0 for the free list.
    pub inode: u16,
    /// The kind of the line: 1 an i-node was cleared, 2 it was made, 3 its size changed, 4 its blocks or other fields, 5 its link count, 6 an entry, 7 the free
    /// list was rebuilt.
    pub kind: u8,
    /// The name in the slot before, for an entry.
    pub name_before: [u8; 14],
    /// The name in the slot afterwards.
    pub name_after: [u8; 14],
}

impl Node {
    ghost use Rattle.unixvol_c.specs.Structs.{IsNode};

    /// Returns the attributes of a node.
    pub(crate) fn of(stat: Stat) -> Node
        ensures { IsNode stat result }
    {
        Node {
            size: stat.size,
            accessed: stat.accessed,
            modified: stat.modified,
            changed: stat.changed.unwrap_or(0),
            inode: stat.number,
            permissions: stat.permissions,
            links: stat.links,
            uid: stat.uid,
            gid: stat.gid,
            kind: match stat.kind {
                Kind::Regular => 1,
                Kind::Directory => 2,
                _ => 3,
            },
            keeps_changed: stat.changed.is_some(),
        }
    }
}

impl ListedName {
    ghost use Rattle.std.specs.Prelude.{◌≡◌};
    ghost use Rattle.unixvol_c.specs.Structs.{entry_of};

    /// Returns a name with its i-number.
    pub(crate) fn of(name: &(Bytes, u16)) -> ListedName
        ensures { result ≡ entry_of name.now }
    {
        let bytes = name.0.as_slice();
        let Slot { inode, name } = Slot::new(name.1, &bytes[..bytes.len().min(14)]);
        ListedName { inode, name }
    }
}

impl VolumeSizes {
    ghost use Rattle.unixvol_c.specs.Structs.{IsAbout};

    /// Returns the sizes of a volume.
    pub(crate) fn of(volume: &Volume) -> VolumeSizes
        ensures { IsAbout volume.now result }
    {
        let geometry = volume.geometry();
        VolumeSizes {
            blocks: geometry.zone_end,
            data_start: geometry.zone_start,
            free_blocks: volume.free_blocks(),
            last_inode: geometry.last_inode,
            edition: match volume.edition() {
                Edition::V6 => 6,
                Edition::V7 => 7,
            },
        }
    }
}

impl RepairedLine {
    ghost use Rattle.std.specs.Prelude.{◌≡◌};
    ghost use Rattle.vol_repair.specs.declared.repair_line.RepairLine.TheVariants as lines;
    ghost use Rattle.unixvol_c.specs.Repaired.{about, line_of};

    /// Returns a line as C sees it.
    pub(crate) fn of(line: RepairLine) -> RepairedLine
        ensures { result ≡ line_of line }
    {
        match line {
            RepairLine::Cleared(inode) => RepairedLine::about(1, inode, 0, 0),
            RepairLine::Made(inode) => RepairedLine::about(2, inode, 0, 0),
            RepairLine::Size { inode, old, new } => RepairedLine::about(3, inode, old, new),
            RepairLine::Changed(inode) => RepairedLine::about(4, inode, 0, 0),
            RepairLine::Links { inode, old, new } => {
                RepairedLine::about(5, inode, u32::from(old), u32::from(new))
            }
            RepairLine::Entry {
                directory,
                slot,
                old,
                new,
            } => RepairedLine::entry(directory, slot, old, new),
            RepairLine::FreeList => RepairedLine::about(7, 0, 0, 0),
        }
    }

    /// Returns a line about an i-node.
    fn about(kind: u8, inode: u16, before: u32, after: u32) -> RepairedLine
        ensures { result ≡ about kind inode before after }
    {
        RepairedLine {
            before,
            after,
            slot: 0,
            inode,
            kind,
            name_before: [0; 14],
            name_after: [0; 14],
        }
    }

    /// Returns a line about the content of a slot, before and afterwards.
    fn entry(directory: u16, slot: u32, old: Slot, new: Slot) -> RepairedLine
        ensures { result ≡ line_of (lines.Entry directory slot old new) }
    {
        let Slot {
            inode: before,
            name: name_before,
        } = old;
        let Slot {
            inode: after,
            name: name_after,
        } = new;
        RepairedLine {
            before: u32::from(before),
            after: u32::from(after),
            slot,
            inode: directory,
            kind: 6,
            name_before,
            name_after,
        }
    }
}
