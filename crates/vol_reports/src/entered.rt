//! Entries that a checker found.
ghost use Rattle.std.specs.Prelude.{◌≡◌};
ghost use Rattle.vol_layout.specs.Slot.{name_of};
ghost use Rattle.vol_reports.specs.Placed.{placed};

use std::marker::Model;
use vol_layout::Slot;

/// A directory entry with its position. Contracts see its position, its i-number and its name; they ignore the bytes after the name.
#[derive(Drop)]
pub struct EnteredName {
    directory: u16,
    number: u32,
    slot: Slot,
}

impl Model for EnteredName {
    ghost use Rattle.vol_layout.specs.Slot.{name_of};
    ghost use Rattle.vol_reports.specs.Placed.{Placed, placed};

    ghost Value = { Placed };

    ghost view = { λ held. placed held.directory held.number held.slot.inode (name_of held.slot.name) };
}

impl EnteredName {
    /// Returns the entry in slot `number` of a directory.
    pub fn new(directory: u16, number: u32, slot: Slot) -> EnteredName
        ensures { result ≡ placed directory number slot.inode (name_of slot.name) }
    {
        EnteredName {
            directory,
            number,
            slot,
        }
    }

    /// Returns the directory's i-number.
    pub fn directory(&self) -> u16
        ensures { result ≡ self.now.directory }
    {
        self.directory
    }

    /// Returns the number of the slot.
    pub fn slot(&self) -> u32
        ensures { result ≡ self.now.slot }
    {
        self.number
    }

    /// Returns the i-number that the entry is for.
    pub fn inode(&self) -> u16
        ensures { result ≡ self.now.inode }
    {
        self.slot.inode
    }

    /// Returns the entry's name.
    pub fn name(&self) -> &[u8]
        ensures { result.now ≡ self.now.name }
    {
        self.slot.name()
    }
}
