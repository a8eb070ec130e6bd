//! The mode word of an i-node.
ghost use Rattle.std.specs.Prelude.{◌≡◌, ◌≤◌, ◌+◌, ◌*◌, ◌/◌, ◌%◌, false};

use crate::edition::Edition;

/// The kind of an i-node.
#[derive(Clone, Copy, PartialEq, Eq)]
pub enum Kind {
    /// The mode is 0.
    Free,
    /// A regular file.
    Regular,
    /// A directory.
    Directory,
    /// A character or block special file, or in the seventh edition one of the two multiplexor types.
    Special,
    /// The mode is not a valid mode of the edition.
    Odd,
}

/// The kind of a special file.
#[derive(Clone, Copy, PartialEq, Eq)]
pub enum DeviceKind {
    /// Read and written by characters.
    Character,
    /// Read and written by blocks.
    Block,
}

/// The device that a special file stands for.
#[derive(Clone, Copy, PartialEq, Eq)]
pub struct DeviceId {
    /// The kind of the special file.
    pub kind: DeviceKind,
    /// The major number, which names the driver.
    pub major: u8,
    /// The minor number, which the driver is given.
    pub minor: u8,
}

impl DeviceId {
    ghost use Rattle.vol_layout.specs.Inode.{device_number};

    /// Returns the number of the device: the major number times 256, plus the minor number.
    pub fn number(self) -> u16
        ensures { result ≡ device_number self }
    {
        256 * u16::from(self.major) + u16::from(self.minor)
    }
}

/// The mode word of an i-node.
#[derive(Clone, Copy)]
pub struct Mode {
    /// The mode word as stored.
    pub bits: u16,
}

/// The bit that marks an allocated i-node in the sixth edition.
const ALLOCATED: u16 = 0o100000;

/// The bit that marks a large file in the sixth edition.
const LARGE: u16 = 0o010000;

/// The type bits of an allocated i-node in the sixth edition.
const SIXTH_TYPE: u16 = 0o060000;

/// The type bits of a mode in the seventh edition.
const SEVENTH_TYPE: u16 = 0o170000;

/// The permission bits, with set-uid, set-gid and sticky.
const PERMISSIONS: u16 = 0o7777;

impl Mode {
    ghost use Rattle.vol_layout.specs.Inode.{kind_of, device_type, permissions_of, is_block, is_large, with_large, raised_mode};

    /// Returns the kind of an i-node with this mode.
    #[tactic(auto, using(crate::proofs::BitLaws::type_v6, crate::proofs::BitLaws::allocated_bit), unfolding(crate::specs::Inode::kind_of))]
    pub fn kind(self, edition: Edition) -> Kind
        ensures { result ≡ kind_of edition self.bits }
    {
        if self.bits == 0 {
            return Kind::Free;
        }
        match edition {
            Edition::V6 if self.bits & ALLOCATED == 0 => Kind::Odd,
            Edition::V6 => match self.bits & SIXTH_TYPE {
                0 => Kind::Regular,
                0o040000 => Kind::Directory,
                _ => Kind::Special,
            },
            Edition::V7 => match self.bits & SEVENTH_TYPE {
                0o100000 => Kind::Regular,
                0o040000 => Kind::Directory,
                0o020000 | 0o030000 | 0o060000 | 0o070000 => Kind::Special,
                _ => Kind::Odd,
            },
        }
    }

    /// Returns the permission bits, octal 7777, which include set-uid, set-gid and sticky.
    pub fn permissions(self) -> u16
        ensures { result ≡ permissions_of self.bits }
    {
        self.bits & PERMISSIONS
    }

    /// True if this mode of a special file is that of a block special file, false if it is that of a character special file. Of the seventh edition's
    /// multiplexor types, 070000 counts as a block and 030000 as a character special file.
    pub fn is_block(self) -> bool
        ensures { result ≡ is_block self.bits }
    {
        self.bits / 0o20000 % 4 == 3
    }

    /// True if the sixth edition's large flag is set; false in the seventh edition.
    #[tactic(auto, using(crate::proofs::BitLaws::large_bit))]
    pub fn is_large(self, edition: Edition) -> bool
        ensures { result ≡ is_large edition self.bits }
    {
        match edition {
            Edition::V6 => self.bits & LARGE != 0,
            Edition::V7 => false,
        }
    }

    /// Returns the mode of a new regular file with these permission bits (octal 7777).
    #[tactic(auto, unfolding(crate::specs::Inode::kind_of))]
    pub fn regular(edition: Edition, permissions: u16) -> Mode
        ensures kind { kind_of edition result.bits ≡ Kind.Regular }
        ensures permissions { permissions_of result.bits ≡ permissions % 4096 }
        ensures small { is_large edition result.bits ≡ false }
    {
        // Bit 0100000 means allocated in the sixth edition and regular file in the seventh.
        Mode {
            bits: 0o100000 | (permissions & PERMISSIONS),
        }
    }

    /// Returns the mode of a new directory with these permission bits (octal 7777).
    #[tactic(auto, unfolding(crate::specs::Inode::kind_of))]
    pub fn directory(edition: Edition, permissions: u16) -> Mode
        ensures kind { kind_of edition result.bits ≡ Kind.Directory }
        ensures permissions { permissions_of result.bits ≡ permissions % 4096 }
        ensures small { is_large edition result.bits ≡ false }
    {
        let kind = match edition {
            Edition::V6 => 0o140000,
            Edition::V7 => 0o040000,
        };
        Mode {
            bits: kind | (permissions & PERMISSIONS),
        }
    }

    /// Returns the mode of a new special file of this kind with these permission bits (octal 7777).
    #[tactic(auto, unfolding(crate::specs::Inode::kind_of))]
    pub fn special(edition: Edition, device: DeviceKind, permissions: u16) -> Mode
        ensures kind { kind_of edition result.bits ≡ Kind.Special }
        ensures device { result.bits / 4096 ≡ device_type edition device }
        ensures permissions { permissions_of result.bits ≡ permissions % 4096 }
        ensures small { is_large edition result.bits ≡ false }
    {
        let kind = match (edition, device) {
            (Edition::V6, DeviceKind::Character) => 0o120000,
            (Edition::V6, DeviceKind::Block) => 0o160000,
            (Edition::V7, DeviceKind::Character) => 0o020000,
            (Edition::V7, DeviceKind::Block) => 0o060000,
        };
        Mode {
            bits: kind | (permissions & PERMISSIONS),
        }
    }

    /// Returns this mode with its permission bits (octal 7777) replaced. The kind and the large flag stay.
    #[tactic(auto, using(crate::proofs::BitLaws::permissions_put))]
    pub fn with_permissions(self, permissions: u16) -> Mode
        ensures { result.bits ≡ self.bits / 4096 * 4096 + permissions % 4096 }
    {
        Mode {
            bits: self.bits & !PERMISSIONS | permissions & PERMISSIONS,
        }
    }

    /// Returns this mode with the sixth edition's large flag set or cleared. The kind of an allocated i-node stays.
    #[tactic(auto, using(crate::proofs::BitLaws::large_set, crate::proofs::BitLaws::large_cleared), unfolding(crate::specs::Inode::kind_of))]
    pub fn with_large(self, large: bool) -> Mode
        ensures bits { result.bits ≡ with_large self.bits large }
        ensures large { is_large Edition.V6 result.bits ≡ large }
        ensures kind { 32768 ≤ self.bits → kind_of Edition.V6 result.bits ≡ kind_of Edition.V6 self.bits }
        ensures permissions { permissions_of result.bits ≡ permissions_of self.bits }
    {
        Mode {
            bits: if large {
                self.bits | LARGE
            } else {
                self.bits & !LARGE
            },
        }
    }

    /// Converts this mode of an allocated i-node from the sixth edition to the seventh: keeps the kind, the type of a special file and the permission
    /// bits, and clears the large flag.
    pub fn raised(self) -> Mode
        requires allocated { 32768 ≤ self.bits }
        ensures bits { result.bits ≡ raised_mode self.bits }
        ensures kind { kind_of Edition.V7 result.bits ≡ kind_of Edition.V6 self.bits }
        ensures permissions { permissions_of result.bits ≡ permissions_of self.bits }
    {
        let kind = self.bits & SIXTH_TYPE;
        let kind = if kind == 0 { 0o100000 } else { kind };
        Mode {
            bits: kind + (self.bits & PERMISSIONS),
        }
    }
}
