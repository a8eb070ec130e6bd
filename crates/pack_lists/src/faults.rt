//! The reasons why a list can't be read.
ghost use Rattle.std.specs.Prelude.{◌≡◌};
ghost use Rattle.pack_lists.specs.Faults.{no_memory_in_line, no_memory, told};

use pdp_words::Bytes;
use std::alloc::AllocError;

/// The required form of a word in a list.
#[derive(Clone, Copy, PartialEq, Eq)]
pub enum ListWord {
    /// `volume`, which begins the first line.
    Volume,
    /// `time`, which begins the second line.
    Time,
    /// What begins a line after the first two: `dir`, `file`, `link`, `char` or `block`, and what may still come once.
    Line {
        /// True if it may be `boot`.
        boot: bool,
        /// True if it may be `root`.
        root: bool,
    },
    /// An edition: `6` or `7`.
    Edition,
    /// A number of blocks of 32 bits, or the name of a disk.
    Blocks,
    /// A number of blocks of an i-list: a decimal number of 16 bits.
    ListBlocks,
    /// A time in seconds: a decimal number of 32 bits.
    Seconds,
    /// A path in the volume.
    Path,
    /// An octal number of at most 7777.
    Permissions,
    /// A user and a group: two decimal numbers of 16 bits with a colon between them.
    Owner,
    /// The path of a file outside the volume, in UTF-8.
    File,
    /// The major or minor number of a device: a decimal number of 8 bits.
    DeviceNumber,
}

/// The reason why a line can't be read.
#[derive(Drop)]
pub enum ListFlaw {
    /// A word doesn't have the required form.
    Word { word: Bytes, wanted: ListWord },
    /// This word is the first of those that are too many.
    Extra { word: Bytes },
    /// The line ends before a word of this form.
    Ends(ListWord),
}

/// The reason why a list can't be read.
#[derive(Drop)]
pub enum ListFault {
    /// The first line that can't be read.
    Line {
        /// Its number, from 1.
        number: u64,
        /// Its first flaw.
        flaw: ListFlaw,
    },
    /// The list ends before the line that begins with this word.
    Ends(ListWord),
    /// Memory ran out.
    NoMemory,
}

/// The reason why a line wasn't read.
#[derive(Drop)]
pub(crate) enum LineFault {
    /// Its first flaw.
    Flaw(ListFlaw),
    /// Memory ran out.
    NoMemory,
}

impl LineFault {
    /// Returns the fault of a list whose line with this number has this fault.
    pub(crate) fn in_line(self, number: u64) -> ListFault
        ensures { result ≡ told number self }
    {
        match self {
            LineFault::Flaw(flaw) => ListFault::Line { number, flaw },
            LineFault::NoMemory => ListFault::NoMemory,
        }
    }
}

impl From<AllocError> for LineFault {
    ghost from_gives = { λ _ fault. fault ≡ no_memory_in_line };

    fn from(_: AllocError) -> LineFault {
        LineFault::NoMemory
    }
}

impl From<AllocError> for ListFault {
    ghost from_gives = { λ _ fault. fault ≡ no_memory };

    fn from(_: AllocError) -> ListFault {
        ListFault::NoMemory
    }
}
