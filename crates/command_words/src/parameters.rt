//! What commands take, and the words that several commands take.
use crate::texts;

/// The kind of words that an argument takes.
#[derive(Clone, Copy)]
pub enum WordKind {
    /// An edition, `6` or `7`; or `any`, for the one of which the volume is sound.
    Edition,
    /// The edition of a volume to make, `6` or `7`.
    NewEdition,
    /// Any word.
    Text,
    /// A path, which isn't the empty word.
    Path,
    /// A 16-bit number.
    Word,
    /// An i-node: a path that begins with a slash, else a 16-bit number.
    Node,
    /// A 16-bit number; it may be left out.
    WordOr,
    /// A 32-bit number, or the name of a disk with that many blocks.
    Blocks,
    /// A 32-bit number.
    Long,
    /// A 32-bit number, or a path.
    Place,
    /// Permissions in octal digits, or changes of them in letters.
    Permissions,
    /// The same; they may be left out.
    PermissionsOr,
    /// The kind of a device, `c` or `b`.
    DeviceKind,
    /// A number from 0 to 255.
    Byte,
    /// A user and a group: two 16-bit numbers with a colon between them; they may be left out.
    Owner,
    /// A number of threads, 1 to 64.
    Threads,
    /// A time; if it is left out, the time of the program's clock.
    Moment,
    /// The names of 1 to 64 scripts.
    Scripts,
    /// A 32-bit number; it may be left out.
    LongOr,
    /// A list of blocks: numbers and ranges, ascending and apart by commas; it may be left out.
    BlockList,
    /// The number of blocks of a volume and that of its i-list, apart by a comma; they may be left out.
    Sizes,
    /// The name of a disk; it may be left out.
    Disk,
    /// None: the argument is an option without a value.
    Flag,
}

/// The number of words that an argument takes.
#[derive(Clone, Copy)]
pub enum Need {
    /// One word.
    Once,
    /// One word or none.
    Maybe,
    /// One word or more.
    Several,
    /// Any number of words.
    Any,
    /// None: the argument is an option with this name, and this letter if there is one.
    Flag(Option<char>),
    /// One word or none: the argument is the value of an option with this name, and this letter if there is one.
    Value(Option<char>, ValueName),
}

/// The name of an option's value in the help.
#[derive(Clone, Copy)]
pub enum ValueName {
    /// A directory of a volume.
    Directory,
    /// A folder outside it.
    Folder,
    /// A file outside it, to make.
    Copy,
    /// A user and a group.
    Owner,
    /// A pattern for names.
    Pattern,
    /// A file outside the volume, for a rescue.
    Rescue,
    /// A file outside the volume that says what of it was read.
    Map,
    /// A block of a pack.
    Block,
    /// A file or a directory of a volume.
    Path,
    /// A number of blocks.
    Size,
    /// A list of blocks.
    Blocks,
    /// The number of blocks of a volume and that of its i-list.
    Sizes,
    /// A disk.
    Disk,
}

impl ValueName {
    /// Returns the name, as the help shows it.
    pub fn text(self) -> &'static str {
        match self {
            ValueName::Directory => "DIR",
            ValueName::Folder => "FOLDER",
            ValueName::Copy => "COPY",
            ValueName::Owner => "UID:GID",
            ValueName::Pattern => "GLOB",
            ValueName::Rescue => "FILE",
            ValueName::Map => "MAPFILE",
            ValueName::Block => "BLOCK",
            ValueName::Path => "PATH",
            ValueName::Size => "FSIZE",
            ValueName::Blocks => "LIST",
            ValueName::Sizes => "FSIZE,IBLOCKS",
            ValueName::Disk => "DISK",
        }
    }
}

/// An argument of a command.
#[derive(Clone, Copy)]
pub struct Parameter {
    /// Its name, as the help shows it.
    pub name: &'static str,
    /// The kind of its words.
    pub kind: WordKind,
    /// The number of its words.
    pub need: Need,
    /// Its text in the help.
    pub help: &'static str,
}

/// The words for an edition on the command line: the editions' names, and the word for the one of which the volume is sound.
pub static EDITIONS: [&str; 3] = ["6", "7", "any"];

pub(crate) const EDITION: Parameter = Parameter {
    name: "EDITION",
    kind: WordKind::Edition,
    need: Need::Once,
    help: "The volume's edition of Unix; any is the one of which it is sound",
};

pub(crate) const IMAGE: Parameter = Parameter {
    name: "IMAGE",
    kind: WordKind::Text,
    need: Need::Once,
    help: "The disk image, a file that holds a volume",
};

pub(crate) const AT: Parameter = Parameter {
    name: "at",
    kind: WordKind::LongOr,
    need: Need::Value(None, ValueName::Block),
    help: "The block of IMAGE, of 512 bytes, that the volume begins at; by default 0. All else in IMAGE stays the same, and one lock serves the whole of it",
};

pub(crate) const NODE: Parameter = Parameter {
    name: "INO",
    kind: WordKind::Node,
    need: Need::Once,
    help: "The file's i-number, or a path that begins with a slash",
};

pub(crate) const WORKERS: Parameter = Parameter {
    name: "WORKERS",
    kind: WordKind::Threads,
    need: Need::Once,
    help: "The number of threads, from 1 to 64",
};

pub(crate) const BELOW: Parameter = Parameter {
    name: "PATH",
    kind: WordKind::Text,
    need: Need::Maybe,
    help: "The directory's path in the volume; by default, the root",
};

pub(crate) const LOST: Parameter = Parameter {
    name: "lost",
    kind: WordKind::Flag,
    need: Need::Flag(None),
    help: "Include i-nodes that no entry names or leads to, below lost+found",
};

pub(crate) const JSON: Parameter = Parameter {
    name: "json",
    kind: WordKind::Flag,
    need: Need::Flag(None),
    help: "Print JSON",
};

pub(crate) const UNSOUND: Parameter = Parameter {
    name: "unsound",
    kind: WordKind::Flag,
    need: Need::Flag(None),
    help: "Show what is there even if the volume breaks one of rules 3 to 12",
};

pub(crate) const UNREPLACED: Parameter = Parameter {
    name: "new",
    kind: WordKind::Flag,
    need: Need::Flag(None),
    help: "Write nothing if something already has this path",
};

pub(crate) const CALL_NOW: Parameter = Parameter {
    name: "NOW",
    kind: WordKind::Moment,
    need: Need::Maybe,
    help: texts::CALL_NOW,
};

pub(crate) const DIRECTORY: Parameter = Parameter {
    name: "PATH",
    kind: WordKind::Path,
    need: Need::Once,
    help: "The directory's path in the volume",
};

pub(crate) const NAMED: Parameter = Parameter {
    name: "PATH",
    kind: WordKind::Text,
    need: Need::Once,
    help: texts::NAMED,
};

pub(crate) const OWNED: Parameter = Parameter {
    name: "PATH",
    kind: WordKind::Path,
    need: Need::Once,
    help: "The path of the file or directory in the volume",
};

pub(crate) const FROM: Parameter = Parameter {
    name: "FROM",
    kind: WordKind::Path,
    need: Need::Once,
    help: texts::NAMED,
};

pub(crate) const TO: Parameter = Parameter {
    name: "TO",
    kind: WordKind::Path,
    need: Need::Once,
    help: "The new path in the volume",
};

pub(crate) const OWNER: Parameter = Parameter {
    name: "owner",
    kind: WordKind::Owner,
    need: Need::Value(Some('o'), ValueName::Owner),
    help: "Give each file or directory that is made or put to this user and group",
};

pub(crate) const TRACE: Parameter = Parameter {
    name: "trace",
    kind: WordKind::Flag,
    need: Need::Flag(None),
    help: "Print each call that was made, and what it changed, field by field",
};
