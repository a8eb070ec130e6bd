//! The command `build`.
ghost use Rattle.std.specs.Prelude.{IfErr, IfOk, codes};
ghost use Rattle.command_words.specs.Invocations.{AsksFor, AsksForNothing, IsLeftOut, IsListGiven, TellsOf};
ghost use Rattle.command_words.specs.declared.verbs.Verb.TheVariants as verbs;

use crate::fault::WordFault;
use crate::given::{Given, flag_in, missing, text_in};
use crate::invocation::{Copying, Invocation, MadeFile};
use crate::parameters::{Need, Parameter, UNREPLACED, ValueName, WordKind};
use crate::read_words::{made_in, volume_by};
use crate::several::{left_out, no_more};
use std::alloc::Global;

pub(crate) const NAME: &str = "build";

pub(crate) const ABOUT: &str =
    "Makes a new volume of all that a list has, or writes the list of a volume.";

pub(crate) const USAGE: &str = "\
unixvol build [OPTIONS] <LIST> <IMAGE>
       unixvol build --list [OPTIONS] <EDITION> <IMAGE> <LIST>";

pub(crate) const MORE: &str = "\
Examples:
  unixvol build disk.list disk.img
  unixvol build --new lists/root.list disk.img
  unixvol build --list 7 disk.img lists/root.list

LIST is a text with one thing a line, in words apart by spaces:
  volume EDITION FSIZE [IBLOCKS]     the first line: the edition, and the sizes, as `unixvol mkfs` takes them
  time SECONDS                       the second line: the time of the volume, and of all that has none of its own
  boot FILE                          the boot block, from a file of at most 512 bytes; without this line it is zeros
  root PERM UID:GID                  the permissions and the owner of the root; without this line they are 0777 and 0:0
  dir PATH PERM UID:GID [SECONDS]    a directory
  file PATH PERM UID:GID FILE [SECONDS]            a file, with the bytes of FILE
  link PATH TARGET                                 another name of the file at TARGET
  char PATH PERM UID:GID MAJOR MINOR [SECONDS]     a character file
  block PATH PERM UID:GID MAJOR MINOR [SECONDS]    a block file
There may be one line `boot`, and one line `root`. An empty line says nothing, nor does one that begins with `#`.

PATH and TARGET are paths in the volume, with a slash before each name. FILE is the path of a file outside the volume:
one that begins with a slash is taken as it is, any other begins at the folder of LIST. PERM is octal. SECONDS are
counted from the beginning of 1970: the time of access and of modification. A list says no times of change.

The volume is that of `unixvol mkfs`, whose root has permissions 0777, user 0 and group 0, if no line `root` says
others, with the program of `unixvol boot`. Then all things are made in their order, as `unixvol import` makes the
members of an archive: if a directory on the way to one is missing, it is made too, with permissions 0755, user 0 and
group 0, and has the time of modification of what was made in it last. A name longer than 14 bytes is refused, never
cut.

LIST is read first, then each FILE. The same list and files give the same bytes, whatever the clock says.

IMAGE is made or replaced only if everything succeeded: a new file is written beside it and then takes its place. If
standard error is a terminal, a line says what a replaced file held. With --new nothing is written if something
already has this path.

With --list it is the other way round: the words are EDITION, IMAGE and LIST, and the list of the volume in IMAGE is
written into LIST. Its regular files are saved in the folder LIST.files, by their paths, and the boot block, if it isn't
all zeros, in the file LIST.boot. `unixvol build LIST NEW` then makes a volume with the same tree: the same names,
kinds, bytes, permissions, owners, times of modification and links. The list has no i-numbers, no times of access and
change, and not the time of modification of the root. It has no holes: a file that has some gets all its blocks, for
which FSIZE may have to be greater.

The volume must be sound, and is read as a whole before anything is written: the folder with its files first, and LIST
last. Files that are there are replaced, and nothing is removed; with --new nothing is written if something already has
the path LIST. The saved files belong to the caller and can be read by it, whatever their permissions in the volume.

Status:
  0  the volume was built and saved; or its list was written
  1  `unixvol: bounds`: no volume of this edition has these sizes
     `unixvol: 27 TooBig`: the file of the boot block has more than 512 bytes
     `unixvol: 104 BadId`: the user or the group of `root` is above the edition's highest
     `unixvol: PATH: WHY`: this can't be made as it is, because of its path, the path of the file that it links to, or
     an owner or group above the edition's highest, 255 in the sixth and 32767 in the seventh
     `unixvol: 17 Exists: PATH`: this path, or that of a directory on the way, is taken by something that isn't the
     directory wanted
     `unixvol: 2 NoEntry: PATH`: the file that it links to doesn't exist
     `unixvol: 28 NoSpace: PATH`, `unixvol: 103 NoInode: PATH`: there are too few free blocks, or there is no free
     i-node
     Other refusals of a call look the same: number, name, and the path
     With --list, `unixvol: unsound, rule N`: this is the first rule that the volume breaks
     `unixvol: PATH: a list has no place for a space or a newline in a path`: the path of a file or a directory in the
     volume has one, or the name of LIST; nothing was written
     `unixvol: PATH: the name is not UTF-8 text`, `unixvol: PATH: a path above 4096 bytes`: neither has a list a place
     for this; nothing was written
     `unixvol: i-node 1 has bad blocks, which a list has no place for`: nothing was written
     `unixvol: PATH: a list has no place for such a special file`: a multiplexor of the seventh edition, or one with more
     in its i-node than the number of its device; nothing was written
  2  the command line is wrong
     `unixvol: LIST: line N: WHY`: this line can't be read; its first word that is wrong is named
     `unixvol: LIST: it ends where `volume` is wanted`, or `time`
  3  `unixvol: cannot read LIST`, `unixvol: cannot read FILE`
     `unixvol: cannot write IMAGE`; with --new, also if something already has this path; also if it is LIST or a FILE
     With --list, `unixvol: cannot read IMAGE`; `unixvol: cannot write LIST`: it is IMAGE, or has no last name, as `..`
     and `/` have none; or `unixvol: cannot write FILE`: LIST, or a file beside it, which may be where a folder must be;
     the files before it were written
  4  `unixvol: 12 NoMemory`";

const WANTS_LIST: &str = "three words, EDITION, IMAGE and LIST, need --list";

const WANTS_NAME: &str = "name the file to write the list into";

const IS_ALONE: &str = "it is for --list; a volume that is built is alone in its file";

const FIRST: Parameter = Parameter {
    name: "LIST",
    kind: WordKind::Text,
    need: Need::Once,
    help: "The list of what the new volume has, a text; with --list, the edition of the volume: 6, 7 or any",
};

const SECOND: Parameter = Parameter {
    name: "IMAGE",
    kind: WordKind::Text,
    need: Need::Once,
    help: "The file for the new volume; with --list, the disk image of which the list is written",
};

const THIRD: Parameter = Parameter {
    name: "MORE",
    kind: WordKind::Text,
    need: Need::Maybe,
    help: "With --list, the file for the list",
};

const WRITES_LIST: Parameter = Parameter {
    name: "list",
    kind: WordKind::Flag,
    need: Need::Flag(None),
    help: "Write the list of a volume, and the files that it names beside it",
};

const LISTED_AT: Parameter = Parameter {
    name: "at",
    kind: WordKind::LongOr,
    need: Need::Value(None, ValueName::Block),
    help: "With --list, the block of IMAGE, of 512 bytes, that the volume begins at; by default 0",
};

/// The words that `build` takes.
pub(crate) const WORDS: &[Parameter] = &[FIRST, SECOND, THIRD, WRITES_LIST, UNREPLACED, LISTED_AT];

/// Reads the words of `build`.
pub(crate) fn read<'a, G: Given<'a>>(
    _alloc: Global,
    given: &G,
    _clock: Option<u32>,
) -> Result<Invocation<'a>, WordFault<'a>>
    ensures read { IfOk result (AsksFor _clock verbs.Build (G.words given.now)) }
    ensures refused { IfErr result (TellsOf (AsksForNothing _clock verbs.Build (G.words given.now))) }
{
    if flag_in(given, "list") {
        let volume = volume_by(given, "LIST")?;
        let copying = Copying::List {
            new: list_in(given)?,
        };
        return Ok(Invocation::Copy { volume, copying });
    }
    no_more(given, WANTS_LIST)?;
    left_out(given, "at", IS_ALONE)?;
    let list = text_in(given, "LIST");
    let new = made_in(given, "IMAGE");
    Ok(Invocation::Build { list, new })
}

/// Reads the file to write the list of a volume into.
fn list_in<'a, G: Given<'a>>(given: &G) -> Result<MadeFile<'a>, WordFault<'a>>
    ensures read { IfOk result (IsListGiven (G.words given.now)) }
    ensures refused { IfErr result (TellsOf (IsLeftOut (G.words given.now) (codes "MORE"))) }
{
    match given.first("MORE") {
        Some(path) => Ok(MadeFile {
            path,
            is_new: flag_in(given, "new"),
        }),
        None => Err(missing("LIST", WANTS_NAME)),
    }
}
