//! The command `sync`.
ghost use Rattle.std.specs.Prelude.{IfErr, IfOk};
ghost use Rattle.command_words.specs.Invocations.{AsksFor, IsOneWrong, TellsOf};
ghost use Rattle.command_words.specs.Verbs.{arguments_of};
ghost use Rattle.command_words.specs.declared.verbs.Verb.TheVariants as verbs;

use crate::fault::WordFault;
use crate::given::{Given, flag_in, moment_in, owner_in, path_in, text_in};
use crate::invocation::{Copying, Invocation};
use crate::parameters::{AT, CALL_NOW, EDITION, IMAGE, Need, OWNER, Parameter, WordKind};
use crate::read_words::volume_in;
use std::alloc::Global;

pub(crate) const NAME: &str = "sync";

pub(crate) const ABOUT: &str = "Makes a directory of a volume what a folder is.";

pub(crate) const MORE: &str = "\
Examples:
  unixvol sync 7 disk.img /usr/src/cmd cmd
  unixvol sync 7 disk.img /usr/src/cmd cmd -n
  unixvol sync 7 disk.img /usr/src/cmd cmd --delete
  unixvol sync 7 disk.img / rootfs --owner 3:1

PATH is in the volume, and comes before FOLDER, which is outside it. Each file of FOLDER and below it is compared
with the one in the volume, all bytes of it. A file that is missing, or has other bytes, is put as by `put -p`, with
its permissions and the time of its last modification in whole seconds, even if the one in the volume is newer. One
with the same bytes gets its permissions and its time if they differ. A file that is the same is left alone, and if
all are, IMAGE isn't written.
A file that differs and has further names in the volume is replaced by a new one with its owner, so that its other
names keep what they have.

A directory that is missing is made, PATH too, but not the directories above it; it gets the folder's permissions, and
its owner with --owner. Directories that are there keep theirs.

With --delete, what FOLDER hasn't is removed from PATH first: files, special files, further names, and directories
with all below them. Without it nothing is removed from the volume. A file whose place a folder is to take, or the
reverse, is never removed: nothing is done then.

With -n nothing is written. A line says what would be done for each that isn't the same: `mkdir PATH`, `put PATH`, or
`mark PATH` if only permissions and time would change. With --delete, these follow a line for each that would be
removed: `rm PATH`, or `rmdir PATH` for a directory. The status is what it would be, unless writing failed.

FOLDER may have regular files and folders only, with names of at most 14 bytes. If it has anything else, a symbolic
link for example, this is reported with its path, and nothing is done; FOLDER itself may be a link to a folder. The
image is saved once: with all of it or with nothing.

With --owner, what is made or put is given to this user and group. User and group numbers go up to 255 in the sixth
edition, and up to 32767 in the seventh.

IMAGE is written only if everything succeeded: a new file is written beside it and then takes its place.

A path starts at the root, with or without a leading slash. Repeated slashes count as one, trailing slashes are
ignored, and each name is cut to 14 bytes. The volume must be sound: its twelve rules are checked first.

Status:
  0  PATH is what FOLDER is, but without --delete for what FOLDER hasn't; with -n, it can be
  1  `unixvol: unsound, rule N`: this is the first rule that the volume breaks; `unixvol check` says what breaks it
     `unixvol: 2 NoEntry: PATH`, `unixvol: 20 NotDirectory: PATH`: the parent of PATH doesn't exist, or isn't one
     `unixvol: 17 Exists: PATH`: a file or a special file is there, and a folder in FOLDER
     `unixvol: 21 IsDirectory: PATH`: a directory is there, and a file in FOLDER
     `unixvol: 102 NotRegular: PATH`: a special file is there, and a file in FOLDER
     `unixvol: 27 TooBig: PATH`: the file, or its directory, would be larger than the edition allows
     `unixvol: 31 TooManyLinks: PATH`: the directory above has as many directories as the edition lets it have
     `unixvol: 104 BadId: PATH`: UID or GID of --owner is above the edition's highest
     `unixvol: 28 NoSpace: PATH`, `unixvol: 103 NoInode: PATH`: there are too few free blocks, or no free i-node
     `unixvol: NAME: a name above 14 bytes`: NAME is below FOLDER
  2  the command line is wrong
  3  `unixvol: cannot read IMAGE`, `unixvol: cannot write IMAGE`
     `unixvol: cannot read FILE`: below FOLDER; it is neither a file nor a folder, or was modified before 1970 or
     after 7 February 2106, which no volume can say, or the system doesn't let it be read
     `unixvol: cannot write -`: with -n, standard output failed
  4  `unixvol: 12 NoMemory`";

const PATH: Parameter = Parameter {
    name: "PATH",
    kind: WordKind::Path,
    need: Need::Once,
    help: "The path of the directory in the volume",
};

const FOLDER: Parameter = Parameter {
    name: "FOLDER",
    kind: WordKind::Text,
    need: Need::Once,
    help: "The folder outside the volume",
};

const DRY_RUN: Parameter = Parameter {
    name: "dry-run",
    kind: WordKind::Flag,
    need: Need::Flag(Some('n')),
    help: "Write nothing, and print what would be done",
};

const DELETE: Parameter = Parameter {
    name: "delete",
    kind: WordKind::Flag,
    need: Need::Flag(None),
    help: "Also remove what FOLDER hasn't",
};

/// The words that `sync` takes.
pub(crate) const WORDS: &[Parameter] = &[
    EDITION, IMAGE, AT, PATH, FOLDER, CALL_NOW, DRY_RUN, DELETE, OWNER,
];

/// Reads the words of `sync`.
pub(crate) fn read<'a, G: Given<'a>>(
    _alloc: Global,
    given: &G,
    clock: Option<u32>,
) -> Result<Invocation<'a>, WordFault<'a>>
    ensures read { IfOk result (AsksFor clock verbs.Sync (G.words given.now)) }
    ensures refused { IfErr result (TellsOf (IsOneWrong clock (G.words given.now) (arguments_of verbs.Sync))) }
{
    let volume = volume_in(given)?;
    let directory = path_in(given, "PATH")?;
    let now = moment_in(given, clock)?;
    let owner = owner_in(given)?;
    let copying = Copying::Sync {
        directory,
        folder: text_in(given, "FOLDER"),
        owner,
        now,
        deletes: flag_in(given, "delete"),
        is_trial: flag_in(given, "dry-run"),
    };
    Ok(Invocation::Copy { volume, copying })
}
