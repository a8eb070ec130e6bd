//! The command `put`.
ghost use Rattle.std.specs.Prelude.{◌≡◌, true, false, IfErr, IfOk, codes};
ghost use Rattle.command_words.specs.Invocations.{AsksFor, AsksForNothing, IsKeepGiven, TellsOf, is_set};
ghost use Rattle.command_words.specs.declared.verbs.Verb.TheVariants as verbs;

use crate::fault::WordFault;
use crate::given::{Given, flag_in, missing, moment_in, owner_in, path_in};
use crate::invocation::{Copying, Invocation};
use crate::parameters::{AT, EDITION, IMAGE, Need, OWNER, Parameter, TRACE, ValueName, WordKind};
use crate::read_words::volume_in;
use crate::several::{PutFiles, file_in, files_in, no_more, not_empty};
use crate::texts;
use command_terms::{Change, Keep};
use std::alloc::Global;

pub(crate) const NAME: &str = "put";

pub(crate) const ABOUT: &str =
    "Puts a file into a volume, or several files or folders into a directory of it.";

pub(crate) const USAGE: &str = "\
unixvol put [OPTIONS] <EDITION> <IMAGE> <PATH> <FILE> [NOW]
       unixvol put [OPTIONS] <EDITION> <IMAGE> -t <DIR> <FILE>... [NOW]
       unixvol put -r [OPTIONS] <EDITION> <IMAGE> -t <DIR> <FOLDER>... [NOW]";

pub(crate) const MORE: &str = "\
Examples:
  unixvol put 7 disk.img /etc/motd motd 173750400
  unixvol put 7 disk.img -t /usr/src a.c b.c c.c
  unixvol put 7 disk.img -p -t /bin pwd who
  unixvol put 7 disk.img -r -t /usr/src cmd games
  unixvol put 7 disk.img /usr/ken/profile profile --owner 3:1

PATH is in the volume, and comes before FILE, which is outside it. A new file is made with permissions 0644, user
0 and group 0. An existing file is emptied first, and keeps its i-number, links, permissions and owner.

With --owner, each file is given to this user and group, an existing one too; its permissions stay. User and group
numbers go up to 255 in the sixth edition, and up to 32767 in the seventh.

With -p, the file then gets FILE's permissions, also the set-user-ID and set-group-ID bits and the sticky bit, and
the time of FILE's last modification in whole seconds; its time of access becomes NOW. The user and the group of
FILE are not kept; --owner sets them. With -x, and not -p, it gets FILE's execute bits alone; its other permissions
stay as they are.

With -t, each file is put into DIR, a directory of the volume, under its last name. No two files may have the same
last name, and a last name longer than 14 bytes is refused, never cut. An existing file gets the new bytes, as
above. The image is saved once: with all files or with none. If the last of two or more words is a number or a
date, it is NOW; if a file has that name too, nothing is put. Write the name of such a file as ./123.

With -r, folders are put into DIR with all below them, each under its last name; what is in one without a last name, as
`.`, is put into DIR itself. Directories that are missing are made, with permissions 0755 or those that -p or -x keep,
but not DIR itself; those that are there keep theirs. A folder may have regular files and folders only: anything else, a
symbolic link for example, is reported with its path, and nothing is done. `unixvol sync` puts only what differs.

IMAGE is written only if everything succeeded: a new file is written beside it and then takes its place.
The new file has IMAGE's permissions. If IMAGE is a device, the bytes are written into it; it can't be a pipe or a
terminal.

A path starts at the root, with or without a leading slash. Repeated slashes count as one, trailing slashes are
ignored, and each name is cut to 14 bytes. The volume must be sound: its twelve rules are checked first.

Status:
  0  the file was put, or all files were, and the volume was saved
  1  `unixvol: unsound, rule N`: this is the first rule that the volume breaks; `unixvol check` says what breaks it
     `unixvol: 2 NoEntry`, `unixvol: 20 NotDirectory`: the parent of PATH doesn't exist, or isn't a directory
     `unixvol: 21 IsDirectory`, `unixvol: 102 NotRegular`: PATH is a directory, or a special file
     `unixvol: 27 TooBig`: the file, or its directory, would be larger than the edition allows
     `unixvol: 104 BadId`: UID or GID of --owner is above the edition's highest
     `unixvol: 28 NoSpace`, `unixvol: 103 NoInode`: there are too few free blocks, or there is no free i-node
     With -t, all of these lines but the first end with the path in the volume, as in
     `unixvol: 28 NoSpace: /src/a.c`; and `unixvol: NAME: a name above 14 bytes` has the last name of a file,
     or, with -r, the path below DIR
     With -r, `unixvol: 17 Exists: PATH`: a file or a special file is there, and a folder outside; and
     `unixvol: 31 TooManyLinks: PATH`: the directory above has as many directories as the edition lets it have
  2  the command line is wrong; or
     `unixvol: WORD: a moment, and a file too`: WORD is a file and could be NOW; write ./WORD, or another NOW
  3  `unixvol: cannot read IMAGE`, `unixvol: cannot read FILE`, `unixvol: cannot write IMAGE`; with -p, also if
     FILE was modified before 1970 or after 7 February 2106, which no volume can say; with -r, FILE may be below a
     folder, and is not read if it is neither a file nor a folder
     `unixvol: cannot write -`: with --trace, standard output failed, after the volume was saved
  4  `unixvol: 12 NoMemory`";

const EMPTY_TARGET: &str = "it is empty; the root is /";

const WANTS_TARGET: &str = "several files need -t DIR";

const FOLDERS_WANT_TARGET: &str = "folders need -t DIR";

const FIRST: Parameter = Parameter {
    name: "PATH",
    kind: WordKind::Text,
    need: Need::Once,
    help: "The file's path in the volume; with -t, the first file",
};

const FILE: Parameter = Parameter {
    name: "FILE",
    kind: WordKind::Text,
    need: Need::Maybe,
    help: "The file to put into the volume; only with -t may it be left out",
};

const NOW: Parameter = Parameter {
    name: "NOW",
    kind: WordKind::Text,
    need: Need::Maybe,
    help: texts::CALL_NOW,
};

const MORE_FILES: Parameter = Parameter {
    name: "MORE",
    kind: WordKind::Text,
    need: Need::Any,
    help: "With -t, more files, then the time",
};

const TARGET: Parameter = Parameter {
    name: "target-directory",
    kind: WordKind::Text,
    need: Need::Value(Some('t'), ValueName::Directory),
    help: "Put the files into this directory of the volume, each under its last name",
};

const RECURSIVE: Parameter = Parameter {
    name: "recursive",
    kind: WordKind::Flag,
    need: Need::Flag(Some('r')),
    help: "With -t, put folders with all below them",
};

const PRESERVE: Parameter = Parameter {
    name: "preserve",
    kind: WordKind::Flag,
    need: Need::Flag(Some('p')),
    help: "Keep the permissions and the modification time of the files outside the volume",
};

const EXECUTABLE: Parameter = Parameter {
    name: "executable",
    kind: WordKind::Flag,
    need: Need::Flag(Some('x')),
    help: "Keep only the execute bits of the files outside the volume",
};

/// The words that `put` takes.
pub(crate) const WORDS: &[Parameter] = &[
    EDITION, IMAGE, AT, FIRST, FILE, NOW, MORE_FILES, TARGET, RECURSIVE, PRESERVE, EXECUTABLE,
    OWNER, TRACE,
];

/// Reads the words of `put`.
pub(crate) fn read<'a, G: Given<'a>>(
    alloc: Global,
    given: &G,
    clock: Option<u32>,
) -> Result<Invocation<'a>, WordFault<'a>>
    ensures read { IfOk result (AsksFor clock verbs.Put (G.words given.now)) }
    ensures refused { IfErr result (TellsOf (AsksForNothing clock verbs.Put (G.words given.now))) }
{
    let volume = volume_in(given)?;
    let owner = owner_in(given)?;
    match given.first("target-directory") {
        Some(directory) => {
            not_empty("DIR", directory, EMPTY_TARGET)?;
            let PutFiles { files, now } = files_in(alloc, given, clock)?;
            let keep = keep_in(given);
            let trace = flag_in(given, "trace");
            let copying = if flag_in(given, "recursive") {
                Copying::PutTree {
                    directory,
                    folders: files,
                    keep,
                    owner,
                    now,
                    trace,
                }
            } else {
                Copying::Put {
                    directory,
                    files,
                    keep,
                    owner,
                    now,
                    trace,
                }
            };
            Ok(Invocation::Copy { volume, copying })
        }
        None => {
            let path = path_in(given, "PATH")?;
            let file = file_in(given)?;
            no_more(given, WANTS_TARGET)?;
            no_folders(given)?;
            let now = moment_in(given, clock)?;
            let change = Change::Put {
                path,
                file,
                keep: keep_in(given),
                owner,
                now,
            };
            Ok(Invocation::Change {
                volume,
                change,
                trace: flag_in(given, "trace"),
            })
        }
    }
}

/// Succeeds if the words don't request that folders are put, which are put into a directory alone.
fn no_folders<'a, G: Given<'a>>(given: &G) -> Result<(), WordFault<'a>>
    ensures none { IfOk result (λ _. is_set (G.words given.now (codes "recursive")) ≡ false) }
    ensures refused { IfErr result (TellsOf (is_set (G.words given.now (codes "recursive")) ≡ true)) }
{
    if flag_in(given, "recursive") {
        Err(missing("DIR", FOLDERS_WANT_TARGET))
    } else {
        Ok(())
    }
}

/// Reads what is kept of files that are put, besides their bytes.
fn keep_in<'a, G: Given<'a>>(given: &G) -> Keep
    ensures { IsKeepGiven (G.words given.now) result }
{
    if flag_in(given, "preserve") {
        Keep::All
    } else if flag_in(given, "executable") {
        Keep::Execution
    } else {
        Keep::Nothing
    }
}
