//! The command `get`.
ghost use Rattle.std.specs.Prelude.{◌≡◌, ◌≢◌, ◌⊎◌, None, false, true, IfErr, IfOk, codes};
ghost use Rattle.command_words.specs.Invocations.{AsksFor, AsksForNothing, TellsOf, is_set};
ghost use Rattle.command_words.specs.declared.verbs.Verb.TheVariants as verbs;

use crate::bad_words::{
    BAD, BAD_BLOCKS, CUT, DAMAGED, LIKE, SIZES, bad_image_in, is_plain, look_at, losing_in,
};
use crate::fault::WordFault;
use crate::given::{Given, excluded, flag_in, missing, text_in};
use crate::invocation::{BadImage, Copying, Invocation};
use crate::parameters::{AT, EDITION, IMAGE, NAMED, Need, Parameter, UNSOUND, ValueName, WordKind};
use crate::read_words::volume_in;
use crate::several::{no_more, not_empty, paths_in};
use command_terms::BadLook;
use std::alloc::Global;

pub(crate) const NAME: &str = "get";

pub(crate) const ABOUT: &str =
    "Prints a file of a volume, or writes files and directories into a folder.";

pub(crate) const USAGE: &str = "\
unixvol get [OPTIONS] <EDITION> <IMAGE> <PATH>
       unixvol get [OPTIONS] <EDITION> <IMAGE> -o <FOLDER> <PATH>...";

pub(crate) const MORE: &str = "\
Examples:
  unixvol get 7 disk.img /etc/passwd > passwd
  unixvol get 7 disk.img -o out /etc/passwd /etc/group
  unixvol get 7 disk.img -p -o out /bin/pwd
  unixvol get 7 disk.img -r -p -o out /usr/src

The file's bytes are printed to standard output; missing blocks read as zeros.

With -o, each file is written into FOLDER, which must exist, under the last name of its path. No two files may
have the same last name. Nothing is written until all files have been read from the volume. An existing file is
replaced without asking, through a symbolic link too: a new file is written beside it and then takes its place, so each
file is written whole or not at all.

With -r too, a PATH may be a directory, and is copied with everything below it, as by `cp -r`: /usr/src above becomes
out/src. What is in the root is written into FOLDER itself. FOLDER and the directories in it are made if they aren't
there; a directory that is there is used, and nothing is removed from it. Nothing is written until everything has been
read. A further name of a file becomes a file of its own. Special files aren't copied, nor is what has a path above 4096
bytes or one that isn't UTF-8 text: standard error has a line for each of them, and the rest is written.

With -p too, each file gets its permissions and its time of last modification from the volume, before it takes its
place. It belongs to the caller, so the set-user-ID and set-group-ID bits are left out, and so is the sticky bit.
With -r, directories get theirs last, when everything is in them.

A path starts at the root, with or without a leading slash. Repeated slashes count as one, trailing slashes are
ignored, and each name is cut to 14 bytes. Without --unsound the volume must be sound: its twelve rules are checked
first.

With --unsound, a file is printed as it is there even if the volume breaks one of rules 3 to 12, which a line names.
Its bytes may be those of another file, if both use a block. -o can't be used then; `unixvol export` writes many
files of such a volume.

With --cut, --bad, --bad-blocks, --sizes and --like, blocks of the image are lost, as `unixvol export --help` says of
them. A file is printed only if none of its bytes is lost, unless --damaged is given. The lines on standard error say
how many blocks are lost, and what is lost of the file and of the last directory on its path that isn't whole. -o can't
be used then.

Status:
  0  the file was printed, or all files were written
  1  `unixvol: unsound, rule N`: this is the first rule that the volume breaks; `unixvol check` says what breaks it;
     nothing was printed, or, with --unsound and from rule 3 on, the file was
     `unixvol: 2 NoEntry`: there is no such file or directory
     `unixvol: 20 NotDirectory`: PATH leads through something that isn't a directory
     `unixvol: 21 IsDirectory`, `unixvol: 102 NotRegular`: PATH is a directory, or a special file
     With -o, all of these lines but the first end with the path, as in `unixvol: 2 NoEntry: /etc/group`
     With -r, `unixvol: /dev/tty: a special file`, and other lines about what isn't copied; the rest was written
     if blocks are lost (--cut, --bad, --bad-blocks, --sizes, --like): nothing is lost of the file or on the way to it,
     and it was printed
  2  the command line is wrong; or no volume of the edition has the sizes of --sizes or --like
  3  `unixvol: cannot read IMAGE`, or `unixvol: cannot write -`: standard output failed; with -o,
     `unixvol: cannot write FILE`: this file in FOLDER can't be written; the files before it were written; or MAPFILE
     can't be read; with -r, also if a file is where a directory must be, or a symbolic link
  4  `unixvol: 12 NoMemory`
  5  if blocks are lost: something is lost of the file, which was not printed without --damaged, or on the way to it; or
     PATH isn't found and something is lost on the way, as standard error says
  6  if blocks are lost: more than 1048576 blocks of the image are missing; or its super-block is lost, and neither
     --sizes nor --like is given";

const EMPTY_FOLDER: &str = "it is empty; the current folder is .";

const WANTS_OUTPUT: &str = "one file is printed, as by > FILE; several need -o FOLDER";

const KEEPS_IN_FOLDER: &str = "-p is for files in a folder: it needs -o FOLDER";

const COPIES_INTO_FOLDER: &str = "-r copies into a folder: it needs -o FOLDER";

const MORE_FILES: Parameter = Parameter {
    name: "MORE",
    kind: WordKind::Text,
    need: Need::Any,
    help: "With -o, more files",
};

const OUTPUT: Parameter = Parameter {
    name: "output",
    kind: WordKind::Text,
    need: Need::Value(Some('o'), ValueName::Folder),
    help: "Write the files into this folder, each under its last name",
};

const PRESERVE: Parameter = Parameter {
    name: "preserve",
    kind: WordKind::Flag,
    need: Need::Flag(Some('p')),
    help: "With -o, give the files their permissions and modification times from the volume",
};

const RECURSIVE: Parameter = Parameter {
    name: "recursive",
    kind: WordKind::Flag,
    need: Need::Flag(Some('r')),
    help: "With -o, copy directories too, with everything below them",
};

/// The words that `get` takes.
pub(crate) const WORDS: &[Parameter] = &[
    EDITION, IMAGE, AT, NAMED, MORE_FILES, OUTPUT, PRESERVE, RECURSIVE, UNSOUND, CUT, BAD,
    BAD_BLOCKS, SIZES, LIKE, DAMAGED,
];

/// Reads the words of `get`.
pub(crate) fn read<'a, G: Given<'a>>(
    alloc: Global,
    given: &G,
    _clock: Option<u32>,
) -> Result<Invocation<'a>, WordFault<'a>>
    ensures read { IfOk result (AsksFor _clock verbs.Get (G.words given.now)) }
    ensures refused { IfErr result (TellsOf (AsksForNothing _clock verbs.Get (G.words given.now))) }
{
    let volume = volume_in(given)?;
    let cut = flag_in(given, "cut");
    let bad = bad_image_in(alloc, given, volume.edition, cut)?;
    match given.first("output") {
        Some(folder) => {
            not_unsound(given)?;
            not_bad(given, &bad)?;
            not_empty("FOLDER", folder, EMPTY_FOLDER)?;
            let paths = paths_in(alloc, given)?;
            let copying = Copying::Get {
                folder,
                paths,
                is_deep: flag_in(given, "recursive"),
                keeps: flag_in(given, "preserve"),
            };
            Ok(Invocation::Copy { volume, copying })
        }
        None => {
            let path = text_in(given, "PATH");
            no_more(given, WANTS_OUTPUT)?;
            folder_unused(given)?;
            if is_plain(given, &bad) {
                return Ok(Invocation::Get { volume, path });
            }
            let damaged = flag_in(given, "damaged");
            Ok(look_at(volume, bad, BadLook::Read { path, damaged }))
        }
    }
}

/// Succeeds if the words don't ask for files of an unsound volume, of which only one can be read.
fn not_unsound<'a, G: Given<'a>>(given: &G) -> Result<(), WordFault<'a>>
    ensures none { IfOk result (λ _. is_set (G.words given.now (codes "unsound")) ≡ false) }
    ensures refused { IfErr result (TellsOf (is_set (G.words given.now (codes "unsound")) ≡ true)) }
{
    if flag_in(given, "unsound") {
        Err(excluded("output", "unsound", OUTPUT.help))
    } else {
        Ok(())
    }
}

/// Succeeds if no block of the image is lost, so that several files can be read.
fn not_bad<'a, G: Given<'a>>(given: &G, bad: &Option<BadImage<'a>>) -> Result<(), WordFault<'a>>
    ensures none { IfOk result (λ _. bad.now ≡ None) }
    ensures refused { IfErr result (TellsOf (bad.now ≢ None)) }
{
    match bad {
        None => Ok(()),
        Some(_) => Err(excluded("output", losing_in(given, false), OUTPUT.help)),
    }
}

/// Succeeds if the words don't request what needs a folder: that permissions and times are kept, or that directories are copied.
fn folder_unused<'a, G: Given<'a>>(given: &G) -> Result<(), WordFault<'a>>
    ensures preserve { IfOk result (λ _. is_set (G.words given.now (codes "preserve")) ≡ false) }
    ensures recursive { IfOk result (λ _. is_set (G.words given.now (codes "recursive")) ≡ false) }
    ensures refused { IfErr result (TellsOf ((is_set (G.words given.now (codes "preserve")) ≡ true)
        ⊎ (is_set (G.words given.now (codes "recursive")) ≡ true))) }
{
    if flag_in(given, "preserve") {
        return Err(missing("FOLDER", KEEPS_IN_FOLDER));
    }
    if flag_in(given, "recursive") {
        return Err(missing("FOLDER", COPIES_INTO_FOLDER));
    }
    Ok(())
}
