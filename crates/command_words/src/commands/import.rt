//! The command `import`.
ghost use Rattle.std.specs.Prelude.{IfErr, IfOk};
ghost use Rattle.command_words.specs.Invocations.{AsksFor, IsOneWrong, TellsOf};
ghost use Rattle.command_words.specs.Verbs.{arguments_of};
ghost use Rattle.command_words.specs.declared.verbs.Verb.TheVariants as verbs;

use crate::fault::WordFault;
use crate::given::{Given, flag_in, moment_in, owner_in, path_in};
use crate::invocation::Invocation;
use crate::parameters::{AT, CALL_NOW, EDITION, IMAGE, Need, OWNER, Parameter, TRACE, WordKind};
use crate::read_words::volume_in;
use command_terms::Change;
use std::alloc::Global;
use vol_import::ImportOptions;

pub(crate) const NAME: &str = "import";

pub(crate) const ABOUT: &str = "Adds the members of a tar archive to a volume.";

pub(crate) const MORE: &str = "\
Examples:
  unixvol import 7 disk.img /usr/src < src.tar
  unixvol export 6 old.img | unixvol import 7 new.img
  unixvol import --owner 3:3 7 disk.img /usr/src < src.tar
  unixvol import --trace 7 disk.img /usr/src < src.tar         what each call changed, field by field

The archive is read from standard input, which can't be a terminal. Its format is ustar, GNU tar, pax or V7's tar.
Its members are made below PATH: directories, files and special files with their permissions, owners and times of
modification, files with their bytes, and more names of files. All members are made, or none. If there are any, PATH must
exist, unless a member whose name is empty or a slash makes it. What follows the end of the archive is dropped, a
second archive too.

If a directory on the way to a member is missing, it is made too, with permissions 0755, user 0 and group 0, also
with --owner. A directory that the volume already has keeps its permissions and its owner; it gets the time of
modification of what is made in it last. A time of modification that doesn't fit 32 bits becomes NOW; times in headers
of pax aren't read. A name longer than 14 bytes is refused, never cut, and so is a path longer than 4096 bytes. Symbolic
links and FIFOs are refused, as these systems have none. Files stored as sparse are refused: make the archive with tar
without -S, or with bsdtar --no-read-sparse.

Character and block files keep the major and the minor number of their device, which are 0 to 255 here. `export`
writes a multiplexor of the seventh edition as the character or block file that it multiplexes; it comes back as that.

With --skip-special, special files are left out, and each has a line on standard error. These are character and
block files, FIFOs, and links to what is left out.

IMAGE is written only if everything succeeded: a new file is written beside it and then takes its place.

Status:
  0  all members were made, and the volume was saved; with --skip-special, all but these:
     `unixvol: MEMBER: a special file, left out`
  1  `unixvol: unsound, rule N`: this is the first rule that the volume breaks; `unixvol check` says what breaks it
     `unixvol: archive, byte N: WHY`: the archive can't be read from the header at this byte on
     `unixvol: MEMBER: WHY`: this member can't be made as it is, because of its kind, its path, the path of the file
     that it links to, a field of its header that isn't a number, a major or minor number above 255, or an owner or
     group above the edition's highest, 255 in the sixth and 32767 in the seventh; or it is a sparse file
     `unixvol: 17 Exists: MEMBER`: its path, or that of a directory on the way, is taken by something that isn't
     the directory wanted
     `unixvol: 2 NoEntry: MEMBER`: PATH doesn't exist, or the file that the member links to doesn't
     `unixvol: 28 NoSpace: MEMBER`, `unixvol: 103 NoInode: MEMBER`: there are too few free blocks, or there is no
     free i-node
     Other refusals of a call look the same: number, name, and the member's path in the volume, in which bytes
     that a terminal can't show are a backslash and three octal digits
  2  the command line is wrong
  3  `unixvol: cannot read IMAGE`, `unixvol: cannot write IMAGE`, or `unixvol: cannot read -`: standard input
     failed, is a terminal, or has an archive larger than 64 MiB plus 64 times the size of IMAGE
     `unixvol: cannot write -`: with --trace, standard output failed, after the volume was saved
  4  `unixvol: 12 NoMemory`";

const BELOW: Parameter = Parameter {
    name: "PATH",
    kind: WordKind::Path,
    need: Need::Maybe,
    help: "The directory of the volume to make the members in; by default, the root",
};

const SKIP_SPECIAL: Parameter = Parameter {
    name: "skip-special",
    kind: WordKind::Flag,
    need: Need::Flag(None),
    help: "Leave out special files, and list them on standard error",
};

/// The words that `import` takes.
pub(crate) const WORDS: &[Parameter] = &[
    EDITION,
    IMAGE,
    AT,
    BELOW,
    CALL_NOW,
    SKIP_SPECIAL,
    OWNER,
    TRACE,
];

/// Reads the words of `import`.
pub(crate) fn read<'a, G: Given<'a>>(
    _alloc: Global,
    given: &G,
    clock: Option<u32>,
) -> Result<Invocation<'a>, WordFault<'a>>
    ensures read { IfOk result (AsksFor clock verbs.Import (G.words given.now)) }
    ensures refused { IfErr result (TellsOf (IsOneWrong clock (G.words given.now) (arguments_of verbs.Import))) }
{
    let volume = volume_in(given)?;
    let path = path_in(given, "PATH")?;
    let now = moment_in(given, clock)?;
    let options = ImportOptions {
        skip_special: flag_in(given, "skip-special"),
        owner: owner_in(given)?,
    };
    Ok(Invocation::Change {
        volume,
        change: Change::Import { path, options, now },
        trace: flag_in(given, "trace"),
    })
}
