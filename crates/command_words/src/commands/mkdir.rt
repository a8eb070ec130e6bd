//! The command `mkdir`.
ghost use Rattle.std.specs.Prelude.{IfErr, IfOk};
ghost use Rattle.command_words.specs.Invocations.{AsksFor, IsOneWrong, TellsOf};
ghost use Rattle.command_words.specs.Verbs.{arguments_of};
ghost use Rattle.command_words.specs.declared.verbs.Verb.TheVariants as verbs;

use crate::fault::WordFault;
use crate::given::{Given, flag_in, moment_in, owner_in, path_in};
use crate::invocation::Invocation;
use crate::parameters::{
    AT, CALL_NOW, DIRECTORY, EDITION, IMAGE, Need, OWNER, Parameter, TRACE, WordKind,
};
use crate::read_words::volume_in;
use command_terms::Change;
use std::alloc::Global;

pub(crate) const NAME: &str = "mkdir";

pub(crate) const ABOUT: &str = "Makes a directory in a volume.";

pub(crate) const MORE: &str = "\
Examples:
  unixvol mkdir 7 disk.img /usr/src 173750400
  unixvol mkdir -p 7 disk.img /usr/src/cmd
  unixvol mkdir -p 7 disk.img /usr/ken/bin --owner 3:1

A new directory has permissions 0755, user 0 and group 0, and the entries `.` and `..`. With -p, missing
directories on the way to it are made too, and a directory that already exists is no fault and stays as it is.

With --owner, each directory that is made is given to this user and group; one that already exists keeps its own.
User and group numbers go up to 255 in the sixth edition, and up to 32767 in the seventh.

IMAGE is written only if everything succeeded: a new file is written beside it and then takes its place.

A path starts at the root, with or without a leading slash. Repeated slashes count as one, trailing slashes are
ignored, and each name is cut to 14 bytes. The volume must be sound: its twelve rules are checked first.

Status:
  0  the directory was made, and the volume was saved
  1  `unixvol: unsound, rule N`: this is the first rule that the volume breaks; `unixvol check` says what breaks it
     `unixvol: 2 NoEntry`, `unixvol: 20 NotDirectory`: the parent of PATH doesn't exist, or isn't a directory
     `unixvol: 17 Exists`: PATH already exists; with -p, it is a file, or `..` leads out of a missing directory
     `unixvol: 27 TooBig`: the parent directory has the maximum size
     `unixvol: 104 BadId`: UID or GID of --owner is above the edition's highest
     `unixvol: 28 NoSpace`, `unixvol: 103 NoInode`: there are too few free blocks, or there is no free i-node
     `unixvol: 31 TooManyLinks`: the parent directory has the maximum number of links
  2  the command line is wrong
  3  `unixvol: cannot read IMAGE`, `unixvol: cannot write IMAGE`
     `unixvol: cannot write -`: with --trace, standard output failed, after the volume was saved
  4  `unixvol: 12 NoMemory`";

const PARENTS: Parameter = Parameter {
    name: "parents",
    kind: WordKind::Flag,
    need: Need::Flag(Some('p')),
    help: "Make missing parent directories too, and accept an existing directory",
};

/// The words that `mkdir` takes.
pub(crate) const WORDS: &[Parameter] = &[
    EDITION, IMAGE, AT, DIRECTORY, CALL_NOW, PARENTS, OWNER, TRACE,
];

/// Reads the words of `mkdir`.
pub(crate) fn read<'a, G: Given<'a>>(
    _alloc: Global,
    given: &G,
    clock: Option<u32>,
) -> Result<Invocation<'a>, WordFault<'a>>
    ensures read { IfOk result (AsksFor clock verbs.Mkdir (G.words given.now)) }
    ensures refused { IfErr result (TellsOf (IsOneWrong clock (G.words given.now) (arguments_of verbs.Mkdir))) }
{
    let volume = volume_in(given)?;
    let path = path_in(given, "PATH")?;
    let now = moment_in(given, clock)?;
    let owner = owner_in(given)?;
    let trace = flag_in(given, "trace");
    let change = if flag_in(given, "parents") {
        Change::MkdirAll { path, owner, now }
    } else {
        Change::Mkdir { path, owner, now }
    };
    Ok(Invocation::Change {
        volume,
        change,
        trace,
    })
}
