//! The command `chown`.
ghost use Rattle.std.specs.Prelude.{IfErr, IfOk};
ghost use Rattle.command_words.specs.Invocations.{AsksFor, IsOneWrong, TellsOf};
ghost use Rattle.command_words.specs.Verbs.{arguments_of};
ghost use Rattle.command_words.specs.declared.verbs.Verb.TheVariants as verbs;

use crate::fault::WordFault;
use crate::given::{Given, flag_in, moment_in, path_in, word_in};
use crate::invocation::Invocation;
use crate::parameters::{AT, CALL_NOW, EDITION, IMAGE, Need, OWNED, Parameter, TRACE, WordKind};
use crate::read_words::volume_in;
use command_terms::Change;
use std::alloc::Global;

pub(crate) const NAME: &str = "chown";

pub(crate) const ABOUT: &str = "Changes the user and group of a file or directory of a volume.";

pub(crate) const MORE: &str = "\
Example:
  unixvol chown 7 disk.img /usr/ken 3 1 173750400

The permissions stay, including set-user-id and set-group-id. Special files have owners too. User and group
numbers go up to 255 in the sixth edition, and up to 32767 in the seventh.

IMAGE is written only if everything succeeded: a new file is written beside it and then takes its place.

A path starts at the root, with or without a leading slash. Repeated slashes count as one, trailing slashes are
ignored, and each name is cut to 14 bytes. The volume must be sound: its twelve rules are checked first.

Status:
  0  the user and the group were set, and the volume was saved
  1  `unixvol: unsound, rule N`: this is the first rule that the volume breaks; `unixvol check` says what breaks it
     `unixvol: 104 BadId`: UID or GID is above the edition's highest
     `unixvol: 2 NoEntry`: there is no such file or directory
     `unixvol: 20 NotDirectory`: PATH leads through something that isn't a directory
  2  the command line is wrong
  3  `unixvol: cannot read IMAGE`, `unixvol: cannot write IMAGE`
     `unixvol: cannot write -`: with --trace, standard output failed, after the volume was saved
  4  `unixvol: 12 NoMemory`";

const UID: Parameter = Parameter {
    name: "UID",
    kind: WordKind::Word,
    need: Need::Once,
    help: "The new user's number",
};

const GID: Parameter = Parameter {
    name: "GID",
    kind: WordKind::Word,
    need: Need::Once,
    help: "The new group's number",
};

/// The words that `chown` takes.
pub(crate) const WORDS: &[Parameter] = &[EDITION, IMAGE, AT, OWNED, UID, GID, CALL_NOW, TRACE];

/// Reads the words of `chown`.
pub(crate) fn read<'a, G: Given<'a>>(
    _alloc: Global,
    given: &G,
    clock: Option<u32>,
) -> Result<Invocation<'a>, WordFault<'a>>
    ensures read { IfOk result (AsksFor clock verbs.Chown (G.words given.now)) }
    ensures refused { IfErr result (TellsOf (IsOneWrong clock (G.words given.now) (arguments_of verbs.Chown))) }
{
    let volume = volume_in(given)?;
    let path = path_in(given, "PATH")?;
    let uid = word_in(given, "UID")?;
    let gid = word_in(given, "GID")?;
    let now = moment_in(given, clock)?;
    Ok(Invocation::Change {
        volume,
        change: Change::Chown {
            path,
            uid,
            gid,
            now,
        },
        trace: flag_in(given, "trace"),
    })
}
