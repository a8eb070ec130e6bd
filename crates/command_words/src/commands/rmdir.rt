//! The command `rmdir`.
ghost use Rattle.std.specs.Prelude.{IfErr, IfOk};
ghost use Rattle.command_words.specs.Invocations.{AsksFor, IsOneWrong, TellsOf};
ghost use Rattle.command_words.specs.Verbs.{arguments_of};
ghost use Rattle.command_words.specs.declared.verbs.Verb.TheVariants as verbs;

use crate::fault::WordFault;
use crate::given::{Given, flag_in, moment_in, path_in};
use crate::invocation::Invocation;
use crate::parameters::{AT, CALL_NOW, DIRECTORY, EDITION, IMAGE, Parameter, TRACE};
use crate::read_words::volume_in;
use command_terms::Change;
use std::alloc::Global;

pub(crate) const NAME: &str = "rmdir";

pub(crate) const ABOUT: &str = "Removes an empty directory of a volume.";

pub(crate) const MORE: &str = "\
Example:
  unixvol rmdir 7 disk.img /tmp/old 173750400

A directory is empty if it has no entries but `.` and `..`.

IMAGE is written only if everything succeeded: a new file is written beside it and then takes its place.

A path starts at the root, with or without a leading slash. Repeated slashes count as one, trailing slashes are
ignored, and each name is cut to 14 bytes. The volume must be sound: its twelve rules are checked first.

Status:
  0  the directory was removed, and the volume was saved
  1  `unixvol: unsound, rule N`: this is the first rule that the volume breaks; `unixvol check` says what breaks it
     `unixvol: 2 NoEntry`: there is no such file or directory
     `unixvol: 20 NotDirectory`: PATH isn't a directory, or leads through something that isn't one
     `unixvol: 22 Invalid`: PATH is the root, or ends in `.` or `..`
     `unixvol: 101 NotEmpty`: the directory has other entries
  2  the command line is wrong
  3  `unixvol: cannot read IMAGE`, `unixvol: cannot write IMAGE`
     `unixvol: cannot write -`: with --trace, standard output failed, after the volume was saved
  4  `unixvol: 12 NoMemory`";

/// The words that `rmdir` takes.
pub(crate) const WORDS: &[Parameter] = &[EDITION, IMAGE, AT, DIRECTORY, CALL_NOW, TRACE];

/// Reads the words of `rmdir`.
pub(crate) fn read<'a, G: Given<'a>>(
    _alloc: Global,
    given: &G,
    clock: Option<u32>,
) -> Result<Invocation<'a>, WordFault<'a>>
    ensures read { IfOk result (AsksFor clock verbs.Rmdir (G.words given.now)) }
    ensures refused { IfErr result (TellsOf (IsOneWrong clock (G.words given.now) (arguments_of verbs.Rmdir))) }
{
    let volume = volume_in(given)?;
    let path = path_in(given, "PATH")?;
    let now = moment_in(given, clock)?;
    Ok(Invocation::Change {
        volume,
        change: Change::Rmdir { path, now },
        trace: flag_in(given, "trace"),
    })
}
