//! The command `mv`.
ghost use Rattle.std.specs.Prelude.{IfErr, IfOk};
ghost use Rattle.command_words.specs.Invocations.{AsksFor, IsOneWrong, TellsOf};
ghost use Rattle.command_words.specs.Verbs.{arguments_of};
ghost use Rattle.command_words.specs.declared.verbs.Verb.TheVariants as verbs;

use crate::fault::WordFault;
use crate::given::{Given, flag_in, moment_in, path_in};
use crate::invocation::Invocation;
use crate::parameters::{AT, CALL_NOW, EDITION, FROM, IMAGE, Parameter, TO, TRACE};
use crate::read_words::volume_in;
use command_terms::Change;
use std::alloc::Global;

pub(crate) const NAME: &str = "mv";

pub(crate) const ABOUT: &str = "Renames a file of a volume, or moves it to another directory.";

pub(crate) const MORE: &str = "\
Example:
  unixvol mv 7 disk.img /etc/motd /etc/motd.old

The file gets the new name and loses the old one; it keeps its i-number. If TO is a directory, the file moves into
it under its last name. A file that already has the new name is never replaced. Directories can't be moved: on
these systems only user 0 could link a directory, and no command here does.

IMAGE is written only if everything succeeded: a new file is written beside it and then takes its place.

A path starts at the root, with or without a leading slash. Repeated slashes count as one, trailing slashes are
ignored, and each name is cut to 14 bytes. The volume must be sound: its twelve rules are checked first.

Status:
  0  the file has its new name, and the volume was saved
  1  `unixvol: unsound, rule N`: this is the first rule that the volume breaks; `unixvol check` says what breaks it
     `unixvol: 2 NoEntry`: FROM doesn't exist, or the parent of TO doesn't
     `unixvol: 17 Exists`: the new name already exists, even as a name of the same file
     `unixvol: 20 NotDirectory`: FROM or TO leads through something that isn't a directory
     `unixvol: 21 IsDirectory`: FROM is a directory
     `unixvol: 27 TooBig`, `unixvol: 28 NoSpace`: the directory of the new name can't grow
     `unixvol: 31 TooManyLinks`: the file has the maximum number of links; the new name is made before the old one
     is removed
  2  the command line is wrong
  3  `unixvol: cannot read IMAGE`, `unixvol: cannot write IMAGE`
     `unixvol: cannot write -`: with --trace, standard output failed, after the volume was saved
  4  `unixvol: 12 NoMemory`";

/// The words that `mv` takes.
pub(crate) const WORDS: &[Parameter] = &[EDITION, IMAGE, AT, FROM, TO, CALL_NOW, TRACE];

/// Reads the words of `mv`.
pub(crate) fn read<'a, G: Given<'a>>(
    _alloc: Global,
    given: &G,
    clock: Option<u32>,
) -> Result<Invocation<'a>, WordFault<'a>>
    ensures read { IfOk result (AsksFor clock verbs.Mv (G.words given.now)) }
    ensures refused { IfErr result (TellsOf (IsOneWrong clock (G.words given.now) (arguments_of verbs.Mv))) }
{
    let volume = volume_in(given)?;
    let from = path_in(given, "FROM")?;
    let to = path_in(given, "TO")?;
    let now = moment_in(given, clock)?;
    Ok(Invocation::Change {
        volume,
        change: Change::Mv { from, to, now },
        trace: flag_in(given, "trace"),
    })
}
