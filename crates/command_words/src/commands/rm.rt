//! The command `rm`.
ghost use Rattle.std.specs.Prelude.{IfErr, IfOk};
ghost use Rattle.command_words.specs.Invocations.{AsksFor, IsOneWrong, TellsOf};
ghost use Rattle.command_words.specs.Verbs.{arguments_of};
ghost use Rattle.command_words.specs.declared.verbs.Verb.TheVariants as verbs;

use crate::fault::WordFault;
use crate::given::{Given, flag_in, moment_in, path_in};
use crate::invocation::Invocation;
use crate::parameters::{AT, CALL_NOW, EDITION, IMAGE, Need, OWNED, Parameter, TRACE, WordKind};
use crate::read_words::volume_in;
use command_terms::Change;
use std::alloc::Global;

pub(crate) const NAME: &str = "rm";

pub(crate) const ABOUT: &str = "Removes a name of a file of a volume, or with -r a whole tree.";

pub(crate) const MORE: &str = "\
Examples:
  unixvol rm 7 disk.img /etc/motd 173750400
  unixvol rm -r 7 disk.img /usr/games
  unixvol rm 7 disk.img /etc/motd --trace       what each call changed, field by field

A file is freed when its last name is removed. Special files can be removed too. Directories can't, except with
-r: then a directory is removed with everything below it, or nothing is.

IMAGE is written only if everything succeeded: a new file is written beside it and then takes its place.

A path starts at the root, with or without a leading slash. Repeated slashes count as one, trailing slashes are
ignored, and each name is cut to 14 bytes. The volume must be sound: its twelve rules are checked first.

Status:
  0  the name was removed, and the volume was saved
  1  `unixvol: unsound, rule N`: this is the first rule that the volume breaks; `unixvol check` says what breaks it
     `unixvol: 2 NoEntry`: there is no such file or directory; with -r, also if PATH ends in `..`, or leads through
     what is to be removed, as /d/b/../../d leads through /d
     `unixvol: 20 NotDirectory`: PATH leads through something that isn't a directory
     `unixvol: 21 IsDirectory`: PATH is a directory
     `unixvol: 22 Invalid`: with -r, PATH is the root, or ends in `.`
  2  the command line is wrong
  3  `unixvol: cannot read IMAGE`, `unixvol: cannot write IMAGE`
     `unixvol: cannot write -`: with --trace, standard output failed, after the volume was saved
  4  `unixvol: 12 NoMemory`";

const RECURSIVE: Parameter = Parameter {
    name: "recursive",
    kind: WordKind::Flag,
    need: Need::Flag(Some('r')),
    help: "Remove a directory with everything below it",
};

/// The words that `rm` takes.
pub(crate) const WORDS: &[Parameter] = &[EDITION, IMAGE, AT, OWNED, CALL_NOW, RECURSIVE, TRACE];

/// Reads the words of `rm`.
pub(crate) fn read<'a, G: Given<'a>>(
    _alloc: Global,
    given: &G,
    clock: Option<u32>,
) -> Result<Invocation<'a>, WordFault<'a>>
    ensures read { IfOk result (AsksFor clock verbs.Rm (G.words given.now)) }
    ensures refused { IfErr result (TellsOf (IsOneWrong clock (G.words given.now) (arguments_of verbs.Rm))) }
{
    let volume = volume_in(given)?;
    let path = path_in(given, "PATH")?;
    let now = moment_in(given, clock)?;
    let trace = flag_in(given, "trace");
    let change = if flag_in(given, "recursive") {
        Change::RmAll { path, now }
    } else {
        Change::Rm { path, now }
    };
    Ok(Invocation::Change {
        volume,
        change,
        trace,
    })
}
