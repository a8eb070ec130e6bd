//! The command `touch`.
ghost use Rattle.std.specs.Prelude.{IfErr, IfOk};
ghost use Rattle.command_words.specs.Invocations.{AsksFor, IsOneWrong, TellsOf};
ghost use Rattle.command_words.specs.Verbs.{arguments_of};
ghost use Rattle.command_words.specs.declared.verbs.Verb.TheVariants as verbs;

use crate::fault::WordFault;
use crate::given::{Given, flag_in, moment_in, path_in};
use crate::invocation::Invocation;
use crate::parameters::{AT, CALL_NOW, EDITION, IMAGE, Need, Parameter, TRACE, WordKind};
use crate::read_words::volume_in;
use command_terms::Change;
use std::alloc::Global;

pub(crate) const NAME: &str = "touch";

pub(crate) const ABOUT: &str =
    "Sets the times of a file or directory of a volume, or makes an empty file.";

pub(crate) const MORE: &str = "\
Example:
  unixvol touch 7 disk.img /etc/motd 173750400

The times of access and modification become NOW. If PATH doesn't exist, an empty file is made, with permissions
0644, user 0 and group 0. Special files have times too.

IMAGE is written only if everything succeeded: a new file is written beside it and then takes its place.

A path starts at the root, with or without a leading slash. Repeated slashes count as one, trailing slashes are
ignored, and each name is cut to 14 bytes. The volume must be sound: its twelve rules are checked first.

Status:
  0  the times were set, or the file was made, and the volume was saved
  1  `unixvol: unsound, rule N`: this is the first rule that the volume breaks; `unixvol check` says what breaks it
     `unixvol: 2 NoEntry`, `unixvol: 20 NotDirectory`: the parent of PATH doesn't exist, or isn't a directory
     `unixvol: 27 TooBig`: the parent directory has the maximum size
     `unixvol: 28 NoSpace`, `unixvol: 103 NoInode`: there are too few free blocks, or there is no free i-node
  2  the command line is wrong
  3  `unixvol: cannot read IMAGE`, `unixvol: cannot write IMAGE`
     `unixvol: cannot write -`: with --trace, standard output failed, after the volume was saved
  4  `unixvol: 12 NoMemory`";

const PATH: Parameter = Parameter {
    name: "PATH",
    kind: WordKind::Path,
    need: Need::Once,
    help: "The path of the file or directory in the volume, or of a file to make",
};

/// The words that `touch` takes.
pub(crate) const WORDS: &[Parameter] = &[EDITION, IMAGE, AT, PATH, CALL_NOW, TRACE];

/// Reads the words of `touch`.
pub(crate) fn read<'a, G: Given<'a>>(
    _alloc: Global,
    given: &G,
    clock: Option<u32>,
) -> Result<Invocation<'a>, WordFault<'a>>
    ensures read { IfOk result (AsksFor clock verbs.Touch (G.words given.now)) }
    ensures refused { IfErr result (TellsOf (IsOneWrong clock (G.words given.now) (arguments_of verbs.Touch))) }
{
    let volume = volume_in(given)?;
    let path = path_in(given, "PATH")?;
    let now = moment_in(given, clock)?;
    Ok(Invocation::Change {
        volume,
        change: Change::Touch { path, now },
        trace: flag_in(given, "trace"),
    })
}
