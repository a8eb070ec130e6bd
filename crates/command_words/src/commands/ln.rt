//! The command `ln`.
ghost use Rattle.std.specs.Prelude.{IfErr, IfOk};
ghost use Rattle.command_words.specs.Invocations.{AsksFor, IsOneWrong, TellsOf};
ghost use Rattle.command_words.specs.Verbs.{arguments_of};
ghost use Rattle.command_words.specs.declared.verbs.Verb.TheVariants as verbs;

use crate::fault::WordFault;
use crate::given::{Given, flag_in, moment_in, path_in};
use crate::invocation::Invocation;
use crate::parameters::{AT, CALL_NOW, EDITION, FROM, IMAGE, Parameter, TO, TRACE};
use crate::read_words::volume_in;
use command_terms::Change;
use std::alloc::Global;

pub(crate) const NAME: &str = "ln";

pub(crate) const ABOUT: &str = "Gives a file of a volume one more name.";

pub(crate) const MORE: &str = "\
Example:
  unixvol ln 7 disk.img /bin/ed /bin/e 173750400

Both names then lead to the same file. Special files can have more names too; directories can't.

IMAGE is written only if everything succeeded: a new file is written beside it and then takes its place.

A path starts at the root, with or without a leading slash. Repeated slashes count as one, trailing slashes are
ignored, and each name is cut to 14 bytes. The volume must be sound: its twelve rules are checked first.

Status:
  0  the name was made, and the volume was saved
  1  `unixvol: unsound, rule N`: this is the first rule that the volume breaks; `unixvol check` says what breaks it
     `unixvol: 2 NoEntry`: FROM doesn't exist, or the parent of TO doesn't
     `unixvol: 17 Exists`: TO already exists
     `unixvol: 20 NotDirectory`: FROM or TO leads through something that isn't a directory
     `unixvol: 21 IsDirectory`: FROM is a directory
     `unixvol: 27 TooBig`: the parent directory of TO has the maximum size
     `unixvol: 28 NoSpace`: there are too few free blocks for the parent directory of TO to grow
     `unixvol: 31 TooManyLinks`: the file has the maximum number of links
  2  the command line is wrong
  3  `unixvol: cannot read IMAGE`, `unixvol: cannot write IMAGE`
     `unixvol: cannot write -`: with --trace, standard output failed, after the volume was saved
  4  `unixvol: 12 NoMemory`";

/// The words that `ln` takes.
pub(crate) const WORDS: &[Parameter] = &[EDITION, IMAGE, AT, FROM, TO, CALL_NOW, TRACE];

/// Reads the words of `ln`.
pub(crate) fn read<'a, G: Given<'a>>(
    _alloc: Global,
    given: &G,
    clock: Option<u32>,
) -> Result<Invocation<'a>, WordFault<'a>>
    ensures read { IfOk result (AsksFor clock verbs.Ln (G.words given.now)) }
    ensures refused { IfErr result (TellsOf (IsOneWrong clock (G.words given.now) (arguments_of verbs.Ln))) }
{
    let volume = volume_in(given)?;
    let from = path_in(given, "FROM")?;
    let to = path_in(given, "TO")?;
    let now = moment_in(given, clock)?;
    Ok(Invocation::Change {
        volume,
        change: Change::Ln { from, to, now },
        trace: flag_in(given, "trace"),
    })
}
