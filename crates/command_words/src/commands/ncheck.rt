//! The command `ncheck`.
ghost use Rattle.std.specs.Prelude.{IfErr, IfOk};
ghost use Rattle.command_words.specs.Invocations.{AsksFor, IsOneWrong, TellsOf};
ghost use Rattle.command_words.specs.Verbs.{arguments_of};
ghost use Rattle.command_words.specs.declared.verbs.Verb.TheVariants as verbs;

use crate::checkers::read_checker;
use crate::fault::WordFault;
use crate::given::Given;
use crate::invocation::Invocation;
use crate::parameters::{AT, EDITION, IMAGE, JSON, Parameter, WORKERS};
use std::alloc::Global;
use vol_check::Checker;

pub(crate) const NAME: &str = "ncheck";

pub(crate) const ABOUT: &str = "Prints the paths of all files by i-number, in any image.";

pub(crate) const MORE: &str = "\
Example:
  unixvol ncheck 7 disk.img 4

Each directory entry except `.` and `..` has a line, in ascending order of i-numbers, then of paths. The volume
need not be sound, and nothing is changed.

  INO PATH       the entry's i-number, and its path from the root, escaped on a terminal
  INO ...PATH    the entry's directory can't be reached from the root: its path begins where the way up ends, at a
                 directory that no entry names, or that was met before

With --json the output is one object, as that of icheck, with {\"ino\":7,\"line\":\"name\",\"path\":\"/etc\"} and the like.
Paths are escaped.

Status:
  0  each path begins at the root
  1  some paths don't; or the only line is `rule 1` (the image is shorter than its super-block says) or `rule 2`
     (the sizes in the super-block contradict one another)
  2  the command line is wrong
  3  `unixvol: cannot read IMAGE`, or `unixvol: cannot write -`: standard output failed
  4  `unixvol: 12 NoMemory`";

/// The words that `ncheck` takes.
pub(crate) const WORDS: &[Parameter] = &[EDITION, IMAGE, AT, WORKERS, JSON];

/// Reads the words of `ncheck`.
pub(crate) fn read<'a, G: Given<'a>>(
    _alloc: Global,
    given: &G,
    _clock: Option<u32>,
) -> Result<Invocation<'a>, WordFault<'a>>
    ensures read { IfOk result (AsksFor _clock verbs.Ncheck (G.words given.now)) }
    ensures refused { IfErr result (TellsOf (IsOneWrong _clock (G.words given.now) (arguments_of verbs.Ncheck))) }
{
    read_checker(given, Checker::Names)
}
