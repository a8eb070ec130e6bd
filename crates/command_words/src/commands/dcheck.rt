//! The command `dcheck`.
ghost use Rattle.std.specs.Prelude.{IfErr, IfOk};
ghost use Rattle.command_words.specs.Invocations.{AsksFor, IsOneWrong, TellsOf};
ghost use Rattle.command_words.specs.Verbs.{arguments_of};
ghost use Rattle.command_words.specs.declared.verbs.Verb.TheVariants as verbs;

use crate::checkers::read_checker;
use crate::fault::WordFault;
use crate::given::Given;
use crate::invocation::Invocation;
use crate::parameters::{AT, EDITION, IMAGE, JSON, Parameter, WORKERS};
use std::alloc::Global;
use vol_check::Checker;

pub(crate) const NAME: &str = "dcheck";

pub(crate) const ABOUT: &str =
    "Compares each i-node's link count with its directory entries, in any image.";

pub(crate) const MORE: &str = "\
Example:
  unixvol dcheck 7 disk.img 4

Each i-number that is wrong has a line, in ascending order. If none is wrong, nothing is printed. The volume need
not be sound, and nothing is changed.

  INO ENTRIES LINKS    ENTRIES directory entries, including `.` and `..`, name the i-number, but its link count is
                       LINKS (0 if the i-node is free); or both are 0 and the i-node isn't free

With --json the output is one object, as that of icheck, with {\"entry_count\":1,\"ino\":7,\"line\":\"links\",\"links\":2}
and the like.

Status:
  0  nothing is wrong
  1  something is wrong: there is a line. It may be `rule 1` (the image is shorter than its super-block says) or
     `rule 2` (the sizes in the super-block contradict one another)
  2  the command line is wrong
  3  `unixvol: cannot read IMAGE`, or `unixvol: cannot write -`: standard output failed
  4  `unixvol: 12 NoMemory`";

/// The words that `dcheck` takes.
pub(crate) const WORDS: &[Parameter] = &[EDITION, IMAGE, AT, WORKERS, JSON];

/// Reads the words of `dcheck`.
pub(crate) fn read<'a, G: Given<'a>>(
    _alloc: Global,
    given: &G,
    _clock: Option<u32>,
) -> Result<Invocation<'a>, WordFault<'a>>
    ensures read { IfOk result (AsksFor _clock verbs.Dcheck (G.words given.now)) }
    ensures refused { IfErr result (TellsOf (IsOneWrong _clock (G.words given.now) (arguments_of verbs.Dcheck))) }
{
    read_checker(given, Checker::Entries)
}
