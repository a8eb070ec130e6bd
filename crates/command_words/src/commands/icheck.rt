//! The command `icheck`.
ghost use Rattle.std.specs.Prelude.{IfErr, IfOk};
ghost use Rattle.command_words.specs.Invocations.{AsksFor, IsOneWrong, TellsOf};
ghost use Rattle.command_words.specs.Verbs.{arguments_of};
ghost use Rattle.command_words.specs.declared.verbs.Verb.TheVariants as verbs;

use crate::checkers::read_checker;
use crate::fault::WordFault;
use crate::given::Given;
use crate::invocation::Invocation;
use crate::parameters::{AT, EDITION, IMAGE, JSON, Parameter, WORKERS};
use std::alloc::Global;
use vol_check::Checker;

pub(crate) const NAME: &str = "icheck";

pub(crate) const ABOUT: &str =
    "Finds blocks that are used twice, lost or out of range, in any image.";

pub(crate) const MORE: &str = "\
Example:
  unixvol icheck 7 disk.img 4

Each problem with a block has a line. Then come the numbers of i-nodes and blocks of each kind. The volume need
not be sound, and nothing is changed.

  bad INO COUNT LEAST      COUNT block numbers of this i-node are not those of data blocks; LEAST is the smallest
  dup BLOCK PLACES FREE    the block is in use PLACES times, and is free too if FREE is 1: more than one in all
  lost BLOCK               the block is not in use, and is not met in the free list
  free FAULT NUMBER        the free list ends at a fault: toomany (a count), outofzone (a number), or repeat (a
                           block that was met before)
  files N, directories N, special N, odd N      i-nodes of each kind; the mode of an odd one isn't the edition's
  used N, free N, missing N                     blocks that are in use, in the free list, and lost

With --json the output is one object: \"faulty\" is true if the status is 1, and \"lines\" has an object for each line,
with its kind and its numbers, as in {\"block\":7,\"is_free\":false,\"line\":\"dup\",\"places\":2}. The others are
{\"count\":1,\"ino\":7,\"least\":99,\"line\":\"bad\"}, {\"block\":7,\"line\":\"lost\"}, {\"count\":5,\"line\":\"total\",\"total\":\"files\"}
and {\"fault\":\"free repeat\",\"line\":\"free\",\"number\":9}.

Status:
  0  nothing is wrong
  1  something is wrong: there is a line before `files`, or there are odd i-nodes; or the only line is `rule 1`
     (the image is shorter than its super-block says) or `rule 2` (the sizes in the super-block contradict one
     another)
  2  the command line is wrong
  3  `unixvol: cannot read IMAGE`, or `unixvol: cannot write -`: standard output failed
  4  `unixvol: 12 NoMemory`";

/// The words that `icheck` takes.
pub(crate) const WORDS: &[Parameter] = &[EDITION, IMAGE, AT, WORKERS, JSON];

/// Reads the words of `icheck`.
pub(crate) fn read<'a, G: Given<'a>>(
    _alloc: Global,
    given: &G,
    _clock: Option<u32>,
) -> Result<Invocation<'a>, WordFault<'a>>
    ensures read { IfOk result (AsksFor _clock verbs.Icheck (G.words given.now)) }
    ensures refused { IfErr result (TellsOf (IsOneWrong _clock (G.words given.now) (arguments_of verbs.Icheck))) }
{
    read_checker(given, Checker::Blocks)
}
