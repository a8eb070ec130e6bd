//! The command `super`.
ghost use Rattle.std.specs.Prelude.{IfErr, IfOk};
ghost use Rattle.command_words.specs.Invocations.{AsksFor, IsOneWrong, TellsOf};
ghost use Rattle.command_words.specs.Verbs.{arguments_of};
ghost use Rattle.command_words.specs.declared.verbs.Verb.TheVariants as verbs;

use crate::fault::WordFault;
use crate::given::Given;
use crate::invocation::Invocation;
use crate::parameters::{AT, EDITION, IMAGE, JSON, Parameter};
use crate::read_words::{form_in, volume_in};
use command_terms::Look;
use std::alloc::Global;

pub(crate) const NAME: &str = "super";

pub(crate) const ABOUT: &str = "Shows the super-block, and how many blocks and i-nodes are free.";

pub(crate) const MORE: &str = "\
Example:
  unixvol super 7 disk.img

Each field is printed under its name in the manual: the sizes, the free array, the cache of free i-numbers, the
flags and the time. Then come the numbers of data blocks and i-nodes, how many of them are free, and the fault at
which the free list ends, if it has one.

The numbers of an array that are in use are printed in order, ten to a line, after the index of the first. free[0]
is the link to the next block of the chain; the last number is the next block to be taken.

The volume need not be sound. Only rules 1 and 2 are checked: the image's size, and the sizes in its super-block.

Status:
  0  the super-block was shown
  1  `unixvol: unsound, rule 1`: the image is shorter than its super-block says
     `unixvol: unsound, rule 2`: the sizes in the super-block contradict one another
  2  the command line is wrong
  3  `unixvol: cannot read IMAGE`, or `unixvol: cannot write -`: standard output failed
  4  `unixvol: 12 NoMemory`";

/// The words that `super` takes.
pub(crate) const WORDS: &[Parameter] = &[EDITION, IMAGE, AT, JSON];

/// Reads the words of `super`.
pub(crate) fn read<'a, G: Given<'a>>(
    _alloc: Global,
    given: &G,
    _clock: Option<u32>,
) -> Result<Invocation<'a>, WordFault<'a>>
    ensures read { IfOk result (AsksFor _clock verbs.Super (G.words given.now)) }
    ensures refused { IfErr result (TellsOf (IsOneWrong _clock (G.words given.now) (arguments_of verbs.Super))) }
{
    let volume = volume_in(given)?;
    let form = form_in(given);
    Ok(Invocation::Look {
        volume,
        look: Look::Super { form },
    })
}
