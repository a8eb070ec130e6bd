//! The command `df`.
ghost use Rattle.std.specs.Prelude.{IfErr, IfOk};
ghost use Rattle.command_words.specs.Invocations.{AsksFor, IsOneWrong, TellsOf};
ghost use Rattle.command_words.specs.Verbs.{arguments_of};
ghost use Rattle.command_words.specs.declared.verbs.Verb.TheVariants as verbs;

use crate::fault::WordFault;
use crate::given::Given;
use crate::invocation::Invocation;
use crate::parameters::{AT, EDITION, IMAGE, JSON, Parameter};
use crate::read_words::{form_in, volume_in};
use command_terms::Look;
use std::alloc::Global;

pub(crate) const NAME: &str = "df";

pub(crate) const ABOUT: &str = "Shows how much of a volume is used, and how much is free.";

pub(crate) const MORE: &str = "\
Example:
  unixvol df 7 disk.img

All blocks of the volume, its data blocks and its i-nodes each have a line: how many there are, how many of them
are used, and how many are free. A block is free if the free list has it. If the list has a fault, a last line
reports it as `icheck` does, and blocks after the fault count as used. I-node 1 of the seventh edition, which is
kept for bad blocks, counts as used. With --json, the same is one JSON object.

The volume need not be sound. Only rules 1 and 2 are checked: the image's size, and the sizes in its super-block.

Status:
  0  the numbers were printed
  1  `unixvol: unsound, rule 1`: the image is shorter than its super-block says
     `unixvol: unsound, rule 2`: the sizes in the super-block contradict one another
  2  the command line is wrong
  3  `unixvol: cannot read IMAGE`, or `unixvol: cannot write -`: standard output failed
  4  `unixvol: 12 NoMemory`";

/// The words that `df` takes.
pub(crate) const WORDS: &[Parameter] = &[EDITION, IMAGE, AT, JSON];

/// Reads the words of `df`.
pub(crate) fn read<'a, G: Given<'a>>(
    _alloc: Global,
    given: &G,
    _clock: Option<u32>,
) -> Result<Invocation<'a>, WordFault<'a>>
    ensures read { IfOk result (AsksFor _clock verbs.Df (G.words given.now)) }
    ensures refused { IfErr result (TellsOf (IsOneWrong _clock (G.words given.now) (arguments_of verbs.Df))) }
{
    let volume = volume_in(given)?;
    let form = form_in(given);
    Ok(Invocation::Look {
        volume,
        look: Look::Df { form },
    })
}
