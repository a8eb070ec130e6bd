//! The command `free`.
ghost use Rattle.std.specs.Prelude.{IfErr, IfOk};
ghost use Rattle.command_words.specs.Invocations.{AsksFor, IsOneWrong, TellsOf};
ghost use Rattle.command_words.specs.Verbs.{arguments_of};
ghost use Rattle.command_words.specs.declared.verbs.Verb.TheVariants as verbs;

use crate::fault::WordFault;
use crate::given::Given;
use crate::invocation::Invocation;
use crate::parameters::{AT, EDITION, IMAGE, JSON, Parameter};
use crate::read_words::{form_in, volume_in};
use command_terms::Look;
use std::alloc::Global;

pub(crate) const NAME: &str = "free";

pub(crate) const ABOUT: &str = "Shows the free list, link by link.";

pub(crate) const MORE: &str = "\
Example:
  unixvol free 7 disk.img

The free list is a chain. The super-block has a count, nfree, and an array of block numbers; free[0] is the block
that holds the next count and array. Each link of the chain is shown: where it is, its count, and the numbers in use
in its array, ten to a line, after the index of the first. The system takes the last number first, so the chain goes
on from free[0]. It is shown up to its first fault, which has a line, as with `unixvol super`. The last line counts
the links and the free blocks. With --json, the same is one JSON object.

The volume need not be sound. Only rules 1 and 2 are checked: the image's size, and the sizes in its super-block.

Status:
  0  the free list was shown
  1  `unixvol: unsound, rule 1`: the image is shorter than its super-block says
     `unixvol: unsound, rule 2`: the sizes in the super-block contradict one another
  2  the command line is wrong
  3  `unixvol: cannot read IMAGE`, or `unixvol: cannot write -`: standard output failed
  4  `unixvol: 12 NoMemory`";

/// The words that `free` takes.
pub(crate) const WORDS: &[Parameter] = &[EDITION, IMAGE, AT, JSON];

/// Reads the words of `free`.
pub(crate) fn read<'a, G: Given<'a>>(
    _alloc: Global,
    given: &G,
    _clock: Option<u32>,
) -> Result<Invocation<'a>, WordFault<'a>>
    ensures read { IfOk result (AsksFor _clock verbs.Free (G.words given.now)) }
    ensures refused { IfErr result (TellsOf (IsOneWrong _clock (G.words given.now) (arguments_of verbs.Free))) }
{
    let volume = volume_in(given)?;
    let form = form_in(given);
    Ok(Invocation::Look {
        volume,
        look: Look::Free { form },
    })
}
