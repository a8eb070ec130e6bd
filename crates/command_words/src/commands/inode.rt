//! The command `inode`.
ghost use Rattle.std.specs.Prelude.{IfErr, IfOk};
ghost use Rattle.command_words.specs.Invocations.{AsksFor, IsOneWrong, TellsOf};
ghost use Rattle.command_words.specs.Verbs.{arguments_of};
ghost use Rattle.command_words.specs.declared.verbs.Verb.TheVariants as verbs;

use crate::fault::WordFault;
use crate::given::{Given, node_in};
use crate::invocation::Invocation;
use crate::parameters::{AT, EDITION, IMAGE, JSON, NODE, Parameter};
use crate::read_words::{form_in, volume_in};
use command_terms::Look;
use std::alloc::Global;

pub(crate) const NAME: &str = "inode";

pub(crate) const ABOUT: &str = "Shows an i-node: its fields, and what its blocks hold.";

pub(crate) const MORE: &str = "\
Examples:
  unixvol inode 7 disk.img 2
  unixvol inode 7 disk.img /etc/passwd

Each field is printed under its name in the manual, the mode and its permissions in octal. Then each range of
blocks has a line, with the logical blocks that it holds, or, for an indirect block, the first logical block that
it leads to, and through how many levels. A number that isn't a data block's is marked. Of a special file the major
and the minor number of its device are printed last.

The volume need not be sound. Only rules 1 and 2 are checked: the image's size, and the sizes in its super-block.

Status:
  0  the i-node was shown
  1  `unixvol: unsound, rule 1`: the image is shorter than its super-block says
     `unixvol: unsound, rule 2`: the sizes in the super-block contradict one another
     `unixvol: 2 NoEntry`: there is no i-node with this number, or no file or directory with this path
     `unixvol: 20 NotDirectory`: the path leads through something that isn't a directory
  2  the command line is wrong
  3  `unixvol: cannot read IMAGE`, or `unixvol: cannot write -`: standard output failed
  4  `unixvol: 12 NoMemory`";

/// The words that `inode` takes.
pub(crate) const WORDS: &[Parameter] = &[EDITION, IMAGE, AT, NODE, JSON];

/// Reads the words of `inode`.
pub(crate) fn read<'a, G: Given<'a>>(
    _alloc: Global,
    given: &G,
    _clock: Option<u32>,
) -> Result<Invocation<'a>, WordFault<'a>>
    ensures read { IfOk result (AsksFor _clock verbs.Inode (G.words given.now)) }
    ensures refused { IfErr result (TellsOf (IsOneWrong _clock (G.words given.now) (arguments_of verbs.Inode))) }
{
    let volume = volume_in(given)?;
    let node = node_in(given)?;
    let form = form_in(given);
    Ok(Invocation::Look {
        volume,
        look: Look::Inode { node, form },
    })
}
