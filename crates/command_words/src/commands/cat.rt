//! The command `cat`.
ghost use Rattle.std.specs.Prelude.{IfErr, IfOk};
ghost use Rattle.command_words.specs.Invocations.{AsksFor, AsksForNothing, TellsOf};
ghost use Rattle.command_words.specs.declared.verbs.Verb.TheVariants as verbs;

use crate::bad_words::{BAD, BAD_BLOCKS, CUT, DAMAGED, LIKE, SIZES, bad_image_in, look_at};
use crate::fault::WordFault;
use crate::given::{Given, flag_in, node_in};
use crate::invocation::Invocation;
use crate::parameters::{AT, EDITION, IMAGE, NODE, Parameter};
use crate::read_words::volume_in;
use command_terms::BadLook;
use std::alloc::Global;

pub(crate) const NAME: &str = "cat";

pub(crate) const ABOUT: &str =
    "Prints the bytes of a file or directory, given its i-number or path.";

pub(crate) const MORE: &str = "\
Examples:
  unixvol cat 6 disk.img 1
  unixvol cat 7 disk.img /etc/passwd
  unixvol cat 7 --bad disk.map disk.img 92

The i-node's bytes are printed to standard output; missing blocks read as zeros. The bytes of a directory are its
slots.

The volume need not be sound. Only rules 1 and 2 are checked: the image's size, and the sizes in its super-block.

With --cut, --bad, --bad-blocks, --sizes and --like, blocks of the image are lost, as `unixvol export --help` says of
them. The bytes are printed only if none of them is lost, unless --damaged is given. The lines on standard error say
how many blocks are lost, and what is lost of the i-node and, if it is named by a path, of the last directory on that
path that isn't whole.

Status:
  0  the bytes were printed
  1  `unixvol: unsound, rule 1`: the image is shorter than its super-block says; --cut reads what is there
     `unixvol: unsound, rule 2`: the sizes in the super-block contradict one another
     (a volume of the other edition usually breaks one of these two rules)
     `unixvol: 2 NoEntry`: there is no such i-node, it is free, or the path leads to none
     `unixvol: 20 NotDirectory`: the path leads through a file
     `unixvol: 102 NotRegular`: it is a special file, or its mode is not one of the edition's
     if blocks are lost (--cut, --bad, --bad-blocks, --sizes, --like): nothing is lost of the i-node or on the way to
     it, and the bytes were printed
  2  the command line is wrong; or no volume of the edition has the sizes of --sizes or --like
  3  `unixvol: cannot read IMAGE`, or `unixvol: cannot write -`: standard output failed; or MAPFILE can't be read
  4  `unixvol: 12 NoMemory`
  5  if blocks are lost: something is lost of the i-node, whose bytes were not printed without --damaged, or on the
     way to it; or there is no such i-node and something is lost on the way, as standard error says
  6  if blocks are lost: more than 1048576 blocks of the image are missing; or its super-block is lost, and neither
     --sizes nor --like is given";

/// The words that `cat` takes.
pub(crate) const WORDS: &[Parameter] = &[
    EDITION, IMAGE, AT, NODE, CUT, BAD, BAD_BLOCKS, SIZES, LIKE, DAMAGED,
];

/// Reads the words of `cat`.
pub(crate) fn read<'a, G: Given<'a>>(
    alloc: Global,
    given: &G,
    _clock: Option<u32>,
) -> Result<Invocation<'a>, WordFault<'a>>
    ensures read { IfOk result (AsksFor _clock verbs.Cat (G.words given.now)) }
    ensures refused { IfErr result (TellsOf (AsksForNothing _clock verbs.Cat (G.words given.now))) }
{
    let volume = volume_in(given)?;
    let node = node_in(given)?;
    let cut = flag_in(given, "cut");
    let bad = bad_image_in(alloc, given, volume.edition, cut)?;
    let damaged = flag_in(given, "damaged");
    Ok(look_at(volume, bad, BadLook::Body { node, damaged }))
}
