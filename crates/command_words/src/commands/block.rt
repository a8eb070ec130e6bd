//! The command `block`.
ghost use Rattle.std.specs.Prelude.{IfErr, IfOk};
ghost use Rattle.command_words.specs.Invocations.{AsksFor, AsksForNothing, TellsOf};
ghost use Rattle.command_words.specs.declared.verbs.Verb.TheVariants as verbs;

use crate::bad_words::{BAD, BAD_BLOCKS, CUT, LIKE, SIZES, bad_image_in, look_at};
use crate::fault::WordFault;
use crate::given::{Given, flag_in, long_in};
use crate::invocation::Invocation;
use crate::parameters::{AT, EDITION, IMAGE, JSON, Need, Parameter, WordKind};
use crate::read_words::{form_in, volume_in};
use command_terms::BadLook;
use std::alloc::Global;

pub(crate) const NAME: &str = "block";

pub(crate) const ABOUT: &str = "Shows what uses a block.";

pub(crate) const MORE: &str = "\
Examples:
  unixvol block 7 disk.img 57
  unixvol block --bad disk.map 7 disk.img 57

Each use of the block has a line: as the boot block, the super-block, or part of the i-list, with the i-nodes in it;
or, for a data block, the place in the free list that has its number, and each i-node that points to it, with the
logical block (for an indirect block, the first one below it) and the pointers that lead there. addr[11][3] is entry 3
of the block that address 11 of the i-node points to; both count from 0. An i-node that points to the block more than
once has one line, for the first place. A data block that nothing uses is `lost`, and a block past the last one is
`outside the volume`. The free list counts up to its first fault.

With --json, one object is printed on one line: \"block\", and \"uses\", an object for each line, whose \"use\" is \"boot\",
\"super-block\", \"i-list\" (with \"first_ino\" and \"last_ino\"), \"free\" (with \"listed_in\", the block that has its number, and
\"index\"), \"i-node\" (with \"ino\", \"level\" and \"logical\"), \"lost\" or \"outside\".

The volume need not be sound. Only rules 1 and 2 are checked: the image's size, and the sizes in its super-block.

With --cut, --bad, --bad-blocks, --sizes and --like, blocks of the image are lost, as `unixvol export --help` says of
them. A first line says `unreadable` if BLOCK is lost. Each use that is shown is one of the volume, whatever the lost
blocks held; a lost block may have further uses of BLOCK, or an earlier place of an i-node. If nothing that is left uses
it, a line says so, and that its use is unknown: it is not called lost. A line on standard error says how many blocks are
lost. With --json the object has \"unreadable\", true or false, and the one use of such a block is \"unknown\".

Status:
  0  the uses were shown
  1  `unixvol: unsound, rule 1`: the image is shorter than its super-block says
     `unixvol: unsound, rule 2`: the sizes in the super-block contradict one another
     if blocks are lost (--cut, --bad, --bad-blocks, --sizes, --like): BLOCK isn't, and a use of it was shown
  2  the command line is wrong; or no volume of the edition has the sizes of --sizes or --like
  3  `unixvol: cannot read IMAGE`, or `unixvol: cannot write -`: standard output failed; or MAPFILE can't be read
  4  `unixvol: 12 NoMemory`
  5  if blocks are lost: BLOCK is lost, or its use is unknown
  6  if blocks are lost: more than 1048576 blocks of the image are missing; or its super-block is lost, and neither
     --sizes nor --like is given";

const BLOCK: Parameter = Parameter {
    name: "BLOCK",
    kind: WordKind::Long,
    need: Need::Once,
    help: "The number of the block, from 0",
};

/// The words that `block` takes.
pub(crate) const WORDS: &[Parameter] = &[
    EDITION, IMAGE, AT, BLOCK, CUT, BAD, BAD_BLOCKS, SIZES, LIKE, JSON,
];

/// Reads the words of `block`.
pub(crate) fn read<'a, G: Given<'a>>(
    alloc: Global,
    given: &G,
    _clock: Option<u32>,
) -> Result<Invocation<'a>, WordFault<'a>>
    ensures read { IfOk result (AsksFor _clock verbs.Block (G.words given.now)) }
    ensures refused { IfErr result (TellsOf (AsksForNothing _clock verbs.Block (G.words given.now))) }
{
    let volume = volume_in(given)?;
    let block = long_in(given, "BLOCK")?;
    let cut = flag_in(given, "cut");
    let bad = bad_image_in(alloc, given, volume.edition, cut)?;
    let form = form_in(given);
    Ok(look_at(volume, bad, BadLook::Block { block, form }))
}
