//! The command `resize`.
ghost use Rattle.std.specs.Prelude.{IfErr, IfOk};
ghost use Rattle.command_words.specs.Invocations.{AsksFor, IsOneWrong, TellsOf};
ghost use Rattle.command_words.specs.Verbs.{arguments_of};
ghost use Rattle.command_words.specs.declared.verbs.Verb.TheVariants as verbs;

use crate::fault::WordFault;
use crate::given::{Given, flag_in, long_in};
use crate::invocation::Invocation;
use crate::parameters::{AT, EDITION, IMAGE, Need, Parameter, WordKind};
use crate::read_words::volume_in;
use std::alloc::Global;

pub(crate) const NAME: &str = "resize";

pub(crate) const ABOUT: &str = "Gives a volume more or fewer blocks.";

pub(crate) const MORE: &str = "\
Examples:
  unixvol resize 7 disk.img 20480
  unixvol resize 7 disk.img 9000 -n
  unixvol resize 7 pack.img 12000 --at 18392

Files and directories keep their i-numbers and their blocks, and so they stay as they are; so do the boot block, the
i-list and its size, and the time of the volume. BLOCKS must reach past the last block that a file uses. All other
data blocks are free afterwards: the free list is rebuilt.

IMAGE is written only if everything succeeded: a new file is written beside it and then takes its place. If the volume
begins at block 0 and the file ends with it, the file ends with the resized volume too, longer or shorter than before.
Otherwise the file gets no shorter, and blocks that a smaller volume gave up keep what they have. A larger one takes
what follows it, whatever that is, but no block of another volume, which is searched for as `unixvol identify` does;
if it ends behind the file's end, the file gets longer. With --at above 0, and on a device, it has to end where the
file ends, or before.

With -n nothing is written: the status is what it would be, unless writing failed.

The volume must be sound: its twelve rules are checked first.

Status:
  0  the volume has BLOCKS blocks, and was saved; with -n, it can have them
  1  `unixvol: bounds`: no volume of the edition has so many blocks: 65535 in the sixth, 16777216 in the seventh
     `unixvol: unsound, rule N`: this is the first rule that the volume breaks; `unixvol check` says what breaks it
     `unixvol: it has that many blocks`
     `unixvol: it needs N blocks`: block N - 1 is the last one that a file uses; or, without any, a volume with this
     i-list has at least N
  2  the command line is wrong
  3  `unixvol: cannot read IMAGE`
     `unixvol: cannot write IMAGE`: also if blocks of another volume would be needed, or IMAGE ends before
  4  `unixvol: 12 NoMemory`";

const BLOCKS: Parameter = Parameter {
    name: "BLOCKS",
    kind: WordKind::Long,
    need: Need::Once,
    help: "The size that the volume gets, in blocks of 512 bytes",
};

const DRY_RUN: Parameter = Parameter {
    name: "dry-run",
    kind: WordKind::Flag,
    need: Need::Flag(Some('n')),
    help: "Write nothing, and check if it could be done",
};

/// The words that `resize` takes.
pub(crate) const WORDS: &[Parameter] = &[EDITION, IMAGE, AT, BLOCKS, DRY_RUN];

/// Reads the words of `resize`.
pub(crate) fn read<'a, G: Given<'a>>(
    _alloc: Global,
    given: &G,
    _clock: Option<u32>,
) -> Result<Invocation<'a>, WordFault<'a>>
    ensures read { IfOk result (AsksFor _clock verbs.Resize (G.words given.now)) }
    ensures refused { IfErr result (TellsOf (IsOneWrong _clock (G.words given.now) (arguments_of verbs.Resize))) }
{
    let volume = volume_in(given)?;
    let blocks = long_in(given, "BLOCKS")?;
    let is_trial = flag_in(given, "dry-run");
    Ok(Invocation::Resize {
        volume,
        blocks,
        is_trial,
    })
}
