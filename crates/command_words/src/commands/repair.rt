//! The command `repair`.
ghost use Rattle.std.specs.Prelude.{◌≡◌, IfErr, IfOk};
ghost use Rattle.command_words.specs.Invocations.{AsksFor, AsksForNothing, IsNewCopyGiven, IsNewCopyMissing, IsOneWrong, IsRepairingGiven, TellsOf, repair_at};
ghost use Rattle.command_words.specs.Verbs.{arguments_of};
ghost use Rattle.command_words.specs.declared.verbs.Verb.TheVariants as verbs;

use crate::bad_words::{BAD, BAD_BLOCKS, CUT, LIKE, SIZES, bad_image_in};
use crate::fault::WordFault;
use crate::given::{Given, flag_in, long_or, missing, moment_in};
use crate::invocation::{BadImage, Invocation, MadeFile, VolumeFile};
use crate::parameters::{AT, EDITION, IMAGE, Need, Parameter, UNREPLACED, ValueName, WordKind};
use crate::read_words::volume_in;
use command_terms::Repairing;
use std::alloc::Global;

pub(crate) const NAME: &str = "repair";

pub(crate) const ABOUT: &str =
    "Makes a sound copy of a damaged volume, and prints what it changes.";

pub(crate) const MORE: &str = "\
Examples:
  unixvol repair 7 disk.img -n
  unixvol repair 7 disk.img repaired.img
  unixvol repair 7 disk.img repaired.img 173750400 --blocks 5000
  unixvol repair --cut 7 cut-off.img repaired.img
  unixvol repair --bad rescue.map 7 rescued.img repaired.img

IMAGE is only read. NEW is made or replaced as `unixvol migrate` does with its new volume, if the copy is sound: it
must be a different file, and if standard error is a terminal, a line says what a replaced file held. With --new
nothing is written if something already has the path NEW. With -n nothing is written, and NEW may be left out.

The copy is as long as the volume, with its boot block and sizes. A file fits if it is regular and not the root, its
size is within the limit, and each block that it points to is a data block to which nothing else points. Files that
fit keep their i-numbers, permissions, owners, sizes, blocks, times and bytes; only their link counts may change. All
else is mended so that the twelve rules hold: two uses of one block become two blocks, block numbers that can't be
are cleared, entries that lead to nothing are removed, and whatever has no entry gets one in /lost+found, with the
name # and its i-number; in /lost+found.2, if /lost+found is no directory. NOW is the time of a directory that has to
be made. With --blocks the copy has at least FSIZE blocks: if the volume has fewer, blocks of zeros are appended
before, and are free afterwards.

Each difference has a line:
  i-node 17: cleared                       it was allocated, and is free now
  i-node 87: made                          it was free or of another kind, and is a new one now
  i-node 5: size 70000 -> 4096             in bytes
  i-node 7: contents or fields changed     of a file that doesn't fit, or of a directory
  i-node 2: links 4 -> 5
  directory 2, slot 5: 92 motd -> empty    an i-number and a name, before and now
  free list: rebuilt                       the super-block or a block of the list isn't the same
A sound volume has no line, and its copy is the same, unless --blocks makes it larger. The lines are on standard error if NEW is standard output.

With --cut, --bad, --bad-blocks, --sizes and --like some blocks of IMAGE are lost, as `unixvol export --help` says. They are
repaired as zeros. A file that fits keeps its size and the places of its bytes, so zeros are in place of what is lost of it.
What is lost has lines on standard error, as `export` has them, with the paths of the copy:
  unixvol: 3994 of 4872 blocks are lost
  unixvol: f4: 10400 of 100000 bytes are lost: 89600-99999
A file that fits and has no such line is right in the copy, whatever the lost blocks held. With --blocks, the image
is first completed, up to the blocks that its super-block or --sizes states; the blocks appended to that aren't lost.

Status:
  0  the copy is sound and was saved; with -n, it can be made; no block is lost
  1  `unixvol: unsound, rule N`: the volume breaks rule 1 or 2, so its sizes aren't known
     `unixvol: bounds`: no volume of the edition has FSIZE blocks: 65535 in the sixth, 16777216 in the seventh
     `unixvol: 28 NoSpace`: a directory or an entry that is needed has no free block or i-node; --blocks makes more
     blocks, and no more i-nodes
     `unixvol: 112 NotRepaired`: the copy still isn't sound, as if another file has the name that a lost one is to get in
     /lost+found; or a file that fits would change
  2  the command line is wrong
     `unixvol: no volume has 5 blocks with an i-list of 9`: --sizes, or --like in the sixth edition, breaks rule 2
  3  `unixvol: cannot read IMAGE`, `unixvol: cannot write NEW`; with --new, also if something already has this path; also if
     it is IMAGE or MAPFILE
     `unixvol: cannot write -`: standard output failed, after NEW was written
     `unixvol: rescue.map: line 7: the size is no number`: MAPFILE can't be read
  4  `unixvol: 12 NoMemory`
  5  as 0, but blocks are lost: standard error says what
  6  `unixvol: the image has 2 of 2000000 blocks`: more than 1048576 blocks are missing
     `unixvol: the super-block is lost: give --sizes or --like`";

const NEW: Parameter = Parameter {
    name: "NEW",
    kind: WordKind::Text,
    need: Need::Maybe,
    help: "The file to make or replace; needed without -n",
};

const NOW: Parameter = Parameter {
    name: "NOW",
    kind: WordKind::Moment,
    need: Need::Maybe,
    help: "The time of new directories: seconds since 1970, or a date like 2026-11-23 or 2026-11-23T12:00:00Z; by default, now",
};

const DRY_RUN: Parameter = Parameter {
    name: "dry-run",
    kind: WordKind::Flag,
    need: Need::Flag(Some('n')),
    help: "Write nothing, and print what would change",
};

const BLOCKS: Parameter = Parameter {
    name: "blocks",
    kind: WordKind::LongOr,
    need: Need::Value(None, ValueName::Size),
    help: "The fewest blocks that the copy has, of 512 bytes",
};

/// The words that `repair` takes.
pub(crate) const WORDS: &[Parameter] = &[
    EDITION, IMAGE, AT, NEW, NOW, UNREPLACED, DRY_RUN, BLOCKS, CUT, BAD, BAD_BLOCKS, SIZES, LIKE,
];

/// Reads the words of `repair`.
pub(crate) fn read<'a, G: Given<'a>>(
    alloc: Global,
    given: &G,
    clock: Option<u32>,
) -> Result<Invocation<'a>, WordFault<'a>>
    ensures read { IfOk result (AsksFor clock verbs.Repair (G.words given.now)) }
    ensures refused { IfErr result (TellsOf (AsksForNothing clock verbs.Repair (G.words given.now))) }
{
    let volume = volume_in(given)?;
    let repairing = repairing_in(given, clock)?;
    let copy = copy_in(given)?;
    let is_cut = flag_in(given, "cut");
    let bad = bad_image_in(alloc, given, volume.edition, is_cut)?;
    Ok(repair_at(volume, copy, repairing, bad))
}

/// Returns the invocation that repairs an image, of which some blocks may not have been read.
fn repair_at<'a>(
    volume: VolumeFile<'a>,
    copy: Option<MadeFile<'a>>,
    repairing: Repairing,
    bad: Option<BadImage<'a>>,
) -> Invocation<'a>
    ensures { result ≡ repair_at volume.entry copy.entry repairing bad.entry }
{
    match bad {
        Some(image) => Invocation::RepairBad {
            volume,
            image,
            copy,
            repairing,
        },
        None => Invocation::Repair {
            volume,
            copy,
            repairing,
        },
    }
}

/// Reads the least size and the time of a repaired copy.
fn repairing_in<'a, G: Given<'a>>(given: &G, clock: Option<u32>) -> Result<Repairing, WordFault<'a>>
    ensures read { IfOk result (IsRepairingGiven clock (G.words given.now)) }
    ensures refused { IfErr result (TellsOf (IsOneWrong clock (G.words given.now) (arguments_of verbs.Repair))) }
{
    Ok(Repairing {
        blocks: long_or(given, "blocks", 0)?,
        now: moment_in(given, clock)?,
    })
}

/// Reads the file for the copy that `repair` makes: none if the copy isn't saved.
fn copy_in<'a, G: Given<'a>>(given: &G) -> Result<Option<MadeFile<'a>>, WordFault<'a>>
    ensures read { IfOk result (IsNewCopyGiven (G.words given.now)) }
    ensures refused { IfErr result (TellsOf (IsNewCopyMissing (G.words given.now))) }
{
    if flag_in(given, "dry-run") {
        return Ok(None);
    }
    match given.first("NEW") {
        Some(path) => {
            let is_new = flag_in(given, "new");
            Ok(Some(MadeFile { path, is_new }))
        }
        None => Err(missing("NEW", "name a file for the copy, or add -n")),
    }
}
