//! The command `mkfs`.
ghost use Rattle.std.specs.Prelude.{◌≡◌, false, true, IfErr, IfOk, codes};
ghost use Rattle.command_words.specs.Decimal.{IsNumberGiven, IsNumberUpTo};
ghost use Rattle.command_words.specs.Invocations.{AsksFor, AsksForNothing, IsNewPlaceGiven, IsNewPlaceWrong, IsNewVolumeGiven, IsOneWrong, TellsOf, is_set};
ghost use Rattle.command_words.specs.Verbs.{arguments_of};
ghost use Rattle.command_words.specs.declared.verbs.Verb.TheVariants as verbs;

use crate::decimal::long_of;
use crate::fault::WordFault;
use crate::given::{
    Given, blocks_in, excluded, flag_in, moment_in, new_edition_in, text_in, word_or, wrong,
};
use crate::invocation::{Invocation, NewPlace};
use crate::parameters::{Need, Parameter, UNREPLACED, ValueName, WordKind};
use crate::read_words::made_in;
use crate::texts;
use disk_sizes::list_default;
use std::alloc::Global;
use vol_mkfs::NewVolume;

pub(crate) const NAME: &str = "mkfs";

pub(crate) const ABOUT: &str =
    "Makes a new volume with an empty root directory, and replaces an existing file.";

pub(crate) const MORE: &str = "\
Examples:
  unixvol mkfs 6 disk.img 4000 100 0 0 173750400
  unixvol mkfs --new 6 disk.img rk05
  unixvol mkfs 7 pack.img 9000 --at 18392

IMAGE is made or replaced only if the volume was made: a new file is written beside it and then takes its place,
with its permissions. An existing file is replaced without asking, whatever it holds; if standard error is a
terminal, a line says what it held. With --new nothing is written if something already has this path. If IMAGE is
a device or a pipe, the bytes are written into it.

With --at the volume is made in IMAGE from block BLOCK on, and every other byte of IMAGE stays: a new file with them
is written beside it and takes its place, with holes if it had some; into a device only the volume is written. IMAGE
must be a file or a device that has all these blocks; it never becomes longer. No other volume may have one of them:
they are searched for as `unixvol identify` does. A volume that begins at BLOCK itself is replaced without asking, and
so is what is in no volume that is found there, such as swap space; no line says what it held. The whole volume is in
memory meanwhile. --at doesn't go together with --new.

The root directory has permissions 0777. Its size is 32, for `.` and `..`. All other data blocks are free.

In the sixth edition the i-list has 1 to 4095 blocks of 16 i-nodes each, a volume has at most 65535 blocks, and
user and group numbers go up to 255. In the seventh edition the i-list has 1 to 8191 blocks of 8 i-nodes each, a
volume has at most 16777216 blocks, and user and group numbers go up to 32767. The first two blocks and the root's
block are needed too, so FSIZE is at least IBLOCKS + 3.

The name of a disk, in letters of either case, stands for all of its blocks: 4,872 for rk05, 27,126 for rk06, 53,790
for rk07, 10,240 for rl01, 20,480 for rl02, 131,680 for rm03, 81,200 for rp03, 171,798 for rp04, 340,670 for rp06, 500
for rx01 and 1,001 for rx02. An rm03, rp03, rp04 or rp06 is too large for the sixth edition. Its root disk, an RK05,
held a volume of 4,000 blocks, and the rest was swap space.

If IBLOCKS is left out, it is FSIZE / (43 + FSIZE / 1000) in the sixth edition, as its mkfs computed it, and
FSIZE / 25, at most 8187, in the seventh. Quotients are rounded down, and IBLOCKS is at least 1.

Status:
  0  the volume was made and saved
  1  `unixvol: bounds`: no volume of this edition has these sizes
     `unixvol: 104 BadId`: UID or GID is above the edition's highest
  2  the command line is wrong
  3  `unixvol: cannot write IMAGE`; with --new, also if something already has this path; with --at, also if IMAGE
     doesn't exist, ends before the volume would, or has another volume there
     `unixvol: cannot read IMAGE`: with --at, if it can't be searched
  4  `unixvol: 12 NoMemory`";

const NEW_EDITION: Parameter = Parameter {
    name: "EDITION",
    kind: WordKind::NewEdition,
    need: Need::Once,
    help: "The new volume's edition of Unix, 6 or 7",
};

const MADE_AT: Parameter = Parameter {
    name: "at",
    kind: WordKind::LongOr,
    need: Need::Value(None, ValueName::Block),
    help: "The block of IMAGE, of 512 bytes, at which the volume is made; IMAGE must exist, and all else in it stays the same",
};

const NEW_IMAGE: Parameter = Parameter {
    name: "IMAGE",
    kind: WordKind::Text,
    need: Need::Once,
    help: texts::NEW_IMAGE,
};

const BLOCKS: Parameter = Parameter {
    name: "FSIZE",
    kind: WordKind::Blocks,
    need: Need::Once,
    help: "The size of the volume, in blocks of 512 bytes, or the name of a disk, such as rk05",
};

const LIST_BLOCKS: Parameter = Parameter {
    name: "IBLOCKS",
    kind: WordKind::WordOr,
    need: Need::Maybe,
    help: "The size of the i-list, in blocks; by default, what mkfs of the edition chose",
};

const UID: Parameter = Parameter {
    name: "UID",
    kind: WordKind::WordOr,
    need: Need::Maybe,
    help: "The root directory's user; by default, 0",
};

const GID: Parameter = Parameter {
    name: "GID",
    kind: WordKind::WordOr,
    need: Need::Maybe,
    help: "The root directory's group; by default, 0",
};

const NOW: Parameter = Parameter {
    name: "NOW",
    kind: WordKind::Moment,
    need: Need::Maybe,
    help: "The time of the volume and its root: seconds since 1970, or a date like 2026-11-23 or 2026-11-23T12:00:00Z; by default, now",
};

/// The words that `mkfs` takes.
pub(crate) const WORDS: &[Parameter] = &[
    NEW_EDITION,
    NEW_IMAGE,
    BLOCKS,
    LIST_BLOCKS,
    UID,
    GID,
    NOW,
    UNREPLACED,
    MADE_AT,
];

/// Reads the words of `mkfs`.
pub(crate) fn read<'a, G: Given<'a>>(
    _alloc: Global,
    given: &G,
    clock: Option<u32>,
) -> Result<Invocation<'a>, WordFault<'a>>
    ensures read { IfOk result (AsksFor clock verbs.Mkfs (G.words given.now)) }
    ensures refused { IfErr result (TellsOf (AsksForNothing clock verbs.Mkfs (G.words given.now))) }
{
    let volume = new_volume_in(given, clock)?;
    let place = new_place_in(given)?;
    Ok(Invocation::Mkfs { place, volume })
}

/// Reads the edition and the numbers of a new volume.
fn new_volume_in<'a, G: Given<'a>>(
    given: &G,
    clock: Option<u32>,
) -> Result<NewVolume, WordFault<'a>>
    ensures read { IfOk result (IsNewVolumeGiven clock (G.words given.now)) }
    ensures refused { IfErr result (TellsOf (IsOneWrong clock (G.words given.now) (arguments_of verbs.Mkfs))) }
{
    let edition = new_edition_in(given)?;
    let blocks = blocks_in(given)?;
    Ok(NewVolume {
        edition,
        blocks,
        list_blocks: word_or(given, "IBLOCKS", list_default(edition, blocks))?,
        uid: word_or(given, "UID", 0)?,
        gid: word_or(given, "GID", 0)?,
        now: moment_in(given, clock)?,
    })
}

/// Reads the place of a new volume: a file to make; or, if a block was given, the blocks of an existing file from that one on.
fn new_place_in<'a, G: Given<'a>>(given: &G) -> Result<NewPlace<'a>, WordFault<'a>>
    ensures read { IfOk result (IsNewPlaceGiven (G.words given.now)) }
    ensures refused { IfErr result (TellsOf (IsNewPlaceWrong (G.words given.now))) }
{
    match given.first("at") {
        None => Ok(NewPlace::File(made_in(given, "IMAGE"))),
        Some(word) => {
            not_new(given)?;
            let at = block_of(word)?;
            let image = text_in(given, "IMAGE");
            Ok(NewPlace::Part { image, at })
        }
    }
}

/// Reads the number of the block that a volume begins at.
fn block_of(word: &str) -> Result<u32, WordFault<'_>>
    ensures read { IfOk result (IsNumberGiven 4294967295 word.now) }
    ensures refused { IfErr result (TellsOf (IsNumberUpTo 4294967295 word.now → ⊥)) }
{
    long_of(word).ok_or(wrong("at", word, texts::LONG))
}

/// Succeeds if the words don't ask for a file that must not exist: a place in a file is in one that does.
fn not_new<'a, G: Given<'a>>(given: &G) -> Result<(), WordFault<'a>>
    ensures none { IfOk result (λ _. is_set (G.words given.now (codes "new")) ≡ false) }
    ensures refused { IfErr result (TellsOf (is_set (G.words given.now (codes "new")) ≡ true)) }
{
    if flag_in(given, "new") {
        Err(excluded("at", "new", MADE_AT.help))
    } else {
        Ok(())
    }
}
