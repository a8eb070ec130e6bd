//! The command `migrate`.
ghost use Rattle.std.specs.Prelude.{◌≡◌, IfErr, IfOk};
ghost use Rattle.command_words.specs.Invocations.{AsksFor, IsOneWrong, TellsOf, devices_in};
ghost use Rattle.command_words.specs.Verbs.{arguments_of};
ghost use Rattle.command_words.specs.declared.verbs.Verb.TheVariants as verbs;

use crate::fault::WordFault;
use crate::given::{Given, flag_in, long_in, long_or, moment_in, text_in, word_in};
use crate::invocation::Invocation;
use crate::parameters::{Need, Parameter, UNREPLACED, ValueName, WordKind};
use crate::read_words::made_in;
use crate::texts;
use command_terms::Migration;
use std::alloc::Global;
use vol_migrate::Devices;

pub(crate) const NAME: &str = "migrate";

pub(crate) const ABOUT: &str =
    "Makes a seventh edition volume from one of the sixth, and replaces an existing file.";

pub(crate) const MORE: &str = "\
Examples:
  unixvol migrate old.img new.img 8000 250 173750400
  unixvol migrate old.img new.img 8000 250 --devices

The new volume has the files of the old one. Each i-number is one higher than before, because number 1 is free in
the new volume. Kinds, permissions, owners, links, sizes, bytes, and the times of access and modification stay;
the times of change are NOW. A missing block of a file is still missing. All other data blocks are free.

With --devices special files are kept: each is of the same kind, block or character, and has the same major and minor
number. One that would lose something is still refused: its mode has the flag of a large file, 010000, or an address
other than the first isn't 0.

OLD must be sound, and is not changed. NEW must be a different file, and holds the new volume alone. It is made or replaced only if the volume was
made: a new file is written beside it and then takes its place. If standard error is a terminal, a line says what
a replaced file held. With --new nothing is written if something already has the path NEW.

Status:
  0  the volume was made and saved
  1  `unixvol: unsound, rule N`: this is the first rule that OLD breaks; `unixvol check` says what breaks it
     `unixvol: bounds`: no volume of the seventh edition has these sizes: IBLOCKS is 1 to 8191, and FSIZE at least
     IBLOCKS + 3 and at most 16777216
     `unixvol: 105 HasDevice`: OLD has a special file; with --devices, one that would lose something
     `unixvol: 103 NoInode`: the highest i-number, one higher, is above 8 times IBLOCKS
     `unixvol: 28 NoSpace`: the files need more blocks than there are data blocks
  2  the command line is wrong
  3  `unixvol: cannot read OLD`, `unixvol: cannot write NEW`; with --new, also if something already has this path
  4  `unixvol: 12 NoMemory`";

const OLD_AT: Parameter = Parameter {
    name: "at",
    kind: WordKind::LongOr,
    need: Need::Value(None, ValueName::Block),
    help: "The block of OLD, of 512 bytes, that the volume begins at; by default 0",
};

const BLOCKS: Parameter = Parameter {
    name: "FSIZE",
    kind: WordKind::Long,
    need: Need::Once,
    help: "The size of the volume, in blocks of 512 bytes",
};

const LIST_BLOCKS: Parameter = Parameter {
    name: "IBLOCKS",
    kind: WordKind::Word,
    need: Need::Once,
    help: "The size of the i-list, in blocks",
};

const NOW: Parameter = Parameter {
    name: "NOW",
    kind: WordKind::Moment,
    need: Need::Maybe,
    help: "The time of the volume and its i-nodes' changes: seconds since 1970, or a date like 2026-11-23 or 2026-11-23T12:00:00Z; by default, now",
};

const DEVICES: Parameter = Parameter {
    name: "devices",
    kind: WordKind::Flag,
    need: Need::Flag(None),
    help: "Keep special files, with the numbers of their devices",
};

const OLD: Parameter = Parameter {
    name: "OLD",
    kind: WordKind::Text,
    need: Need::Once,
    help: "The disk image of the old volume",
};

const NEW: Parameter = Parameter {
    name: "NEW",
    kind: WordKind::Text,
    need: Need::Once,
    help: texts::NEW_IMAGE,
};

/// The words that `migrate` takes.
pub(crate) const WORDS: &[Parameter] = &[
    OLD,
    NEW,
    BLOCKS,
    LIST_BLOCKS,
    NOW,
    UNREPLACED,
    OLD_AT,
    DEVICES,
];

/// Reads the words of `migrate`.
pub(crate) fn read<'a, G: Given<'a>>(
    _alloc: Global,
    given: &G,
    clock: Option<u32>,
) -> Result<Invocation<'a>, WordFault<'a>>
    ensures read { IfOk result (AsksFor clock verbs.Migrate (G.words given.now)) }
    ensures refused { IfErr result (TellsOf (IsOneWrong clock (G.words given.now) (arguments_of verbs.Migrate))) }
{
    let old = text_in(given, "OLD");
    let new = made_in(given, "NEW");
    let migration = Migration {
        blocks: long_in(given, "FSIZE")?,
        list_blocks: word_in(given, "IBLOCKS")?,
        now: moment_in(given, clock)?,
        devices: devices_in(given),
    };
    let at = long_or(given, "at", 0)?;
    Ok(Invocation::Migrate {
        old,
        at,
        new,
        migration,
    })
}

/// Returns what becomes of special files.
fn devices_in<'a, G: Given<'a>>(given: &G) -> Devices
    ensures { result ≡ devices_in (G.words given.now) }
{
    if flag_in(given, "devices") {
        Devices::Keep
    } else {
        Devices::Refuse
    }
}
