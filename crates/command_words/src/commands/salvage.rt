//! The command `salvage`.
ghost use Rattle.std.specs.Prelude.{IfErr, IfOk};
ghost use Rattle.command_words.specs.Invocations.{AsksFor, IsOneWrong, TellsOf};
ghost use Rattle.command_words.specs.Verbs.{arguments_of};
ghost use Rattle.command_words.specs.declared.verbs.Verb.TheVariants as verbs;

use crate::fault::WordFault;
use crate::given::{Given, flag_in};
use crate::invocation::Invocation;
use crate::parameters::{AT, EDITION, IMAGE, Need, Parameter, ValueName, WordKind};
use crate::read_words::volume_in;
use command_terms::Change;
use std::alloc::Global;

pub(crate) const NAME: &str = "salvage";

pub(crate) const ABOUT: &str = "Rebuilds the free list of a volume, if nothing else is wrong.";

pub(crate) const MORE: &str = "\
Examples:
  unixvol salvage 7 disk.img
  unixvol salvage 7 disk.img -n
  unixvol salvage 7 disk.img -o salvaged.img

The new free list has every data block that no file or directory uses. Files and directories stay as they are, and
so does the time of the volume. All other requirements of the rules must hold, so that the volume is sound
afterwards; if one doesn't, nothing is written. A correct free list is rebuilt too.

IMAGE is written only if everything succeeded: a new file is written beside it and then takes its place.

With -o the salvaged volume goes into another file, COPY, and IMAGE is only read. COPY is made or replaced as
`unixvol migrate` does with its new volume: it must be a different file, and if standard error is a terminal, a
line says what a replaced file held. With -n nothing is written, and the volume is salvaged in memory.

With each of them a line says how the free list changes, with -o once COPY is written, on standard error if COPY is
standard output:
  free list: 12 blocks added, 3 taken away
The first number is of blocks that are free afterwards and weren't before, the second of blocks that were and
aren't. If the old list has a fault, only the blocks before it count as free before.

Status:
  0  the free list was rebuilt, and the volume was saved; with -n, it can be rebuilt
  1  `unixvol: unsound, rule N`: this is the first rule that the volume breaks, apart from what the rules require
     of the free list; `unixvol check` says what breaks it
  2  the command line is wrong
  3  `unixvol: cannot read IMAGE`, `unixvol: cannot write IMAGE`, `unixvol: cannot write COPY`
     `unixvol: cannot write -`: with -n or -o, standard output failed
  4  `unixvol: 12 NoMemory`";

const COPY: Parameter = Parameter {
    name: "output",
    kind: WordKind::Text,
    need: Need::Value(Some('o'), ValueName::Copy),
    help: "Write the salvaged volume into this file, and print how the free list changed",
};

const DRY_RUN: Parameter = Parameter {
    name: "dry-run",
    kind: WordKind::Flag,
    need: Need::Flag(Some('n')),
    help: "Write nothing, and print how the free list would change",
};

/// The words that `salvage` takes.
pub(crate) const WORDS: &[Parameter] = &[EDITION, IMAGE, AT, COPY, DRY_RUN];

/// Reads the words of `salvage`.
pub(crate) fn read<'a, G: Given<'a>>(
    _alloc: Global,
    given: &G,
    _clock: Option<u32>,
) -> Result<Invocation<'a>, WordFault<'a>>
    ensures read { IfOk result (AsksFor _clock verbs.Salvage (G.words given.now)) }
    ensures refused { IfErr result (TellsOf (IsOneWrong _clock (G.words given.now) (arguments_of verbs.Salvage))) }
{
    let volume = volume_in(given)?;
    if flag_in(given, "dry-run") {
        return Ok(Invocation::Salvage { volume, copy: None });
    }
    match given.first("output") {
        Some(copy) => Ok(Invocation::Salvage {
            volume,
            copy: Some(copy),
        }),
        None => Ok(Invocation::Change {
            volume,
            change: Change::Salvage,
            trace: false,
        }),
    }
}
