//! The command `boot`.
ghost use Rattle.std.specs.Prelude.{IfErr, IfOk};
ghost use Rattle.command_words.specs.Invocations.{AsksFor, IsOneWrong, TellsOf};
ghost use Rattle.command_words.specs.Verbs.{arguments_of};
ghost use Rattle.command_words.specs.declared.verbs.Verb.TheVariants as verbs;

use crate::fault::WordFault;
use crate::given::{Given, text_in};
use crate::invocation::Invocation;
use crate::parameters::{AT, EDITION, IMAGE, Need, Parameter, WordKind};
use crate::read_words::volume_in;
use command_terms::Change;
use std::alloc::Global;

pub(crate) const NAME: &str = "boot";

pub(crate) const ABOUT: &str = "Puts a program into the boot block of a volume.";

pub(crate) const MORE: &str = "\
Example:
  unixvol boot 7 disk.img uboot

The bytes of FILE go into block 0, from which a machine boots, and zeros after them. Nothing else changes: no file
system looks at block 0. FILE has at most 512 bytes; if it begins with the header of an executable, the header stays,
since its first word is a jump over it.

IMAGE is written only if everything succeeded: a new file is written beside it and then takes its place. The volume
must be sound: its twelve rules are checked first.

Status:
  0  the program is in the boot block, and the volume was saved
  1  `unixvol: 27 TooBig`: FILE has more than 512 bytes
     `unixvol: unsound, rule N`: this is the first rule that the volume breaks; `unixvol check` says what breaks it
  2  the command line is wrong
  3  `unixvol: cannot read IMAGE`, `unixvol: cannot read FILE`, `unixvol: cannot write IMAGE`
  4  `unixvol: 12 NoMemory`";

const FILE: Parameter = Parameter {
    name: "FILE",
    kind: WordKind::Text,
    need: Need::Once,
    help: "The file with the program, outside the volume",
};

/// The words that `boot` takes.
pub(crate) const WORDS: &[Parameter] = &[EDITION, IMAGE, AT, FILE];

/// Reads the words of `boot`.
pub(crate) fn read<'a, G: Given<'a>>(
    _alloc: Global,
    given: &G,
    _clock: Option<u32>,
) -> Result<Invocation<'a>, WordFault<'a>>
    ensures read { IfOk result (AsksFor _clock verbs.Boot (G.words given.now)) }
    ensures refused { IfErr result (TellsOf (IsOneWrong _clock (G.words given.now) (arguments_of verbs.Boot))) }
{
    let volume = volume_in(given)?;
    let file = text_in(given, "FILE");
    Ok(Invocation::Change {
        volume,
        change: Change::Boot { file },
        trace: false,
    })
}
