//! The command `serve`.
ghost use Rattle.std.specs.Prelude.{IfErr, IfOk};
ghost use Rattle.command_words.specs.Invocations.{AsksFor, IsOneWrong, TellsOf};
ghost use Rattle.command_words.specs.Verbs.{arguments_of};
ghost use Rattle.command_words.specs.declared.verbs.Verb.TheVariants as verbs;

use crate::fault::WordFault;
use crate::given::{Given, flag_in, rescue_in};
use crate::invocation::{Invocation, Serving};
use crate::parameters::{AT, EDITION, IMAGE, Need, Parameter, ValueName, WordKind};
use crate::read_words::volume_in;
use std::alloc::Global;

pub(crate) const NAME: &str = "serve";

pub(crate) const ABOUT: &str =
    "Serves a volume over Linux's FUSE; `unixvol-mount` runs this command.";

pub(crate) const MORE: &str = "\
Examples:
  unixvol-mount 7 disk.img /mnt
  unixvol serve 7 disk.img <&3 >&3

Most users want `unixvol-mount`, which opens /dev/fuse, mounts it and starts this command (see its manual page).
Each request of FUSE is one read from standard input, and each reply is one write to standard output, until the
input ends or the volume is unmounted. So standard input is /dev/fuse, or a file or socket with requests.

The image must be sound. It is locked until the command ends. Changes are kept in memory, and saved at each fsync
of a file or directory and at the end: a new file takes the image's place, as with other commands. If a save
fails, a line on standard error says so, and fsync returns an error. If the command is killed, all changes since
the last save are lost.

If the save at the end fails, the image is written to the FILE of --rescue, which must not exist yet; without the
option, or if that fails too, to IMAGE.unixvol-rescue-N beside the image or in the folder of the variable TMPDIR,
with the least number N that is free. A line says where it is, or that it could not be written. Only its owner may
read this file. The status is 3 or 4 all the same.

With --read-only the image is read once, before the first request, and is not locked or changed.
The volume need not be sound. Only rules 1 and 2 are checked: the image's size, and the sizes in its super-block.
If another rule doesn't hold, a line on standard error names the first that is broken, and everything that entries
lead to is served. --mine then has no effect.

Status:
  0  the input ended, or the volume was unmounted, and everything is saved
  1  `unixvol: unsound, rule N`: this is the first rule that the volume breaks; with --read-only, only rules 1 and 2
  2  the command line is wrong
  3  `unixvol: cannot read IMAGE`, `unixvol: cannot write IMAGE`, `unixvol: cannot read -` or
     `unixvol: cannot write -`: a file or a stream failed; or, before anything is served,
     `unixvol: cannot write FILE`: the FILE of --rescue exists
  4  `unixvol: 12 NoMemory`";

const READ_ONLY: Parameter = Parameter {
    name: "read-only",
    kind: WordKind::Flag,
    need: Need::Flag(None),
    help: "Serve the volume read-only; it need not be sound",
};

const MINE: Parameter = Parameter {
    name: "mine",
    kind: WordKind::Flag,
    need: Need::Flag(None),
    help: "Show all files as the caller's; new files belong to user 0 of the volume, and chown is refused",
};

const RESCUE: Parameter = Parameter {
    name: "rescue",
    kind: WordKind::Path,
    need: Need::Value(Some('r'), ValueName::Rescue),
    help: "If the last save fails, write the image to this file, which must not exist yet",
};

/// The words that `serve` takes.
pub(crate) const WORDS: &[Parameter] = &[EDITION, IMAGE, AT, READ_ONLY, MINE, RESCUE];

/// Reads the words of `serve`.
pub(crate) fn read<'a, G: Given<'a>>(
    _alloc: Global,
    given: &G,
    _clock: Option<u32>,
) -> Result<Invocation<'a>, WordFault<'a>>
    ensures read { IfOk result (AsksFor _clock verbs.Serve (G.words given.now)) }
    ensures refused { IfErr result (TellsOf (IsOneWrong _clock (G.words given.now) (arguments_of verbs.Serve))) }
{
    let volume = volume_in(given)?;
    let rescue = rescue_in(given)?;
    let serving = if flag_in(given, "read-only") {
        Serving::ReadOnly
    } else {
        Serving::Changes {
            is_mine: flag_in(given, "mine"),
            rescue,
        }
    };
    Ok(Invocation::Serve { volume, serving })
}
