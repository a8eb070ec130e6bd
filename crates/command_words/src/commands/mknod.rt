//! The command `mknod`.
ghost use Rattle.std.specs.Prelude.{IfErr, IfOk};
ghost use Rattle.command_words.specs.Invocations.{AsksFor, IsOneWrong, TellsOf};
ghost use Rattle.command_words.specs.Verbs.{arguments_of};
ghost use Rattle.command_words.specs.declared.verbs.Verb.TheVariants as verbs;

use crate::fault::WordFault;
use crate::given::{
    Given, byte_in, device_kind_in, flag_in, moment_in, owner_in, path_in, permissions_or,
};
use crate::invocation::Invocation;
use crate::parameters::{AT, CALL_NOW, EDITION, IMAGE, Need, OWNER, Parameter, TRACE, WordKind};
use crate::read_words::volume_in;
use command_terms::{Change, PermissionChange};
use std::alloc::Global;
use vol_layout::DeviceId;

pub(crate) const NAME: &str = "mknod";

pub(crate) const ABOUT: &str = "Makes a special file in a volume, for a device.";

pub(crate) const MORE: &str = "\
Examples:
  unixvol mknod 7 disk.img /dev/tty c 3 5 0622
  unixvol mknod 7 disk.img /dev/rk0 b 0 0 0640 --owner 3:1

A special file represents a device of the machine: a program that opens it reads and writes the device. MAJOR names
the driver in the kernel's table, MINOR one of its devices; which numbers these are depends on the kernel. The file
has no bytes and no blocks, and one link.

Without PERM it gets permissions 0644. The word after MINOR is PERM, so NOW can only follow PERM. It belongs to user 0
and group 0, or with --owner to this user and group, whose numbers go up to 255 in the sixth edition, and up to 32767
in the seventh.

IMAGE is written only if everything succeeded: a new file is written beside it and then takes its place.

A path starts at the root, with or without a leading slash. Repeated slashes count as one, trailing slashes are
ignored, and each name is cut to 14 bytes. The volume must be sound: its twelve rules are checked first.

Status:
  0  the special file was made, and the volume was saved
  1  `unixvol: unsound, rule N`: this is the first rule that the volume breaks; `unixvol check` says what breaks it
     `unixvol: 2 NoEntry`, `unixvol: 20 NotDirectory`: the parent of PATH doesn't exist, or isn't a directory
     `unixvol: 17 Exists`: PATH already exists
     `unixvol: 27 TooBig`: the parent directory has the maximum size
     `unixvol: 104 BadId`: UID or GID of --owner is above the edition's highest
     `unixvol: 28 NoSpace`, `unixvol: 103 NoInode`: there are too few free blocks, or there is no free i-node
  2  the command line is wrong
  3  `unixvol: cannot read IMAGE`, `unixvol: cannot write IMAGE`
     `unixvol: cannot write -`: with --trace, standard output failed, after the volume was saved
  4  `unixvol: 12 NoMemory`";

const PATH: Parameter = Parameter {
    name: "PATH",
    kind: WordKind::Path,
    need: Need::Once,
    help: "The path of the special file in the volume",
};

const KIND: Parameter = Parameter {
    name: "KIND",
    kind: WordKind::DeviceKind,
    need: Need::Once,
    help: "The kind of the device: c for a character device, as a terminal, b for a block device, as a disk",
};

const MAJOR: Parameter = Parameter {
    name: "MAJOR",
    kind: WordKind::Byte,
    need: Need::Once,
    help: "The major number, which names the driver, a decimal number from 0 to 255",
};

const MINOR: Parameter = Parameter {
    name: "MINOR",
    kind: WordKind::Byte,
    need: Need::Once,
    help: "The minor number, the unit as the driver numbers it, a decimal number from 0 to 255",
};

const PERM: Parameter = Parameter {
    name: "PERM",
    kind: WordKind::PermissionsOr,
    need: Need::Maybe,
    help: "The permissions, an octal number up to 7777, or changes of 0644, as go-r; by default 0644",
};

/// The words that `mknod` takes.
pub(crate) const WORDS: &[Parameter] = &[
    EDITION, IMAGE, AT, PATH, KIND, MAJOR, MINOR, PERM, CALL_NOW, OWNER, TRACE,
];

/// The permissions of a special file, if none are given.
const PERMISSIONS: u16 = 0o644;

/// Reads the words of `mknod`.
pub(crate) fn read<'a, G: Given<'a>>(
    _alloc: Global,
    given: &G,
    clock: Option<u32>,
) -> Result<Invocation<'a>, WordFault<'a>>
    ensures read { IfOk result (AsksFor clock verbs.Mknod (G.words given.now)) }
    ensures refused { IfErr result (TellsOf (IsOneWrong clock (G.words given.now) (arguments_of verbs.Mknod))) }
{
    let volume = volume_in(given)?;
    let path = path_in(given, "PATH")?;
    let kind = device_kind_in(given)?;
    let major = byte_in(given, "MAJOR")?;
    let minor = byte_in(given, "MINOR")?;
    let change = permissions_or(given, "PERM", PermissionChange::to(PERMISSIONS))?;
    let now = moment_in(given, clock)?;
    let owner = owner_in(given)?;
    Ok(Invocation::Change {
        volume,
        change: Change::Mknod {
            path,
            device: DeviceId { kind, major, minor },
            change,
            owner,
            now,
        },
        trace: flag_in(given, "trace"),
    })
}
