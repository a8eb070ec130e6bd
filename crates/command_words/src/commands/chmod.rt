//! The command `chmod`.
ghost use Rattle.std.specs.Prelude.{IfErr, IfOk};
ghost use Rattle.command_words.specs.Invocations.{AsksFor, IsOneWrong, TellsOf};
ghost use Rattle.command_words.specs.Verbs.{arguments_of};
ghost use Rattle.command_words.specs.declared.verbs.Verb.TheVariants as verbs;

use crate::fault::WordFault;
use crate::given::{Given, flag_in, moment_in, path_in, permissions_in};
use crate::invocation::Invocation;
use crate::parameters::{AT, CALL_NOW, EDITION, IMAGE, Need, OWNED, Parameter, TRACE, WordKind};
use crate::read_words::volume_in;
use command_terms::Change;
use std::alloc::Global;

pub(crate) const NAME: &str = "chmod";

pub(crate) const ABOUT: &str = "Changes the permissions of a file or directory of a volume.";

pub(crate) const MORE: &str = "\
Examples:
  unixvol chmod 7 disk.img /etc/rc 0755 173750400
  unixvol chmod 7 disk.img /usr/games/chess u+s,go-w

PERM is the sum of the bits to set: 400, 200 and 100 let the owner read, write and execute, 40, 20 and 10 the
group, 4, 2 and 1 everyone else; 4000 is set-user-id, 2000 set-group-id, and 1000 keeps a program's text in swap
space. Special files have permissions too.

PERM can also be changes in letters, with commas between them; each is made after the one before it, and all bits
that none of them names stay. A change is letters for whom: u for the owner, g for the group, o for everyone else,
a for all; no letter means all. Then it has + to set bits, - to clear them, or = to set them and clear the others
of whom. Last come letters for the bits: r to read, w to write, x to execute, s for set-user-id (of u) and
set-group-id (of g), t for 1000 (of o). A word that begins with a hyphen is taken for an option: write a-w, not -w.

IMAGE is written only if everything succeeded: a new file is written beside it and then takes its place.

A path starts at the root, with or without a leading slash. Repeated slashes count as one, trailing slashes are
ignored, and each name is cut to 14 bytes. The volume must be sound: its twelve rules are checked first.

Status:
  0  the permissions were set, and the volume was saved
  1  `unixvol: unsound, rule N`: this is the first rule that the volume breaks; `unixvol check` says what breaks it
     `unixvol: 2 NoEntry`: there is no such file or directory
     `unixvol: 20 NotDirectory`: PATH leads through something that isn't a directory
  2  the command line is wrong
  3  `unixvol: cannot read IMAGE`, `unixvol: cannot write IMAGE`
     `unixvol: cannot write -`: with --trace, standard output failed, after the volume was saved
  4  `unixvol: 12 NoMemory`";

const PERM: Parameter = Parameter {
    name: "PERM",
    kind: WordKind::Permissions,
    need: Need::Once,
    help: "The permissions, an octal number up to 7777; or changes of them, as u+x or a=rx,u+w",
};

/// The words that `chmod` takes.
pub(crate) const WORDS: &[Parameter] = &[EDITION, IMAGE, AT, OWNED, PERM, CALL_NOW, TRACE];

/// Reads the words of `chmod`.
pub(crate) fn read<'a, G: Given<'a>>(
    _alloc: Global,
    given: &G,
    clock: Option<u32>,
) -> Result<Invocation<'a>, WordFault<'a>>
    ensures read { IfOk result (AsksFor clock verbs.Chmod (G.words given.now)) }
    ensures refused { IfErr result (TellsOf (IsOneWrong clock (G.words given.now) (arguments_of verbs.Chmod))) }
{
    let volume = volume_in(given)?;
    let path = path_in(given, "PATH")?;
    let change = permissions_in(given, "PERM")?;
    let now = moment_in(given, clock)?;
    Ok(Invocation::Change {
        volume,
        change: Change::Chmod { path, change, now },
        trace: flag_in(given, "trace"),
    })
}
