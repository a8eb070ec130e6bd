//! The command `find`.
ghost use Rattle.std.specs.Prelude.{IfErr, IfOk};
ghost use Rattle.command_words.specs.Invocations.{AsksFor, AsksForNothing, TellsOf};
ghost use Rattle.command_words.specs.declared.verbs.Verb.TheVariants as verbs;

use crate::bad_words::{BAD, BAD_BLOCKS, CUT, LIKE, SIZES, bad_image_in, look_at};
use crate::fault::WordFault;
use crate::given::{Given, flag_in, text_in};
use crate::invocation::Invocation;
use crate::parameters::{
    AT, BELOW, EDITION, IMAGE, JSON, LOST, Need, Parameter, ValueName, WordKind,
};
use crate::read_words::{form_in, volume_in};
use command_terms::BadLook;
use std::alloc::Global;

pub(crate) const NAME: &str = "find";

pub(crate) const ABOUT: &str = "Prints the path of everything below a directory of a volume.";

pub(crate) const MORE: &str = "\
Examples:
  unixvol find 7 disk.img /usr
  unixvol find 7 disk.img --name '*.c'
  unixvol find --lost 7 damaged.img
  unixvol find --cut 7 cut-off.img
  unixvol find --json 7 disk.img | jq -r '.entries[] | select(.ino == 92) | .path'

Each entry of the directory and of all directories below has a line, except `.` and `..`, in ascending order of
the names' bytes, and a directory before what is in it. Each path begins with PATH. With --name, only paths whose
last name is like GLOB are printed: in GLOB a * stands for any bytes or none, a ? for one byte, and every other
byte for itself.

Entries without an i-node are printed too. What is below a directory isn't printed again if the directory was
printed before, nor if its path below PATH has more than 4096 bytes: such a path has a line on standard error, and
the status is then 5. On a terminal, bytes that aren't printable ASCII are shown as a backslash and three octal
digits.

With --json, one object is printed on one line. Its \"entries\" has an object for each path, with \"ino\", the i-number, and
\"path\", in which such bytes are always shown so.

With --lost, i-nodes that no entry names, or that are out of reach, are printed too, with everything below them, at
the paths below PATH that they have in an archive of `unixvol export --lost`: lost+found/#96 is i-node 96. If the
root is no directory, these are all that is printed.

With --cut, --bad, --bad-blocks, --sizes and --like, blocks of the image are lost, as `unixvol export --help` says of
them. The paths are those whose names can be read without these blocks. The lines on standard error are then those of
that export, which also name entries that no archive can hold; they are about all entries, also with --name. If PATH
isn't found and something is lost on the way, a line says what is lost, and nothing is printed.

The volume need not be sound. Only rules 1 and 2 are checked: the image's size, and the sizes in its super-block.

Status:
  0  the paths were printed; with --name there may be none
  1  `unixvol: unsound, rule 1`: the image is shorter than its super-block says
     `unixvol: unsound, rule 2`: the sizes in the super-block contradict one another
     `unixvol: 2 NoEntry`, `unixvol: 20 NotDirectory`: PATH doesn't lead to a directory. Of a root that is no
     directory, --lost shows what is left
     if blocks are lost (--cut, --bad, --bad-blocks, --sizes, --like): nothing is damaged or left out
  2  the command line is wrong; or no volume of the edition has the sizes of --sizes or --like
  3  `unixvol: cannot read IMAGE`, or `unixvol: cannot write -`: standard output failed; or MAPFILE can't be read
  4  `unixvol: 12 NoMemory`
  5  a path has more than 4096 bytes below PATH, and what is below it isn't printed
     if blocks are lost: something is damaged or left out, or PATH isn't found and something is lost on the way,
     as standard error says
  6  if blocks are lost: more than 1048576 blocks of the image are missing; or its super-block is lost, and neither
     --sizes nor --like is given";

const PATTERN: Parameter = Parameter {
    name: "name",
    kind: WordKind::Text,
    need: Need::Value(Some('g'), ValueName::Pattern),
    help: "Print only paths whose last name is like this pattern",
};

/// The words that `find` takes.
pub(crate) const WORDS: &[Parameter] = &[
    EDITION, IMAGE, AT, BELOW, PATTERN, LOST, CUT, BAD, BAD_BLOCKS, SIZES, LIKE, JSON,
];

/// Reads the words of `find`.
pub(crate) fn read<'a, G: Given<'a>>(
    alloc: Global,
    given: &G,
    _clock: Option<u32>,
) -> Result<Invocation<'a>, WordFault<'a>>
    ensures read { IfOk result (AsksFor _clock verbs.Find (G.words given.now)) }
    ensures refused { IfErr result (TellsOf (AsksForNothing _clock verbs.Find (G.words given.now))) }
{
    let volume = volume_in(given)?;
    let cut = flag_in(given, "cut");
    let bad = bad_image_in(alloc, given, volume.edition, cut)?;
    let look = BadLook::Find {
        path: text_in(given, "PATH"),
        name: given.first("name"),
        lost: flag_in(given, "lost"),
        form: form_in(given),
    };
    Ok(look_at(volume, bad, look))
}
