//! The command `dump`.
ghost use Rattle.std.specs.Prelude.{IfErr, IfOk};
ghost use Rattle.command_words.specs.Invocations.{AreDigitsOfJson, AsksFor, AsksForNothing, IsDumpFormGiven, TellsOf};
ghost use Rattle.command_words.specs.declared.verbs.Verb.TheVariants as verbs;

use crate::fault::WordFault;
use crate::given::{Given, excluded, flag_in, radix_in, target_in};
use crate::invocation::Invocation;
use crate::parameters::{AT, EDITION, IMAGE, JSON, Need, Parameter, WordKind};
use crate::read_words::volume_in;
use command_terms::{DumpForm, Look};
use std::alloc::Global;

pub(crate) const NAME: &str = "dump";

pub(crate) const ABOUT: &str = "Shows the bytes of a block or an i-node, field by field.";

pub(crate) const MORE: &str = "\
Examples:
  unixvol dump 7 disk.img 1                 the super-block
  unixvol dump 7 disk.img -i 2              the i-node of /
  unixvol dump 7 disk.img -i /etc/passwd    the i-node of a file
  unixvol dump 7 disk.img 1 --json | jq '.rows[] | select(.field == \"time\").value'

A heading names the block and what it is used for, or the i-node and its place. Then each field has a line: the place
of its first byte in the block, its bytes, its name in the manual, its value, and what that means. A mode is printed in
octal and as `ls -l` does, a time in seconds and as a date, an i-number with the kind of its i-node, a block number
with what the block is used for: the first i-node that points to it, and the first logical block at or below it. A name
is printed up to its first zero byte, but whole if other bytes than zeros follow it.

The lines have all bytes of the block or the i-node, in order, but bytes that are all zero may share a line: more than
16 of one field, or neighbours in an array, as addr[1..12]. A field of more than 16 bytes has a line for each 16. A
block of a directory has a slot in each 16 bytes up to the directory's size; the bytes after the end of a file or
directory are its slack.

With --json, one object is printed on one line: \"block\", the block; \"role\", what it is used for; and \"rows\", an object
for each line but the headings: \"field\", the name, \"index\" and \"count\" (the index of the first field, and how many share
the line), \"offset\" (its place in the block), \"hex\" (all its bytes, the zeros too), \"value\" (null if it has none),
\"meaning\", and \"ino\", the i-number if it is in an i-node. The role has \"use\" and, if an i-node uses the block, \"ino\",
\"level\" and \"logical\".

The volume need not be sound. Only rules 1 and 2 are checked: the image's size, and the sizes in its super-block.

Status:
  0  the bytes were shown
  1  `unixvol: unsound, rule 1`: the image is shorter than its super-block says
     `unixvol: unsound, rule 2`: the sizes in the super-block contradict one another
     `unixvol: 2 NoEntry`: there is no block or i-node with this number, or no file or directory with this path
     `unixvol: 20 NotDirectory`: the path leads through something that isn't a directory
  2  the command line is wrong
  3  `unixvol: cannot read IMAGE`, or `unixvol: cannot write -`: standard output failed
  4  `unixvol: 12 NoMemory`";

const PLACE: Parameter = Parameter {
    name: "BLOCK",
    kind: WordKind::Place,
    need: Need::Once,
    help: "The number of the block, from 0; with -i an i-number. A path that begins with a slash means its i-node",
};

const INODE: Parameter = Parameter {
    name: "inode",
    kind: WordKind::Flag,
    need: Need::Flag(Some('i')),
    help: "The number is an i-number",
};

const OCTAL: Parameter = Parameter {
    name: "octal",
    kind: WordKind::Flag,
    need: Need::Flag(None),
    help: "Print the bytes in octal digits; not with --json",
};

/// The words that `dump` takes.
pub(crate) const WORDS: &[Parameter] = &[EDITION, IMAGE, AT, PLACE, INODE, OCTAL, JSON];

/// Reads the words of `dump`.
pub(crate) fn read<'a, G: Given<'a>>(
    _alloc: Global,
    given: &G,
    _clock: Option<u32>,
) -> Result<Invocation<'a>, WordFault<'a>>
    ensures read { IfOk result (AsksFor _clock verbs.Dump (G.words given.now)) }
    ensures refused { IfErr result (TellsOf (AsksForNothing _clock verbs.Dump (G.words given.now))) }
{
    let volume = volume_in(given)?;
    let target = target_in(given)?;
    let form = form_in(given)?;
    Ok(Invocation::Look {
        volume,
        look: Look::Dump { target, form },
    })
}

/// Reads the format of a dump. JSON has no digits to choose.
fn form_in<'a, G: Given<'a>>(given: &G) -> Result<DumpForm, WordFault<'a>>
    ensures read { IfOk result (IsDumpFormGiven (G.words given.now)) }
    ensures refused { IfErr result (TellsOf (AreDigitsOfJson (G.words given.now))) }
{
    if !flag_in(given, "json") {
        return Ok(DumpForm::Text(radix_in(given)));
    }
    if flag_in(given, "octal") {
        return Err(excluded("octal", "json", OCTAL.help));
    }
    Ok(DumpForm::Json)
}
