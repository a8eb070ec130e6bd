//! The command `diff`.
ghost use Rattle.std.specs.Prelude.{IfErr, IfOk};
ghost use Rattle.command_words.specs.Invocations.{AsksFor, IsComparisonGiven, IsOneWrong, TellsOf};
ghost use Rattle.command_words.specs.Verbs.{arguments_of};
ghost use Rattle.command_words.specs.declared.verbs.Verb.TheVariants as verbs;

use crate::fault::WordFault;
use crate::given::{Given, flag_in, text_in};
use crate::invocation::Invocation;
use crate::parameters::{EDITION, IMAGE, JSON, Need, Parameter, ValueName, WordKind};
use crate::read_words::{form_in, volume_in};
use command_terms::Comparison;
use std::alloc::Global;

pub(crate) const NAME: &str = "diff";

pub(crate) const ABOUT: &str = "Shows how two images differ: in their trees, or field by field.";

pub(crate) const MORE: &str = "\
Examples:
  unixvol diff 7 old.img new.img                   which files, directories and links differ
  unixvol diff 7 old.img new.img --fields          what a call changed, field by field
  unixvol diff 7 old.img new.img --fields --all    the same, without lines for several fields

Without --fields the trees are compared, path by path, as `find` meets them. A path that differs has a line:
  A /new                                   only OTHER has it
  D /gone                                  only IMAGE has it
  M /bin/ls mode 0755 -> 0644, size 12 -> 20, bytes from 12
  M /b link to /a -> own file              it was another name of /a, and is a file of its own now
  T /x file -> directory                   it leads to something else
  U /deep path above 4096 bytes            both have it, and it is too long to be followed: what is below it isn't compared
Of a path that both have, these are compared: the kind, the permissions, the number of links, the owner, the group, the
time of the last write, a file's size and bytes, a special file's device, and which paths are names of one file. Of the
bytes the line has the first place that differs. I-numbers aren't compared, nor are the sizes of directories, and a
multiplexor of the seventh edition counts as the character or block file that it multiplexes. Nothing is printed if and
only if all that is equal and no path is above 4096 bytes. The sizes of the volumes may differ.

Of an image that isn't sound only what `find` meets is compared, and a line on standard error names its file.

With --fields the first line has the lengths of both volumes, if they differ: the bytes that only one has aren't compared,
nor those after a volume in its file. Then each block whose role differs has a line: what it is used for in IMAGE and in
OTHER. Then each field that differs has a line: the part of the volume that it is in, its name in the manual, and its
value in IMAGE and in OTHER. Fields and blocks are named by OTHER. If IMAGE has another field at this place, its bytes
aren't read as if they were this one: `(was free)` says what the block was used for, or which field was there. Of file
data and other bytes without a value the line says how many differ, and the places of the first and the last of them in
the block. A mode is printed in octal, a time in seconds.

Neighbouring blocks that changed alike, as those of one file that are free now, are one line, which names the roles of
the first. Nine or more fields of one array are one line too. Nothing is printed if and only if the volumes are equal
byte for byte.

With --json, one object is printed on one line. Its \"lines\" has an object for each line that would be printed, whose
\"line\" says which it is. By tree that is \"added\", \"gone\", \"changed\", \"turned\" or \"unseen\"; each has \"path\", and \"old\"
and \"new\", what IMAGE and OTHER have there, with all that is compared and not only what differs; \"first_byte\" is the
first place at which a file's bytes differ. With --fields it is \"length\", \"role\", \"field\", \"fields\" (of one array) or
\"bytes\"; \"old\" is null if IMAGE has another field at this place, and \"was\" says what. The status is the same.

The volumes need not be sound. Only rules 1 and 2 must hold: the image's size, and the sizes in its super-block.

Status:
  0  the volumes are equal, or without --fields their trees are; without --fields
     `unixvol: unsound, rule N: FILE` may follow: this is the first rule that the image in this file breaks
  1  they differ, or
     `unixvol: unsound, rule 1: FILE`: the image in this file is shorter than its super-block says
     `unixvol: unsound, rule 2: FILE`: the sizes in its super-block contradict one another
  2  the command line is wrong
  3  `unixvol: cannot read FILE`, or `unixvol: cannot write -`: standard output failed
  4  `unixvol: 12 NoMemory`";

const OTHER: Parameter = Parameter {
    name: "OTHER",
    kind: WordKind::Text,
    need: Need::Once,
    help: "The file that holds the other image, which is shown as the new one",
};

const BOTH_AT: Parameter = Parameter {
    name: "at",
    kind: WordKind::LongOr,
    need: Need::Value(None, ValueName::Block),
    help: "The block of both files, of 512 bytes, that their volumes begin at; by default 0",
};

const FIELDS: Parameter = Parameter {
    name: "fields",
    kind: WordKind::Flag,
    need: Need::Flag(None),
    help: "Compare field by field, not the trees",
};

const ALL: Parameter = Parameter {
    name: "all",
    kind: WordKind::Flag,
    need: Need::Flag(None),
    help: "With --fields, print a line for each field and each block",
};

const TIMES: Parameter = Parameter {
    name: "times",
    kind: WordKind::Flag,
    need: Need::Flag(None),
    help: "Compare also the times of the last read and of the i-node's last change, as --fields always does",
};

/// The words that `diff` takes.
pub(crate) const WORDS: &[Parameter] = &[EDITION, IMAGE, BOTH_AT, OTHER, TIMES, FIELDS, ALL, JSON];

/// Reads the words of `diff`.
pub(crate) fn read<'a, G: Given<'a>>(
    _alloc: Global,
    given: &G,
    _clock: Option<u32>,
) -> Result<Invocation<'a>, WordFault<'a>>
    ensures read { IfOk result (AsksFor _clock verbs.Diff (G.words given.now)) }
    ensures refused { IfErr result (TellsOf (IsOneWrong _clock (G.words given.now) (arguments_of verbs.Diff))) }
{
    let volume = volume_in(given)?;
    let other = text_in(given, "OTHER");
    let by = comparison_in(given);
    Ok(Invocation::Diff { volume, other, by })
}

/// Reads the way in which two images are compared, and the format.
fn comparison_in<'a, G: Given<'a>>(given: &G) -> Comparison
    ensures { IsComparisonGiven (G.words given.now) result }
{
    if flag_in(given, "fields") {
        Comparison::Fields {
            all: flag_in(given, "all"),
            form: form_in(given),
        }
    } else {
        Comparison::Tree {
            times: flag_in(given, "times"),
            form: form_in(given),
        }
    }
}
