//! The command `ls`.
ghost use Rattle.std.specs.Prelude.{◌≡◌, ◌≢◌, None, false, true, IfErr, IfOk};
ghost use Rattle.vol_listing.specs.Depths.{goes_below};
ghost use Rattle.vol_listing.specs.declared.options.Depth.{Depth};
ghost use Rattle.command_words.specs.Invocations.{AreLinesGiven, AsksFor, AsksForNothing, IsDepthGiven, TellsOf};
ghost use Rattle.command_words.specs.declared.verbs.Verb.TheVariants as verbs;

use crate::bad_words::{
    BAD, BAD_BLOCKS, CUT, LIKE, SIZES, bad_image_in, is_plain, look_at, losing_in,
};
use crate::fault::WordFault;
use crate::given::{Given, excluded, flag_in, text_in};
use crate::invocation::{BadImage, Invocation};
use crate::parameters::{AT, EDITION, IMAGE, JSON, Need, Parameter, UNSOUND, WordKind};
use crate::read_words::{form_in, volume_in};
use command_terms::{BadLook, Look};
use std::alloc::Global;
use vol_listing::{Depth, Lines, ListOptions};

pub(crate) const NAME: &str = "ls";

pub(crate) const ABOUT: &str = "Lists the names in a directory of a volume, or a file.";

pub(crate) const MORE: &str = "\
Examples:
  unixvol ls 7 disk.img /usr
  unixvol ls -l -R 7 disk.img
  unixvol ls -l -d 7 disk.img /usr/src
  unixvol ls --slots 7 disk.img /usr/src
  unixvol ls -l --cut 7 cut-off.img /usr

Each name has a line: the i-number, right-aligned in 5 columns, a space, and the name. Names are in ascending
order of their bytes, and include `.` and `..`. With -l, -R, -d or --json PATH may also be a file, which is then listed
alone.

With -l the i-number is followed by the kind and the permissions, as in -rw-r--r--, the number of links, the user,
the group, the size in bytes or the two numbers of a device, and the time of modification in UTC. With -R the
directories below are listed too, each after a line with its path and a colon. With -d a directory is listed like
a file, instead of the names in it, and -R has no effect. With --json the output is one object, whose \"entries\" has
an object for each name. A byte of a name or path that isn't printable ASCII is shown as a backslash and three octal digits: in
text only on a terminal, in JSON always.

With --slots, each 16-byte slot of the directory has a line, in order: the slot's number from 0 on, the i-number and the
name. The i-number of an empty slot is 0; its name is the one that was removed. A slot of zeros has no line. With
--json the output is one object, whose \"slots\" has an object for each line: \"slot\", \"ino\" and \"name\". The other
options have no effect then. The volume need not be sound: only rules 1 and 2 are checked, the image's size, and the
sizes in its super-block.

A path starts at the root, with or without a leading slash. Repeated slashes count as one, trailing slashes are
ignored, and each name is cut to 14 bytes. Without --slots and --unsound the volume must be sound: its twelve rules are
checked first.

With --unsound, what is there is listed even if the volume breaks one of rules 3 to 12, which a line names. An i-node
that was damaged is listed as it is. -R can't be used then, since a directory of an unsound volume may be within
itself; `unixvol find` prints the paths of everything below.

With --cut, --bad, --bad-blocks, --sizes and --like, blocks of the image are lost, as `unixvol export --help` says of
them. The names are those that can be read without these blocks. A line on standard error tells what is lost of each
node that is listed, but for `.` and `..`, and of the directory or of the last one on the way there that isn't whole.
An i-node that is lost is listed with zeros and a question mark, in JSON with null, in place of its kind, and has a
line. If PATH isn't found, or doesn't lead to what can be listed, and something is lost on the way, a line says what
is lost, and nothing is listed. -R and --slots can't be used then. If no block is lost after all, the options do what --unsound does.

Status:
  0  the names were printed
  1  `unixvol: unsound, rule N`: this is the first rule that the volume breaks; `unixvol check` says what breaks it;
     nothing was printed, or, with --unsound and from rule 3 on, the names were
     if blocks are lost (--cut, --bad, --bad-blocks, --sizes, --like): nothing that is listed is damaged
     `unixvol: 2 NoEntry`: there is no such file or directory
     `unixvol: 20 NotDirectory`: PATH leads through something that isn't a directory; or, with --slots or without -l,
     -R, -d and --json, PATH isn't a directory itself
  2  the command line is wrong; or no volume of the edition has the sizes of --sizes or --like
  3  `unixvol: cannot read IMAGE`, or `unixvol: cannot write -`: standard output failed; or MAPFILE can't be read
  4  `unixvol: 12 NoMemory`
  5  if blocks are lost: something that is listed is damaged, or PATH leads to nothing that can be listed and something
     is lost on the way, as standard error says
  6  if blocks are lost: more than 1048576 blocks of the image are missing; or its super-block is lost, and neither
     --sizes nor --like is given";

const PATH: Parameter = Parameter {
    name: "PATH",
    kind: WordKind::Text,
    need: Need::Maybe,
    help: "The path of a directory in the volume, or, with -l, -R, -d or --json, of a file; by default, the root",
};

const LONG: Parameter = Parameter {
    name: "long",
    kind: WordKind::Flag,
    need: Need::Flag(Some('l')),
    help: "Show what each i-node says: kind, permissions, links, owner, size and time",
};

const RECURSIVE: Parameter = Parameter {
    name: "recursive",
    kind: WordKind::Flag,
    need: Need::Flag(Some('R')),
    help: "List the directories below too",
};

const DIRECTORY: Parameter = Parameter {
    name: "directory",
    kind: WordKind::Flag,
    need: Need::Flag(Some('d')),
    help: "List a directory itself, instead of the names in it",
};

const SLOTS: Parameter = Parameter {
    name: "slots",
    kind: WordKind::Flag,
    need: Need::Flag(None),
    help: "List the directory's slots, and the names that were removed",
};

/// The words that `ls` takes.
pub(crate) const WORDS: &[Parameter] = &[
    EDITION, IMAGE, AT, PATH, LONG, RECURSIVE, DIRECTORY, JSON, SLOTS, UNSOUND, CUT, BAD,
    BAD_BLOCKS, SIZES, LIKE,
];

/// Reads the words of `ls`.
pub(crate) fn read<'a, G: Given<'a>>(
    alloc: Global,
    given: &G,
    _clock: Option<u32>,
) -> Result<Invocation<'a>, WordFault<'a>>
    ensures read { IfOk result (AsksFor _clock verbs.Ls (G.words given.now)) }
    ensures refused { IfErr result (TellsOf (AsksForNothing _clock verbs.Ls (G.words given.now))) }
{
    let volume = volume_in(given)?;
    let path = text_in(given, "PATH");
    let cut = flag_in(given, "cut");
    let bad = bad_image_in(alloc, given, volume.edition, cut)?;
    if flag_in(given, "slots") {
        no_slots(given, &bad)?;
        let look = Look::Slots {
            path,
            form: form_in(given),
        };
        return Ok(Invocation::Look { volume, look });
    }
    if is_plain(given, &bad) {
        let listing = ListOptions {
            lines: lines_in(given),
            depth: depth_in(given),
        };
        let look = Look::List { path, listing };
        return Ok(Invocation::Look { volume, look });
    }
    let listing = level_in(given)?;
    Ok(look_at(volume, bad, BadLook::List { path, listing }))
}

/// Reads the options of a listing without the directories below, which have no end if a volume that need not be sound has a directory within itself.
fn level_in<'a, G: Given<'a>>(given: &G) -> Result<ListOptions, WordFault<'a>>
    ensures lines { IfOk result (λ listing. AreLinesGiven (G.words given.now) listing.lines) }
    ensures depth { IfOk result (λ listing. IsDepthGiven (G.words given.now) listing.depth) }
    ensures level { IfOk result (λ listing. goes_below listing.depth ≡ false) }
    ensures refused { IfErr result (TellsOf ((depth : Depth) × IsDepthGiven (G.words given.now) depth × (goes_below depth ≡ true))) }
{
    let depth = depth_in(given);
    match depth {
        Depth::Below => {
            let other = losing_in(given, flag_in(given, "unsound"));
            Err(excluded("recursive", other, RECURSIVE.help))
        }
        Depth::Itself | Depth::Names => Ok(ListOptions {
            lines: lines_in(given),
            depth,
        }),
    }
}

/// Succeeds if no block of the image is lost: slots are shown as they are stored.
fn no_slots<'a, G: Given<'a>>(given: &G, bad: &Option<BadImage<'a>>) -> Result<(), WordFault<'a>>
    ensures none { IfOk result (λ _. bad.now ≡ None) }
    ensures refused { IfErr result (TellsOf (bad.now ≢ None)) }
{
    match bad {
        None => Ok(()),
        Some(_) => Err(excluded("slots", losing_in(given, false), SLOTS.help)),
    }
}

/// Reads the format of the lines.
fn lines_in<'a, G: Given<'a>>(given: &G) -> Lines
    ensures { AreLinesGiven (G.words given.now) result }
{
    if flag_in(given, "json") {
        Lines::Json
    } else if flag_in(given, "long") {
        Lines::Long
    } else {
        Lines::Plain
    }
}

/// Reads the depth of a listing.
fn depth_in<'a, G: Given<'a>>(given: &G) -> Depth
    ensures { IsDepthGiven (G.words given.now) result }
{
    if flag_in(given, "directory") {
        Depth::Itself
    } else if flag_in(given, "recursive") {
        Depth::Below
    } else {
        Depth::Names
    }
}
