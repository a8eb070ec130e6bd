//! The command `identify`.
ghost use Rattle.std.specs.Prelude.{IfErr, IfOk};
ghost use Rattle.command_words.specs.Invocations.{AreTwoFormsGiven, AsksFor, AsksForNothing, IsGuessFormGiven, TellsOf};
ghost use Rattle.command_words.specs.declared.verbs.Verb.TheVariants as verbs;

use crate::fault::WordFault;
use crate::given::{Given, excluded, flag_in};
use crate::invocation::{GuessForm, Invocation};
use crate::parameters::{JSON, Need, Parameter, WordKind};
use std::alloc::Global;
use vol_listing::Lines;

pub(crate) const NAME: &str = "identify";

pub(crate) const ABOUT: &str = "Guesses what images are whose edition isn't known.";

pub(crate) const MORE: &str = "\
Examples:
  unixvol identify pack.img other.img
  unixvol identify --json *.img
  unixvol identify -r archive > found.txt

Each image has a line: its path, and what it looks like. That is a guess by a few bytes; nothing is changed. All
other commands must be told the edition. A file in which a volume begins after block 0, or in which a whole block that
isn't all zeros follows a volume, is a pack, and has lines:

  PATH: looks like a larger pack
    at K: a volume of edition N, with B blocks, sound: unixvol ls N PATH --at K
    at K: a volume of edition N, with B blocks, which breaks rule R: unixvol check N PATH --at K
    at K: C blocks of zeros
    at K: C blocks of other bytes
    at K: C bytes follow

K is the first block of each part, and the command goes on with it: PATH has a shell's quotes there if it needs them,
and ./ before it if it begins with a hyphen. Control characters in PATH are printed as a backslash and three octal
digits, in a command between $' and '. What is inside a volume isn't looked at. The last line is for the bytes
after the last whole block; after the line of a volume it is printed too. Where the last volume ends, one that is cut
off is named too: it breaks rule 1. Elsewhere its blocks are other bytes. Of other files the first of these that fits
is printed:

  looks like a volume of edition N, with B blocks, sound
  looks empty: it has no bytes but zeros
  looks packed by NAME                               gzip, bzip2, xz, zstd or zip, by the first bytes
  looks like an archive of tar                       the first block is a header of POSIX, GNU tar or V7's tar
  looks like .., which breaks rule R                 the first that `unixvol check` says is broken
  looks like .., with each pair of bytes exchanged   `dd conv=swab` exchanges them again
  looks like a volume of ext2, ext3 or ext4
  looks like .., cut off after C                     only the first C blocks are there
  looks like a tape in the format of SIMH            its first record is between its length and its length
  looks like a tape of V7's dump                     its header, with its checksum
  looks like a tape of tp                            the first 8 entries of its directory, with their checksums
  looks like a volume of FAT                         the fields of its boot sector, and its signature
  looks like a disk of RT-11, or of Files-11         the name in its home block; of Files-11 also the checksum
  looks like a larger pack: at block K begins ..     only of a pipe or a device, which isn't searched further
  looks like nothing that unixvol knows

A volume has sizes that fit (rules 1 and 2), and a free list that can begin so or a root that is a directory. One
that is swapped, cut off or further on has all three. If both editions fit, the sixth is named. What has all three
at its beginning is a volume, whatever its first block has.

A regular file is searched for volumes to its end; then each volume is read, one at a time. The guess is by at most
268435456 bytes; or, if a volume may begin them, by that volume and one block more. If the bytes after them could
change the guess, its line ends with `, by its first 268435456 bytes`. All lines of an image are printed before
the next one is read.

With -r an IMAGE may be a folder: all regular files below it have their lines, as they are found. In each folder the
files come first, then its folders, each in the order of their names' bytes. Symbolic links and special files below
it are left out. A folder that can't be read, or that has a name which isn't UTF-8, has the line
`unixvol: cannot read FOLDER` on standard error, and the files in it whose names are UTF-8 have theirs.

With --json each image is one object on a line:

  bytes    the size of a regular file; null of another
  file     the path, as it was given
  format   1
  guess    pack, volume, empty, tar, ext2, swapped, cut, inside, unknown; simh, dump, tp, fat, rt11, files11; or
           gzip, bzip2, xz, zstd, zip
  parts    of a pack all that it has, in order; else the volume that the guess names, if it names one
  read     the number of bytes that the guess is by; null of a pack, which was read to its end
  tail     the number of bytes after the last whole block of a regular file; null of another

A part that is a volume has block, blocks, edition, and, if it was judged, sound, rule (the first that it breaks, or
null) and command. Any other part has block, blocks and zeros, which is true if all its bytes are. A file without a
line has an object with fault, file and format: the
fault is `cannot read` or `12 NoMemory`.

With --csv a catalogue is printed, as a table of comma-separated values (RFC 4180, with a newline after each row): a
row of headings, then one for each volume of each image: file, bytes, sha256 (of the whole file), block, edition,
blocks, free_blocks (up to the first fault of the free list), files (regular ones), verdict (`sound`, or `rule R` for
the first that it breaks) and time (of its last change, in universal time). A volume that is cut off breaks rule 1, and
its free_blocks, files and time are empty. A file in which no volume is named has no row and no other line, and its
status is 0: an empty one, an archive, a volume with exchanged bytes or whose sizes break rule 2, a disk of another
system. All must be regular files: each is read to its end twice, and then each volume once more; one volume at a
time is in memory.

Status, the greatest if there are several:
  0  all images were read
  2  the command line is wrong
  3  `unixvol: cannot read IMAGE`, or a folder: the others were read; or `unixvol: cannot write -`: standard output
     failed, and the images after that line weren't read
  4  `unixvol: 12 NoMemory: IMAGE`: the others were read";

const IMAGES: Parameter = Parameter {
    name: "IMAGE",
    kind: WordKind::Text,
    need: Need::Several,
    help: "The disk images, one or more",
};

const CSV: Parameter = Parameter {
    name: "csv",
    kind: WordKind::Flag,
    need: Need::Flag(None),
    help: "Print a catalogue of volumes, as comma-separated values; not with --json",
};

const RECURSIVE: Parameter = Parameter {
    name: "recursive",
    kind: WordKind::Flag,
    need: Need::Flag(Some('r')),
    help: "Look at all regular files below each IMAGE that is a folder",
};

/// The words that `identify` takes.
pub(crate) const WORDS: &[Parameter] = &[IMAGES, JSON, CSV, RECURSIVE];

/// Reads the words of `identify`.
pub(crate) fn read<'a, G: Given<'a>>(
    alloc: Global,
    given: &G,
    _clock: Option<u32>,
) -> Result<Invocation<'a>, WordFault<'a>>
    ensures read { IfOk result (AsksFor _clock verbs.Identify (G.words given.now)) }
    ensures refused { IfErr result (TellsOf (AsksForNothing _clock verbs.Identify (G.words given.now))) }
{
    let images = given.all(alloc, "IMAGE")?;
    let form = guess_form_in(given)?;
    Ok(Invocation::Identify {
        images,
        form,
        is_deep: flag_in(given, "recursive"),
    })
}

/// Reads the format of guesses. JSON and a catalogue exclude each other.
fn guess_form_in<'a, G: Given<'a>>(given: &G) -> Result<GuessForm, WordFault<'a>>
    ensures read { IfOk result (IsGuessFormGiven (G.words given.now)) }
    ensures refused { IfErr result (TellsOf (AreTwoFormsGiven (G.words given.now))) }
{
    match (flag_in(given, "json"), flag_in(given, "csv")) {
        (false, false) => Ok(GuessForm::Lines),
        (true, false) => Ok(GuessForm::Json),
        (false, true) => Ok(GuessForm::Catalogue),
        (true, true) => Err(excluded("csv", "json", CSV.help)),
    }
}
