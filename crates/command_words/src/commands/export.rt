//! The command `export`.
ghost use Rattle.std.specs.Prelude.{IfErr, IfOk};
ghost use Rattle.command_words.specs.Invocations.{AsksFor, AsksForNothing, TellsOf};
ghost use Rattle.command_words.specs.declared.verbs.Verb.TheVariants as verbs;

use crate::bad_words::{BAD, BAD_BLOCKS, CUT, DAMAGED, LIKE, SIZES, bad_image_in, look_at};
use crate::fault::WordFault;
use crate::given::{Given, flag_in, text_in};
use crate::invocation::Invocation;
use crate::parameters::{AT, BELOW, EDITION, IMAGE, LOST, Need, Parameter, WordKind};
use crate::read_words::volume_in;
use command_terms::{BadLook, ExportOptions, LossOptions};
use std::alloc::Global;

pub(crate) const NAME: &str = "export";

pub(crate) const ABOUT: &str =
    "Writes everything below a directory as a tar archive, even from an unsound image.";

pub(crate) const MORE: &str = "\
Examples:
  unixvol export 7 disk.img /usr > usr.tar
  unixvol export --lost --status 7 damaged.img > all.tar
  unixvol export --cut 7 cut-off.img > whole-files.tar
  unixvol export --bad rescue.map 7 rescued.img > whole-files.tar
  unixvol export --bad-blocks 12,878-900 --like rk05 7 damaged.img > whole-files.tar

A POSIX ustar archive is written to standard output: files, directories and special files, with their permissions,
owners and times of modification. The second and further names of a file are links to the first. Members are
sorted by name, with paths that start at PATH, and without --lost no path occurs twice. A header of pax comes before
a member whose path or link is too long for its own header, with --damaged before one with lost bytes, and before no
other. Paths above 4096 bytes are left out.

The volume need not be sound. Only rules 1 and 2 are checked: the image's size, and the sizes in its super-block.
Everything that entries lead to, from PATH on, is exported. Anything left out, and anything wrong with the volume,
has a line on standard error, and the status is then 1. There is a line for
  - an entry that is left out, with the reason
  - an i-node that no entry of the volume names, if rules 1 to 7 hold, or with --lost or --status
  - with --lost, an i-node that is out of reach and is exported under its number
  - a block that two files use
  - the first rule that the volume breaks
If a directory has a name more than once, the first entry counts, and the others have no line.

With --lost, i-nodes that no entry names are exported too, with everything below them, each under its number:
lost+found/#96 is i-node 96, and the line of i-node 96 says so; if the volume has another file of this name, the archive
has both. Each keeps its owner and its time. If an i-node is
still out of reach, as in a ring of directories that name only one another, the least such i-node is exported in the
same way, and so on. So if PATH is the root, every i-node of a known kind is exported. If the root is no directory,
these are all that is exported: names are known only below them. A root that is a file has its number too.

With --cut, the image may be shorter than its volume, as after a transfer that broke off; its first 1024 bytes must be
there. A block that isn't wholly there is lost. The bytes of each file are right, whatever the lost blocks held: one of
which something is lost is left out, or with --damaged written with zeros in place of the lost bytes. If blocks are
lost, the lines on standard error say what is lost, and no more:
  unixvol: 3994 of 4872 blocks are lost
  unixvol: i-nodes 17 to 24 are lost
  unixvol: usr: names may be missing: 512 of 1024 bytes are lost: 512-1023
  unixvol: bin/ls: i-node 17 is lost
  unixvol: f4: 10400 of 100000 bytes are lost: 89600-99999
With --damaged the archive tells it too: before a file with lost bytes, and before each further name of it, a header
of pax has the words of its line as a comment, as `comment=10400 of 100000 bytes are lost: 89600-99999`.

A path through a directory with lost bytes may not be found, and with --lost files whose names are lost are below
lost+found. If PATH isn't found and something is lost on the way, nothing is exported, and a line says what is lost:
  unixvol: /usr: i-node 17 is lost
A file that is left out may be whole in another copy of the image; nothing says that it isn't.

With --bad, the image was copied from a medium of which some blocks couldn't be read, and MAPFILE is the map that GNU
ddrescue kept of it. It is of all of IMAGE, also with --at. Each block of 512 bytes that the map doesn't call
finished (+) as a whole is lost, whatever the image has in its place; so is each that the map doesn't cover, or that
isn't wholly there, as with --cut. All else is as with --cut. With --bad-blocks, the blocks of the volume that LIST
names are lost: numbers and ranges, as 12,878-4871, strictly ascending. They count from the volume's first block, where
--bad counts from that of IMAGE; a number or range that begins behind the volume is refused, with status 3.

If the super-block is lost, its sizes aren't known, and rule 2 is broken. Then --sizes or --like gives them: FSIZE
blocks with IBLOCKS of them for the i-list, as `mkfs` takes them, or those of a volume that `mkfs` makes for DISK.
Block 1 is then lost, whatever the image has in it. IMAGE may then be shorter, as with --cut. With the wrong sizes,
the i-list and the data are taken to be where they aren't: see that the members are what you know to be on the volume.

Status:
  0  everything was exported, and the volume is sound
  1  everything that entries lead to was exported, except what standard error says; or nothing was exported:
     `unixvol: unsound, rule 1`: the image is shorter than its super-block says
     `unixvol: unsound, rule 2`: the sizes in the super-block contradict one another
     `unixvol: 2 NoEntry`: there is no such file or directory
     `unixvol: 20 NotDirectory`: PATH isn't a directory, or leads through something that isn't one. Of a root that
     isn't one, --lost exports what is left
     if blocks are lost (--cut, --bad, --bad-blocks, --sizes, --like): nothing is damaged or left out
  2  the command line is wrong
     `unixvol: no volume has 5 blocks with an i-list of 9`: --sizes, or --like in the sixth edition, breaks rule 2, and nothing
     was exported
  3  `unixvol: cannot read IMAGE`, or `unixvol: cannot write -`: standard output failed, or is a terminal
     `unixvol: rescue.map: line 7: the size is no number`: MAPFILE can't be read, and nothing was exported
  4  `unixvol: 12 NoMemory`
  5  with --status: something was left out, as standard error says; 1 then means that the volume isn't sound, but
     nothing was left out, or that PATH leads to no directory, and nothing was exported
     if blocks are lost: something is damaged or left out, or PATH isn't found and something is lost on the way,
     as standard error says
  6  with --status: rule 1 or 2 doesn't hold, so the image has no volume of this edition, and nothing was exported
     `unixvol: the image has 2 of 2000000 blocks`: more than 1048576 blocks are missing for one of
     these options";

const GRADED: Parameter = Parameter {
    name: "status",
    kind: WordKind::Flag,
    need: Need::Flag(None),
    help: "Exit with status 5 if something isn't exported, and 6 if the image has no volume of this edition",
};

/// The words that `export` takes.
pub(crate) const WORDS: &[Parameter] = &[
    EDITION, IMAGE, AT, BELOW, LOST, CUT, BAD, BAD_BLOCKS, SIZES, LIKE, DAMAGED, GRADED,
];

/// Reads the words of `export`.
pub(crate) fn read<'a, G: Given<'a>>(
    alloc: Global,
    given: &G,
    _clock: Option<u32>,
) -> Result<Invocation<'a>, WordFault<'a>>
    ensures read { IfOk result (AsksFor _clock verbs.Export (G.words given.now)) }
    ensures refused { IfErr result (TellsOf (AsksForNothing _clock verbs.Export (G.words given.now))) }
{
    let volume = volume_in(given)?;
    let bad = bad_image_in(alloc, given, volume.edition, false)?;
    let options = ExportOptions {
        lost: flag_in(given, "lost"),
        graded: flag_in(given, "status"),
        losses: LossOptions {
            cut: flag_in(given, "cut"),
            damaged: flag_in(given, "damaged"),
        },
    };
    let look = BadLook::Export {
        path: text_in(given, "PATH"),
        options,
    };
    Ok(look_at(volume, bad, look))
}
