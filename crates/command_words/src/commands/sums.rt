//! The command `sums`.
ghost use Rattle.std.specs.Prelude.{IfErr, IfOk};
ghost use Rattle.command_words.specs.Invocations.{AsksFor, AsksForNothing, TellsOf};
ghost use Rattle.command_words.specs.declared.verbs.Verb.TheVariants as verbs;

use crate::bad_words::{BAD, BAD_BLOCKS, CUT, LIKE, SIZES, bad_image_in, look_at};
use crate::fault::WordFault;
use crate::given::{Given, flag_in, text_in};
use crate::invocation::Invocation;
use crate::parameters::{AT, BELOW, EDITION, IMAGE, JSON, LOST, Parameter};
use crate::read_words::{form_in, volume_in};
use command_terms::BadLook;
use std::alloc::Global;

pub(crate) const NAME: &str = "sums";

pub(crate) const ABOUT: &str =
    "Prints a manifest of everything below a directory, with the SHA-256 of each file.";

pub(crate) const MORE: &str = "\
Examples:
  unixvol sums 7 disk.img > disk.sums
  unixvol sums 7 disk.img | grep -v '^-' | cut -c 1-65,119- > SHA256SUMS
  unixvol sums --json 7 disk.img /usr | jq -r '.entries[].path'
  unixvol sums --lost 7 damaged.img
  unixvol sums --cut 7 cut-off.img
  diff <(unixvol sums 7 old.img) <(unixvol sums 7 disk.img)

Each file, directory and special file has a line, in the order of `unixvol export`: the SHA-256 of a regular file's
bytes, or a dash; the mode, owner, group, size and time of modification, as `unixvol ls -l` shows them; and the path,
which starts at PATH. Each name of a file has a line. In a path, a byte that isn't printable ASCII is shown as a
backslash and three octal digits, and a backslash is doubled.

The second example makes a list that `sha256sum -c` reads, in the folder where an archive of `unixvol export` was
extracted, if no path is escaped. The last one, for bash, compares two volumes by what is in them. A directory's size
counts its empty slots, so that of a copy may differ.

With --json, one object is printed on one line. Its \"entries\" has an object for each node: that of `unixvol ls --json`,
and \"sha256\", which is null if the node isn't a regular file. A path then begins with PATH, as in `unixvol find`.

The volume need not be sound. Only rules 1 and 2 are checked: the image's size, and the sizes in its super-block.
Anything left out, and anything wrong with the volume, has a line on standard error, as with `unixvol export`, and
the status is then 1. Nothing is printed before everything is known.

With --lost, i-nodes that no entry names, or that are out of reach, are in the manifest too, with everything below
them, at the paths that they have in an archive of `unixvol export --lost`: lost+found/#96 is i-node 96. If the root
is no directory, these are all that is printed.

With --cut, --bad, --bad-blocks, --sizes and --like, blocks of the image are lost, as `unixvol export --help` says of
them. A file of which bytes are lost has a dash too, and with --json also \"lost\", its lost bytes: arrays of the first
and the one after the last; so has a directory. The lines on standard error are then those of that export. Each
SHA-256 is right, whatever the lost blocks held, and so are the other columns but the path. Names are those that
are left: an entry whose i-node is lost has only a line on standard error. If
PATH isn't found and something is lost on the way, a line says what is lost, and nothing is printed.

Status:
  0  everything is in the manifest, and the volume is sound
  1  everything that entries lead to is in the manifest, except what standard error says; or nothing was printed:
     `unixvol: unsound, rule 1`: the image is shorter than its super-block says
     `unixvol: unsound, rule 2`: the sizes in the super-block contradict one another
     `unixvol: 2 NoEntry`: there is no such file or directory
     `unixvol: 20 NotDirectory`: PATH isn't a directory, or leads through something that isn't one. Of a root that
     isn't one, --lost shows what is left
     if blocks are lost (--cut, --bad, --bad-blocks, --sizes, --like): nothing is damaged or left out
  2  the command line is wrong; or no volume of the edition has the sizes of --sizes or --like
  3  `unixvol: cannot read IMAGE`, or `unixvol: cannot write -`: standard output failed; or MAPFILE can't be read
  4  `unixvol: 12 NoMemory`
  5  if blocks are lost: something is damaged or left out, or PATH isn't found and something is lost on the way,
     as standard error says
  6  if blocks are lost: more than 1048576 blocks of the image are missing; or its super-block is lost, and neither
     --sizes nor --like is given";

/// The words that `sums` takes.
pub(crate) const WORDS: &[Parameter] = &[
    EDITION, IMAGE, AT, BELOW, LOST, CUT, BAD, BAD_BLOCKS, SIZES, LIKE, JSON,
];

/// Reads the words of `sums`.
pub(crate) fn read<'a, G: Given<'a>>(
    alloc: Global,
    given: &G,
    _clock: Option<u32>,
) -> Result<Invocation<'a>, WordFault<'a>>
    ensures read { IfOk result (AsksFor _clock verbs.Sums (G.words given.now)) }
    ensures refused { IfErr result (TellsOf (AsksForNothing _clock verbs.Sums (G.words given.now))) }
{
    let volume = volume_in(given)?;
    let cut = flag_in(given, "cut");
    let bad = bad_image_in(alloc, given, volume.edition, cut)?;
    let look = BadLook::Sums {
        path: text_in(given, "PATH"),
        form: form_in(given),
        lost: flag_in(given, "lost"),
    };
    Ok(look_at(volume, bad, look))
}
