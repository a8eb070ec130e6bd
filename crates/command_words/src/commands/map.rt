//! The command `map`.
ghost use Rattle.std.specs.Prelude.{◌≡◌, ◌≢◌, false, true, None, IfErr, IfOk, codes, slice_get};
ghost use Rattle.command_words.specs.Invocations.{AsksFor, AsksForNothing, IsPictureGiven, TellsOf, is_set};
ghost use Rattle.command_words.specs.declared.verbs.Verb.TheVariants as verbs;

use crate::bad_words::{BAD, BAD_BLOCKS, CUT, LIKE, SIZES, bad_image_in, look_at, losing_in};
use crate::fault::WordFault;
use crate::given::{Given, excluded, flag_in};
use crate::invocation::{BadImage, Invocation};
use crate::parameters::{AT, EDITION, IMAGE, JSON, Need, Parameter, ValueName, WordKind};
use crate::read_words::volume_in;
use command_terms::{BadLook, Look, Picture};
use std::alloc::Global;

pub(crate) const NAME: &str = "map";

pub(crate) const ABOUT: &str = "Draws what each block of a volume is used for.";

pub(crate) const MORE: &str = "\
Examples:
  unixvol map 7 disk.img
  unixvol map --svg 7 disk.img > disk.svg
  unixvol map --bad disk.map 7 disk.img
  unixvol map --file /etc/passwd 7 disk.img
  unixvol map --json 7 disk.img | jq '.map[] | select(.use == \"lost\")'

Each block is drawn as a letter. A row begins with the number of its first block, and the legend below has the
number of blocks of each use. In a large volume one letter stands for several blocks, and shows the use of most of
them; if several uses have as many, it is the first of these: named twice, lost, super-block, boot, i-list,
directory, pointer (an indirect block), file, chain (a block that continues the free list), free. It is `!` if some
of the blocks are lost or named twice, and another use has most.

With --file, only the blocks of the file or directory at PATH have letters, its indirect blocks too; all others are
shown as dots. A letter is then for the blocks of the file in its cell.

On a terminal the letters have colours, unless the variable NO_COLOR is not empty or TERM is `dumb`, and a row is as
wide as COLUMNS says.

With --svg, each square says which blocks it is for when the pointer is over it, and what they are used for; the square
of one block says which i-node has it, and where in that it is.

With --json, one object is printed on one line. Its \"map\" has an object for each run of blocks with one use: \"block\",
the first of them, \"count\" and \"use\".

The volume need not be sound. Only rules 1 and 2 are checked: the image's size, and the sizes in its super-block.

With --cut, --bad, --bad-blocks, --sizes and --like, blocks of the image are lost, as `unixvol export --help` says of
them. A block that is lost is drawn as `U`, unreadable; one that nothing that is left uses as `?`, unknown: it is not
called lost, since a lost block may be what names it. Any other use that is shown is that of the block in the volume,
whatever the lost blocks held, unless one of them names the block once more. A letter for several blocks is `%` if some
of them are unreadable or of unknown use, another use has most, and none is lost or named twice. With --svg, a square
says only what its blocks are used for. With --json, \"use\" is \"unreadable\" or \"unknown\" then. A line on standard
error says how many blocks are lost. --file can't be used then. If no block is lost after all, the options change
nothing.

Status:
  0  the blocks were drawn
  1  `unixvol: unsound, rule 1`: the image is shorter than its super-block says
     `unixvol: unsound, rule 2`: the sizes in the super-block contradict one another
     `unixvol: 2 NoEntry`, `unixvol: 20 NotDirectory`: PATH of --file leads to nothing
  2  the command line is wrong; or no volume of the edition has the sizes of --sizes or --like
  3  `unixvol: cannot read IMAGE`, or `unixvol: cannot write -`: standard output failed; or MAPFILE can't be read
  4  `unixvol: 12 NoMemory`
  5  blocks are lost (--cut, --bad, --bad-blocks, --sizes, --like), and what is known of the blocks was drawn
  6  if blocks are lost: more than 1048576 blocks of the image are missing; or its super-block is lost, and neither
     --sizes nor --like is given";

const SVG: Parameter = Parameter {
    name: "svg",
    kind: WordKind::Flag,
    need: Need::Flag(None),
    help: "Draw an SVG picture, for a browser; not with --json",
};

const FILE: Parameter = Parameter {
    name: "file",
    kind: WordKind::Text,
    need: Need::Value(None, ValueName::Path),
    help: "Show only the blocks of this file or directory; not with --json, and not if blocks are lost",
};

/// The words that `map` takes.
pub(crate) const WORDS: &[Parameter] = &[
    EDITION, IMAGE, AT, SVG, CUT, BAD, BAD_BLOCKS, SIZES, LIKE, JSON, FILE,
];

/// Reads the words of `map`.
pub(crate) fn read<'a, G: Given<'a>>(
    alloc: Global,
    given: &G,
    _clock: Option<u32>,
) -> Result<Invocation<'a>, WordFault<'a>>
    ensures read { IfOk result (AsksFor _clock verbs.Map (G.words given.now)) }
    ensures refused { IfErr result (TellsOf (AsksForNothing _clock verbs.Map (G.words given.now))) }
{
    let volume = volume_in(given)?;
    let cut = flag_in(given, "cut");
    let bad = bad_image_in(alloc, given, volume.edition, cut)?;
    if flag_in(given, "json") {
        no_svg(given)?;
        no_file(given)?;
        return Ok(look_at(volume, bad, BadLook::Uses));
    }
    let picture = picture_in(given);
    match given.first("file") {
        None => Ok(look_at(volume, bad, BadLook::Map { picture })),
        Some(path) => {
            no_losses(given, &bad)?;
            let file = Some(path);
            let look = Look::Map { picture, file };
            Ok(Invocation::Look { volume, look })
        }
    }
}

/// Succeeds if the words don't request a picture for a browser, which isn't JSON.
fn no_svg<'a, G: Given<'a>>(given: &G) -> Result<(), WordFault<'a>>
    ensures none { IfOk result (λ _. is_set (G.words given.now (codes "svg")) ≡ false) }
    ensures refused { IfErr result (TellsOf (is_set (G.words given.now (codes "svg")) ≡ true)) }
{
    if flag_in(given, "svg") {
        Err(excluded("svg", "json", SVG.help))
    } else {
        Ok(())
    }
}

/// Succeeds if the words don't name a file, whose blocks aren't shown as JSON.
fn no_file<'a, G: Given<'a>>(given: &G) -> Result<(), WordFault<'a>>
    ensures none { IfOk result (λ _. slice_get (G.words given.now (codes "file")) 0 ≡ None) }
    ensures refused { IfErr result (TellsOf (slice_get (G.words given.now (codes "file")) 0 ≢ None)) }
{
    match given.first("file") {
        None => Ok(()),
        Some(_) => Err(excluded("file", "json", FILE.help)),
    }
}

/// Succeeds if no block of the image is lost: the blocks of one file are shown only of an image that was read whole.
fn no_losses<'a, G: Given<'a>>(given: &G, bad: &Option<BadImage<'a>>) -> Result<(), WordFault<'a>>
    ensures none { IfOk result (λ _. bad.now ≡ None) }
    ensures refused { IfErr result (TellsOf (bad.now ≢ None)) }
{
    match bad {
        None => Ok(()),
        Some(_) => Err(excluded("file", losing_in(given, false), FILE.help)),
    }
}

/// Reads the format of a picture of the blocks.
fn picture_in<'a, G: Given<'a>>(given: &G) -> Picture
    ensures { IsPictureGiven (G.words given.now) result }
{
    if flag_in(given, "svg") {
        Picture::Svg
    } else {
        Picture::Cells
    }
}
