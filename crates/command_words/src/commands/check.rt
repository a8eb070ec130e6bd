//! The command `check`.
ghost use Rattle.std.specs.Prelude.{IfErr, IfOk};
ghost use Rattle.command_words.specs.Invocations.{AsksFor, AsksForNothing, TellsOf};
ghost use Rattle.command_words.specs.declared.verbs.Verb.TheVariants as verbs;

use crate::bad_words::{BAD, BAD_BLOCKS, CUT, LIKE, SIZES, bad_image_in, look_at};
use crate::fault::WordFault;
use crate::given::{Given, flag_in};
use crate::invocation::Invocation;
use crate::parameters::{AT, EDITION, IMAGE, JSON, Need, Parameter, WordKind};
use crate::read_words::{form_in, volume_in};
use command_terms::BadLook;
use std::alloc::Global;

pub(crate) const NAME: &str = "check";

pub(crate) const ABOUT: &str = "Checks a volume against the twelve rules of soundness.";

pub(crate) const MORE: &str = "\
Examples:
  unixvol check 7 disk.img
  unixvol check --status 7 disk.img
  unixvol check --cut 7 cut-off.img
  unixvol check --json 7 disk.img | jq '.rules[] | select(.holds != true)'

Each rule has a line: what it requires, and whether it holds. If it doesn't, the line says what breaks it first,
with the i-number, the block, or the directory and its slot. A rule is not checked if it needs another rule that
doesn't hold; its line says so. If rule 1 or 2 fails and the image could be of the other edition, a last line says
so. Nothing is changed. With --explain, if a rule doesn't hold, a line on standard error names the documents that
have the rules and the definition of each.

With --cut, --bad, --bad-blocks, --sizes and --like, blocks of the image are lost, as `unixvol export --help` says of
them. Rule 1 is then broken. The first violation of rule 3, 4 or 9 in what is left is named if it rests on no lost block: an
i-node that isn't lost, or a directory of which nothing is. The volume breaks that rule then, whatever these blocks
held. If it rests on one, the rule's line says `not asked`, and further violations aren't looked for. If no violation
of rules 3 to 7 and 9 is found, what is left doesn't break them. All else is not checked: rules 8 and 10 to 12 speak
of all blocks, or of what isn't there. No line tells of the other edition. With --sizes and --like, a violation is
one of a volume of these sizes.

With --json, one object is printed on one line: \"edition\", \"other_edition\" (the one that fits instead, or null),
\"sound\", and \"rules\", an object for each rule: \"rule\", \"needs\" (what it requires), \"holds\" (null if it isn't
checked, or only what is left is known), \"finding\" (what breaks it first) and \"at\" (its place).

Status:
  0  all rules hold: the volume is sound
  1  a rule doesn't hold
  6  with --status: rule 1 or 2 doesn't hold, so the image has no volume of this edition; but if blocks are lost (--cut,
     --bad, --bad-blocks, --sizes, --like), this is said of rule 2 alone
     if blocks are lost: more than 1048576 blocks are missing; or the super-block is lost, and neither --sizes nor
     --like is given
  2  the command line is wrong; or no volume of the edition has the sizes of --sizes or --like
  3  `unixvol: cannot read IMAGE`, or `unixvol: cannot write -`: standard output failed; or MAPFILE can't be read
  4  `unixvol: 12 NoMemory`";

const GRADED: Parameter = Parameter {
    name: "status",
    kind: WordKind::Flag,
    need: Need::Flag(None),
    help: "Exit with status 6 if the image has no volume of this edition",
};

/// The words that `check` takes.
pub(crate) const WORDS: &[Parameter] = &[
    EDITION, IMAGE, AT, GRADED, CUT, BAD, BAD_BLOCKS, SIZES, LIKE, JSON,
];

/// Reads the words of `check`.
pub(crate) fn read<'a, G: Given<'a>>(
    alloc: Global,
    given: &G,
    _clock: Option<u32>,
) -> Result<Invocation<'a>, WordFault<'a>>
    ensures read { IfOk result (AsksFor _clock verbs.Check (G.words given.now)) }
    ensures refused { IfErr result (TellsOf (AsksForNothing _clock verbs.Check (G.words given.now))) }
{
    let volume = volume_in(given)?;
    let cut = flag_in(given, "cut");
    let bad = bad_image_in(alloc, given, volume.edition, cut)?;
    let look = BadLook::Check {
        graded: flag_in(given, "status"),
        form: form_in(given),
    };
    Ok(look_at(volume, bad, look))
}
